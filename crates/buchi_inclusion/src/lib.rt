//! Whether every lasso of a trace graph progresses, decided on its product with age forests: the global condition of
//! cyclic proofs as an inclusion of automata (Brotherston, Gorogiannis and Petersen 2012).
#![tactic(auto)]

mod decision;
pub mod extension;
mod laws;
mod product;
mod ranks;
mod reaching;
mod system;

ghost use Rattle.std.specs.Prelude.{IfOk};
ghost use Rattle.trace_pairs.specs.Graph.{IsGraph};
ghost use Rattle.buchi_inclusion.specs.Inclusion.{IsInclusion, IsProgress};

use bumpalo::Bump;
pub use cyc_basics::memory::OutOfMemory;
use decision::{decide, lasso_of};
pub use laws::{answers_agree, descends, product_decides};
use product::explore;
use std::alloc::Global;
pub use system::{Checked, check_system};
use trace_pairs::{Lasso, TraceGraph};

/// The greatest number of product states that a check of a proof, or a search for one, explores.
pub const MOST_PRODUCT_STATES: u32 = 200_000;

/// What is known of a graph: every lasso progresses; a lasso that doesn't; or that there are more product states than
/// the limit. A product state is a node with an age forest; those count that a path from node 0 leads to.
#[derive(Drop)]
pub enum Inclusion {
    Included,
    Counter(Lasso),
    TooManyStates,
}

/// Whether every lasso of the graph progresses, if there are at most `limit` product states. Which lasso is given where
/// several don't progress is left open.
pub fn included(alloc: Global, graph: &TraceGraph, limit: u32) -> Result<Inclusion, OutOfMemory>
    requires graph { IsGraph graph.now }
    ensures { IfOk result (IsInclusion graph.now limit) }
{
    let arena = Bump::new(alloc);
    let explored = explore(alloc, &arena, graph, limit)?;
    let Some(table) = explored else {
        return Ok(Inclusion::TooManyStates);
    };
    let found = decide(alloc, graph, &table)?;
    let Some(bad) = found else {
        return Ok(Inclusion::Included);
    };
    let lasso = lasso_of(alloc, graph, &table, bad)?;
    Ok(Inclusion::Counter(lasso))
}

/// What is known of a graph where no lasso is asked for: every lasso progresses; some lasso doesn't; or there are more
/// product states than the limit.
#[derive(Clone, Copy)]
pub enum Progress {
    Progresses,
    DoesNot,
    TooManyStates,
}

/// Whether every lasso of the graph progresses, if there are at most `limit` product states.
pub fn all_lassos_progress(
    alloc: Global,
    graph: &TraceGraph,
    limit: u32,
) -> Result<Progress, OutOfMemory>
    requires graph { IsGraph graph.now }
    ensures { IfOk result (IsProgress graph.now limit) }
{
    let arena = Bump::new(alloc);
    let explored = explore(alloc, &arena, graph, limit)?;
    let Some(table) = explored else {
        return Ok(Progress::TooManyStates);
    };
    let found = decide(alloc, graph, &table)?;
    let Some(_bad) = found else {
        return Ok(Progress::Progresses);
    };
    Ok(Progress::DoesNot)
}
