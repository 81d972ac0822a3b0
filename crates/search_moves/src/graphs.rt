// What a goal is offered in a partial derivation that a proof graph holds.
ghost use Rattle.std.specs.Prelude.{◌≡◌, ◌<◌, ◌++◌, [], ◌∷◌, Some, IfOk, length, slice_get};
ghost use Rattle.std.specs.Option.{option_copied};
ghost use Rattle.std.specs.Prelude.{option_map};
ghost use Rattle.heap_formula.specs.Words.{Each};
ghost use Rattle.proof_graph.specs.declared.nodes.GraphNode.{GraphNode};
ghost use Rattle.proof_graph.specs.ReasonViews.{reason_of};
ghost use Rattle.search_moves.specs.Graphs.{is_number, fills as fills_premises, parent_of as parent_of_node};
ghost use Rattle.search_moves.specs.Graphs.{goal_with, reason_or_done as reason_or_done_of, made_of, made_before};
ghost use Rattle.search_moves.specs.Graphs.{OffersLinks, OffersRules};
ghost use Rattle.search_moves.specs.Limits.{IsSmall};
ghost use Rattle.search_moves.specs.Settings.{theory};

use crate::offered::Offers;
use crate::offering::offers_of;
use cyc_basics::memory::OutOfMemory;
use derivations::tableaux::{MadeNode, OpenGoal, Subgoal, TracePairs};
use goto_lang::Program;
use heap_formula::{Judgement, Reason, Rule};
use pred_defs::Defs;
use proof_graph::{Graph, PremiseView, ReasonView};
use std::alloc::Global;

fn names(slot: Option<u32>, v: u32) -> bool
    ensures { result ≡ is_number v slot }
{
    match slot {
        None => false,
        Some(u) => u == v,
    }
}

/// Whether node `v` proves one of the premises.
fn fills(premises: &[PremiseView<'_>], v: u32) -> bool
    ensures { result ≡ fills_premises v premises.now }
{
    for premise in premises {
        if names(premise.slot, v) {
            return true;
        }
    }
    false
}

/// The last node before `v` of which it proves a premise; node 0 where there is none.
fn parent_of(graph: &Graph<'_>, v: u32) -> u32
    requires { v < length graph.now }
    ensures { result ≡ parent_of_node graph.now v }
{
    let mut n = v;
    while n > 0 {
        n -= 1;
        if fills(graph.node(n).premises, v) {
            return n;
        }
    }
    0
}

/// The judgement as a goal in the place of node `v`.
fn goal_at(alloc: Global, graph: &Graph<'_>, v: u32, judgement: Judgement) -> OpenGoal<Judgement>
    requires { v < length graph.now }
    ensures { result ≡ goal_with graph.now v judgement }
{
    let pairs = TracePairs::from_vec(Vec::new(alloc));
    OpenGoal {
        parent: parent_of(graph, v),
        place: 0,
        depth: 0,
        premise: Subgoal { judgement, pairs },
    }
}

fn reason_or_done(alloc: Global, reason: Option<&ReasonView<'_>>) -> Result<Reason, OutOfMemory>
    ensures { IfOk result (λ r. r ≡ reason_or_done_of (option_map reason_of (option_copied reason.entry))) }
{
    match reason {
        None => Ok(Reason::Step(Rule::Done)),
        Some(view) => Ok(view.to_reason(alloc)?),
    }
}

/// Node `v` as a node of a partial derivation.
fn made_node(
    alloc: Global,
    graph: &Graph<'_>,
    v: u32,
) -> Result<MadeNode<Judgement, Reason>, OutOfMemory>
    requires { v < length graph.now }
    ensures { IfOk result (λ m. (node : GraphNode) → slice_get graph.now v ≡ Some node
        → m ≡ made_of graph.now v node) }
{
    let judgement = graph.judgement(v)?;
    let reason = reason_or_done(alloc, graph.node(v).reason)?;
    let goal = goal_at(alloc, graph, v, judgement);
    Ok(MadeNode { goal, reason })
}

/// The nodes before a goal.
fn made_nodes(
    alloc: Global,
    graph: &Graph<'_>,
    goal: u32,
) -> Result<Vec<MadeNode<Judgement, Reason>>, OutOfMemory>
    requires { goal < length graph.now }
    ensures { IfOk result (λ v. v.items ≡ made_before graph.now goal) }
{
    let mut made = Vec::new(alloc);
    for v in 0..goal {
        made.push(made_node(alloc, graph, v)?)?;
    }
    Ok(made)
}

/// The links and the rules that the goal, a node without a reason, is offered in the partial derivation that the graph
/// holds, in the order in which they are to be tried. The search asks `offers_of`, which wants no graph.
pub fn offers(
    alloc: Global,
    defs: &Defs,
    program: &Program,
    graph: &Graph<'_>,
    goal: u32,
) -> Result<Offers, OutOfMemory>
    requires goal { goal < length graph.now }
    requires small { Each IsSmall defs.now.list }
    ensures links { IfOk result (λ o. OffersLinks (theory defs.now program.now) graph.now goal o.links.items) }
    ensures rules { IfOk result (λ o. OffersRules (theory defs.now program.now) graph.now goal o.rules.items) }
{
    let made = made_nodes(alloc, graph, goal)?;
    let judgement = graph.judgement(goal)?;
    let at = goal_at(alloc, graph, goal, judgement);
    offers_of(alloc, defs, program, &made, &at)
}
