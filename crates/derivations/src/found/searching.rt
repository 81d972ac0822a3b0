// The search for a proof in any logic with offers, by iterative deepening (Korf 1985). Whatever is offered, what is found
// is a proof that a check accepts (Brotherston, Gorogiannis and Petersen 2012).
ghost use Rattle.std.specs.Prelude.{◌≡◌, ◌<◌, [], length, IfOk, OnOk};
ghost use Rattle.derivations.specs.System.{search_of};
ghost use Rattle.derivations.specs.Derivations.{IsInOrder, about, reasons_in, search_in, tableau_in};
ghost use Rattle.derivations.specs.Found.{IsSearchOf};
ghost use Rattle.derivations.specs.LogicNodes.{proof_nodes};
ghost use Rattle.derivations.specs.Outcomes.{outcome_of, IsProved};

use crate::found::nodes::nodes_made;
use crate::search::{Stop, search_depth};
use crate::{Derivation, Strategy};
use cyc_basics::memory::OutOfMemory;
use logics::{Logic, ProofNode};
use std::alloc::Global;

/// What comes of a search: a proof; nothing, within the depth; or that a limit was met, on partial derivations of one
/// depth or on product states.
#[derive(Drop)]
pub enum Proved<J, R> {
    Found(Vec<ProofNode<J, R>>),
    NotFound,
    TooManyDerivations,
    TooManyStates,
}

/// Takes all reasons back.
fn rewind<S: Strategy>(
    moves: &mut Derivation<S, S::Judgement, S::Reason>,
) -> Result<(), OutOfMemory>
    requires { IsInOrder S.calculus S.occurs S.allows moves.old }
    ensures order { OnOk result (IsInOrder S.calculus S.occurs S.allows moves.new) }
    ensures nothing { OnOk result (reasons_in moves.new ≡ []) }
    ensures subject { OnOk result (about moves.new ≡ about moves.old) }
{
    while !moves.made.is_empty() {
        moves.take_back()?;
    }
    Ok(())
}

/// The nodes of the proof that a derivation without open goals is.
fn proof_of<L: Logic, S: Drop>(
    alloc: Global,
    logic: &L,
    moves: Derivation<S, L::Judgement, L::Reason>,
) -> Result<Vec<ProofNode<L::Judgement, L::Reason>>, OutOfMemory>
    requires { length moves.made.items ≡ length moves.traces }
    ensures { IfOk result (λ v. v.items ≡ proof_nodes (L.logic logic.now).target (tableau_in moves)) }
{
    let graph = moves.traces.graph(alloc)?;
    nodes_made(alloc, logic, &graph, moves.made)
}

/// Searches for a proof at depth 1, 2, .. up to `depth`, from a derivation of the goal in which nothing is made. At
/// each depth partial derivations are counted, the empty one first, and links that are not admitted; the search stops
/// where
/// `most` are counted.
pub fn search_proof<L: Logic, S: Strategy<Judgement = L::Judgement, Reason = L::Reason>>(
    alloc: Global,
    logic: &L,
    start: Derivation<S, L::Judgement, L::Reason>,
    depth: u32,
    most: u32,
) -> Result<Proved<L::Judgement, L::Reason>, OutOfMemory>
    requires of { IsSearchOf (L.logic logic.now) (S.calculus start.logic) (S.occurs start.logic)
        (S.allows start.logic) }
    requires order { IsInOrder S.calculus S.occurs S.allows start }
    requires nothing { reasons_in start ≡ [] }
    requires depth { depth < 4294967295 }
    requires most { 0 < most }
    ensures outcome { IfOk result (λ proved. outcome_of proved ≡ search_of (search_in S.calculus start) most depth) }
    ensures proved { IfOk result (IsProved (L.logic logic.now) (S.calculus start.logic) start.root) }
{
    let mut moves = start;
    for bound in 1..depth + 1 {
        match search_depth(alloc, &mut moves, bound, most)? {
            None => rewind(&mut moves)?,
            Some(Stop::TooManyDerivations) => return Ok(Proved::TooManyDerivations),
            Some(Stop::TooManyStates) => return Ok(Proved::TooManyStates),
            Some(Stop::Found) => return Ok(Proved::Found(proof_of(alloc, logic, moves)?)),
        }
    }
    Ok(Proved::NotFound)
}
