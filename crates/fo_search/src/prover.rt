// The search for a proof of a problem.
ghost use Rattle.std.specs.Prelude.{◌≡◌, ◌<◌, ◌≤◌, [], IfOk};
ghost use Rattle.derivations.specs.System.{search_of};
ghost use Rattle.fo_search.specs.Occurring.{MayOccur};
ghost use Rattle.derivations.specs.Derivations.{reasons_in};
ghost use Rattle.fo_search.specs.Moves.{IsFirstOrder};
ghost use Rattle.fo_search.specs.Outcomes.{search_for, outcome_of, IsFirst, IsOver, IsProved};

use crate::logic::FirstOrderSearch;
use cyc_basics::limits::MOST_NODES;
use cyc_basics::memory::OutOfMemory;
use derivations::Derivation;
use fo_file::values::FoProblem;
use fo_formula::{FoFile, FoNodes, FoReason, FoSequent, FoTheory};
use fo_logic::FirstOrder;
use derivations::found::{Proved, search_proof};
use std::alloc::Global;

/// What comes of a search: a proof; nothing, within the depth; or that a limit was met, on partial derivations of one
/// depth or on product states.
#[derive(Drop)]
pub enum FoProved {
    Found(FoFile),
    NotFound,
    TooManyDerivations,
    TooManyStates,
}

/// The empty derivation of the problem's goal.
fn begin(
    alloc: Global,
    problem: &FoProblem,
) -> Result<Derivation<FirstOrderSearch<'_>, FoSequent, FoReason>, OutOfMemory>
    requires { MayOccur problem.now.theory problem.now.goal }
    ensures order { IfOk result (IsFirstOrder problem.now) }
    ensures nothing { IfOk result (λ s. reasons_in s ≡ []) }
{
    let theory = &problem.theory;
    let logic = FirstOrderSearch {
        logic: FirstOrder { theory },
    };
    let root = problem.goal.clone()?;
    let goal = problem.goal.clone()?;
    Derivation::new(alloc, logic, MOST_NODES as u32, root, goal)
}

/// What was found, as a file over the theory.
fn file_of(theory: &FoTheory, proved: Proved<FoSequent, FoReason>) -> Result<FoProved, OutOfMemory>
    ensures { IfOk result (IsOver theory.now proved) }
{
    match proved {
        Proved::Found(nodes) => {
            let theory = theory.clone()?;
            let nodes = FoNodes::from_vec(nodes);
            Ok(FoProved::Found(FoFile { theory, nodes }))
        }
        Proved::NotFound => Ok(FoProved::NotFound),
        Proved::TooManyDerivations => Ok(FoProved::TooManyDerivations),
        Proved::TooManyStates => Ok(FoProved::TooManyStates),
    }
}

/// Searches for a proof of the problem's goal at depth 1, 2, .. up to `depth`. At each depth partial derivations are
/// counted, the empty one first, and links that are not admitted; the search stops where `most` are counted.
pub fn prove_fo(
    alloc: Global,
    problem: &FoProblem,
    depth: u32,
    most: u32,
) -> Result<FoProved, OutOfMemory>
    requires depth { depth ≤ 40 }
    requires most { 0 < most }
    requires within { MayOccur problem.now.theory problem.now.goal }
    ensures outcome { IfOk result (λ proved. outcome_of proved ≡ search_of (search_for problem.now) most depth) }
    ensures first { IfOk result (IsFirst problem.now depth) }
    ensures proved { IfOk result (IsProved problem.now) }
{
    let logic = FirstOrder {
        theory: &problem.theory,
    };
    let start = begin(alloc, problem)?;
    let proved = search_proof(alloc, &logic, start, depth, most)?;
    file_of(&problem.theory, proved)
}
