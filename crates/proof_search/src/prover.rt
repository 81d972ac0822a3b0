// The search for a proof of a problem.
ghost use Rattle.std.specs.Prelude.{◌≡◌, ◌<◌, ◌≤◌, [], IfOk, length};
ghost use Rattle.heap_formula.specs.Words.{Each};
ghost use Rattle.formula_reader.specs.Nodes.{IsNodeWithin};
ghost use Rattle.derivations.specs.Derivations.{reasons_in};
ghost use Rattle.derivations.specs.System.{search_of};
ghost use Rattle.proof_search.specs.Moves.{IsOfProblem};
ghost use Rattle.proof_search.specs.Outcomes.{search_for, outcome_of, IsFirst, IsOver, IsProved, MayStandIn};

use crate::logic::SeparationSearch;
use cyc_basics::limits::MOST_NODES;
use cyc_basics::memory::OutOfMemory;
use derivations::Derivation;
use derivations::found::{Proved as Searched, search_proof};
use formula_reader::Problem;
use formula_reader::files::{file_for, problem_is_within};
use heap_formula::{Judgement, Reason};
use proof_file::{FileNodes, ProofFile};
use rule_book::reasons::SeparationLogic;
use std::alloc::Global;

/// What comes of a search: a proof; nothing, within the depth; or that a limit was met, on partial derivations of one
/// depth or on product states.
#[derive(Drop)]
pub enum Proved {
    Found(ProofFile),
    NotFound,
    TooManyDerivations,
    TooManyStates,
}

/// The empty derivation of the problem's goal.
fn begin(
    alloc: Global,
    problem: &Problem,
) -> Result<Derivation<SeparationSearch<'_>, Judgement, Reason>, OutOfMemory>
    ensures order { IfOk result (IsOfProblem problem.now) }
    ensures nothing { IfOk result (λ s. reasons_in s ≡ []) }
{
    problem_is_within(problem);
    let logic = SeparationSearch {
        logic: SeparationLogic {
            defs: &problem.defs,
            program: &problem.program,
        },
    };
    let root = problem.goal.clone()?;
    let goal = problem.goal.clone()?;
    Derivation::new(alloc, logic, MOST_NODES as u32, root, goal)
}

/// What was found, as a file of the problem.
fn file_of(
    alloc: Global,
    problem: &Problem,
    proved: Searched<Judgement, Reason>,
) -> Result<Proved, OutOfMemory>
    requires { MayStandIn problem.now proved }
    ensures { IfOk result (IsOver problem.now proved) }
{
    match proved {
        Searched::Found(nodes) => {
            let file = file_for(alloc, problem, FileNodes::from_vec(nodes))?;
            Ok(Proved::Found(file))
        }
        Searched::NotFound => Ok(Proved::NotFound),
        Searched::TooManyDerivations => Ok(Proved::TooManyDerivations),
        Searched::TooManyStates => Ok(Proved::TooManyStates),
    }
}

/// Searches for a proof of the problem's goal at depth 1, 2, .. up to `depth`. At each depth partial derivations are
/// counted, the empty one first, and links that are not admitted; the search stops where `most` are counted.
pub fn prove(alloc: Global, problem: &Problem, depth: u32, most: u32) -> Result<Proved, OutOfMemory>
    requires depth { depth ≤ 40 }
    requires most { 0 < most }
    ensures outcome { IfOk result (λ proved. outcome_of proved ≡ search_of (search_for problem.now) most depth) }
    ensures first { IfOk result (IsFirst problem.now depth) }
    ensures proved { IfOk result (IsProved problem.now) }
{
    problem_is_within(problem);
    let logic = SeparationLogic {
        defs: &problem.defs,
        program: &problem.program,
    };
    let start = begin(alloc, problem)?;
    let proved = search_proof(alloc, &logic, start, depth, most)?;
    file_of(alloc, problem, proved)
}
