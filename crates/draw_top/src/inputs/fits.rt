//! Whether a proof is one of a problem's goal.
ghost use Rattle.std.specs.Prelude.{◌≡◌, ◌↔◌, IsTrue};
ghost use Rattle.draw_top.specs.Fits.{IsMisfit, HasGoal};

use definition_equality::{are_same_commands, are_same_definitions};
use formula_reader::Problem;
use heap_formula::{Judgement, is_same_judgement};
use proof_file::{FileNode, ProofFile};

/// What of a problem is not that of a proof: its definitions, or else its program, or else its goal.
#[derive(Clone, Copy)]
pub enum Misfit {
    Definitions,
    Program,
    Goal,
}

/// Whether node 0 has the goal.
fn has_goal(nodes: &[FileNode], goal: &Judgement) -> bool
    ensures { IsTrue result ↔ HasGoal nodes.now goal.now }
{
    match nodes {
        [] => false,
        [root, ..] => is_same_judgement(&root.judgement, goal),
    }
}

/// Why a proof is none of the problem's goal, if it is none: both have the same definitions with the same names, the
/// same program, and node 0 has the goal. Their versions may differ.
pub fn misfit_of(file: &ProofFile, problem: &Problem) -> Option<Misfit>
    ensures { IsMisfit file.now problem.now result }
{
    if !are_same_definitions(file.defs.as_slice(), problem.defs.as_slice()) {
        return Some(Misfit::Definitions);
    }
    if !are_same_commands(file.program.lines(), problem.program.lines()) {
        return Some(Misfit::Program);
    }
    if !has_goal(file.nodes.as_slice(), &problem.goal) {
        return Some(Misfit::Goal);
    }
    None
}
