// The check of what was found.
ghost use Rattle.std.specs.Prelude.{◌≡◌, IsTrue, IfOk, Some, slice_get};
ghost use Rattle.proof_file.specs.FileNodes.{FileNode as Node};
ghost use Rattle.solver.specs.Solutions.{IsChecked};

use crate::limits::are_nodes_within;
use cyc_basics::limits::MOST_NODES;
use cyc_basics::memory::OutOfMemory;
use formula_reader::Problem;
use formula_reader::files::file_for;
use heap_formula::{Judgement, is_same_judgement};
use proof_check::{Verdict, check};
use proof_file::{FileNode, FileNodes, ProofFile};
use std::alloc::Global;

/// Whether the first node has the goal.
fn has_goal(nodes: &[FileNode], goal: &Judgement) -> bool
    ensures { IsTrue result → (root : Node) × (slice_get nodes.now 0 ≡ Some root) × (root.judgement ≡ goal.now) }
{
    match nodes.first() {
        Some(root) => is_same_judgement(&root.judgement, goal),
        None => false,
    }
}

/// The nodes as a file, if they are a proof of the problem's goal.
pub fn checked(
    alloc: Global,
    problem: &Problem,
    nodes: Vec<FileNode>,
) -> Result<Option<ProofFile>, OutOfMemory>
    ensures { IfOk result (IsChecked problem.now) }
{
    if nodes.is_empty() || nodes.len() > MOST_NODES || !has_goal(&nodes, &problem.goal) {
        return Ok(None);
    }
    let lines = problem.program.lines().len();
    if !are_nodes_within(&problem.defs, lines, &nodes) {
        return Ok(None);
    }
    let file = file_for(alloc, problem, FileNodes::from_vec(nodes))?;
    match check(alloc, &file)? {
        Verdict::Accepted => Ok(Some(file)),
        _ => Ok(None),
    }
}
