// A problem's definitions and program as a proof file.
ghost use Rattle.std.specs.Prelude.{◌≡◌, ◌<◌, ◌≤◌, length, IfOk};
ghost use Rattle.heap_formula.specs.Words.{Each};
ghost use Rattle.formula_reader.specs.Nodes.{IsNodeWithin};

use crate::Problem;
use cyc_basics::limits::MOST_NODES;
use cyc_basics::memory::OutOfMemory;
use proof_file::{FileNodes, ProofFile};
use std::alloc::Global;

/// A proof file of the problem's version with copies of the problem's definitions and program, and with these nodes.
pub fn file_for(
    alloc: Global,
    problem: &Problem,
    nodes: FileNodes,
) -> Result<ProofFile, OutOfMemory>
    requires some_node { 0 < length nodes }
    requires few { length nodes ≤ MOST_NODES }
    requires within { Each
        (IsNodeWithin problem.now.defs.most problem.now.defs.list (length problem.now.program)) nodes }
    ensures version { IfOk result (λ f. f.version ≡ problem.now.version) }
    ensures definitions { IfOk result (λ f. f.defs ≡ problem.now.defs) }
    ensures program { IfOk result (λ f. f.program ≡ problem.now.program) }
    ensures nodes { IfOk result (λ f. f.nodes ≡ nodes) }
{
    let defs = problem.defs.clone()?;
    let program = problem.program.clone()?;
    Ok(ProofFile {
        version: problem.version,
        defs,
        program,
        nodes,
    })
}
