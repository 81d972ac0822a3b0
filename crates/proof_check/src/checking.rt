// The verdict on a file, as on the nodes of a proof in any logic.
ghost use Rattle.std.specs.Prelude.{IfOk};
ghost use Rattle.proof_check.specs.Verdicts.{IsVerdict};

use cyc_basics::memory::OutOfMemory;
use heap_formula::RuleFault;
use logics::check_proof;
use proof_file::ProofFile;
use rule_book::reasons::SeparationLogic;
use std::alloc::Global;

/// The verdict on a proof file, or on any list of nodes.
pub type Verdict = logics::Verdict<RuleFault>;

/// The verdict on a proof file: the least node that is not right, with its first fault; else that the product states
/// are too many; else a lasso that does not progress; else that the file is correct, and then node 0 holds
/// (Brotherston, Gorogiannis and Petersen 2012). Which lasso is named, where several do not progress, is left open.
pub fn check(alloc: Global, file: &ProofFile) -> Result<Verdict, OutOfMemory>
    ensures { IfOk result (IsVerdict file.now) }
{
    let _lines = file.program.lines();
    let logic = SeparationLogic {
        defs: &file.defs,
        program: &file.program,
    };
    check_proof(alloc, &logic, file.nodes.as_slice())
}
