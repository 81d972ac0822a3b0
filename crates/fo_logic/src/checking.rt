// The verdict on a proof, as on the nodes of a proof in any logic.
ghost use Rattle.std.specs.Prelude.{IfOk};
ghost use Rattle.fo_logic.specs.Files.{IsFoProof};
ghost use Rattle.fo_logic.specs.Verdicts.{IsVerdict};

use crate::first_order::FirstOrder;
use cyc_basics::memory::OutOfMemory;
use fo_formula::FoFile;
use fo_formula::table::FoFault;
use logics::{Verdict, check_proof};
use std::alloc::Global;

/// The verdict on a proof in first-order logic.
pub type FoVerdict = Verdict<FoFault>;

/// The verdict on a proof: the least node that is not right, with its first fault; else that the product states are too
/// many; else a lasso that does not progress; else that the proof is correct, and then the sequent of node 0 holds in
/// every valuation (Brotherston and Simpson 2011). Which lasso is named, where several do not progress, is left open.
pub fn check_fo(alloc: Global, file: &FoFile) -> Result<FoVerdict, OutOfMemory>
    requires { IsFoProof file.now }
    ensures { IfOk result (IsVerdict file.now) }
{
    let logic = FirstOrder {
        theory: &file.theory,
    };
    check_proof(alloc, &logic, file.nodes.as_slice())
}
