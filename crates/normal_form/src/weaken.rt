// A pure atom that is not needed.
ghost use Rattle.std.specs.Prelude.{◌≡◌, ◌<◌, IfOk, List, length};
ghost use Rattle.heap_formula.specs.declared.commands.Command.{Command};
ghost use Rattle.heap_formula.specs.Definitions.{Definition};
ghost use Rattle.heap_formula.specs.Judgements.{IsLocallySound, antecedent as antecedent_of};
ghost use Rattle.heap_formula.specs.Positions.{without};
ghost use Rattle.rule_table.specs.Answer.{one};
ghost use Rattle.rule_table.specs.Answered.{IsAnswer};
ghost use Rattle.rule_table.specs.Table.{with_pures, weaken_answer};

use cyc_basics::memory::OutOfMemory;
use heap_formula::{Judgement, Premise, RuleError, RuleFault};
use rule_table::{antecedent, atoms_without, one_premise, with_pure_atoms};
use std::alloc::Global;

/// The judgement without pure atom `k` of the antecedent, as the one premise.
pub fn weakened(alloc: Global, judgement: &Judgement, k: usize) -> Result<Vec<Premise>, OutOfMemory>
    requires { k < length (antecedent_of judgement.now).pure }
    ensures { IfOk result (λ v. v.items
        ≡ one (with_pures judgement.now (without k (antecedent_of judgement.now).pure))) }
{
    let pure = atoms_without(alloc, antecedent(judgement).pure(), k)?;
    one_premise(alloc, with_pure_atoms(alloc, judgement, pure)?)
}

fn weaken(alloc: Global, judgement: &Judgement, k: u32) -> Result<Vec<Premise>, RuleError>
    ensures { IsAnswer result (weaken_answer judgement.now k) }
{
    if antecedent(judgement).pure().len() <= k as usize {
        return Err(RuleError::Fault(RuleFault::NoSuchAtom));
    }
    Ok(weakened(alloc, judgement, k as usize)?)
}

/// The judgement without pure atom `k` of the antecedent, counted from 0.
pub fn premises_weaken(
    alloc: Global,
    judgement: &Judgement,
    _p: u16,
    k: u32,
) -> Result<Vec<Premise>, RuleError>
    ensures answer { IsAnswer result (weaken_answer judgement.now k) }
    ensures sound { IfOk result (λ v. (ds : List Definition) (lines : List Command)
        → IsLocallySound ds lines judgement.now v.items) }
{
    weaken(alloc, judgement, k)
}
