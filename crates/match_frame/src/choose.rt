// One of several disjuncts.
ghost use Rattle.std.specs.Prelude.{◌≡◌, [], ◌∷◌, IfOk, List, MatchOption, slice_get, None, Some};
ghost use Rattle.heap_formula.specs.declared.commands.Command.{Command};
ghost use Rattle.heap_formula.specs.Definitions.{Definition};
ghost use Rattle.heap_formula.specs.Judgements.{IsLocallySound};
ghost use Rattle.rule_table.specs.Answer.{one};
ghost use Rattle.rule_table.specs.Answered.{IsAnswer};
ghost use Rattle.rule_table.specs.Table.{with_right, choose_answer};

use cyc_basics::memory::OutOfMemory;
use heap_formula::{Heap, Judgement, Premise, RuleError, RuleFault};
use rule_table::{one_premise, with_disjunct};
use std::alloc::Global;

fn disjunct_at(heaps: &[Heap], k: u32) -> Option<&Heap>
    ensures { MatchOption result (slice_get heaps.now k ≡ None) (λ b. slice_get heaps.now k ≡ Some b.now) }
{
    heaps.get(k as usize)
}

fn chosen(alloc: Global, a: &Heap, b: &Heap) -> Result<Vec<Premise>, OutOfMemory>
    ensures { IfOk result (λ v. v.items ≡ one (with_right a.now (b.now ∷ []))) }
{
    one_premise(alloc, with_disjunct(alloc, a, b.clone()?)?)
}

fn choose(alloc: Global, judgement: &Judgement, k: u32) -> Result<Vec<Premise>, RuleError>
    ensures { IsAnswer result (choose_answer judgement.now k) }
{
    let Judgement::Entail(a, bs) = judgement else {
        return Err(RuleError::Fault(RuleFault::WrongJudgement));
    };
    let Some(b) = disjunct_at(bs.heaps(), k) else {
        return Err(RuleError::Fault(RuleFault::NoSuchAtom));
    };
    Ok(chosen(alloc, a, b)?)
}

/// The entailment with disjunct `k` alone, counted from 0.
pub fn premises_choose(
    alloc: Global,
    judgement: &Judgement,
    k: u32,
) -> Result<Vec<Premise>, RuleError>
    ensures answer { IsAnswer result (choose_answer judgement.now k) }
    ensures sound { IfOk result (λ v. (ds : List Definition) (lines : List Command)
        → IsLocallySound ds lines judgement.now v.items) }
{
    choose(alloc, judgement, k)
}
