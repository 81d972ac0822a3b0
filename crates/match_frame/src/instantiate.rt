// A term for an existential variable.
ghost use Rattle.std.specs.Prelude.{◌≡◌, [], ◌∷◌, IfOk, List};
ghost use Rattle.heap_formula.specs.declared.commands.Command.{Command};
ghost use Rattle.heap_formula.specs.Definitions.{Definition};
ghost use Rattle.heap_formula.specs.Judgements.{IsLocallySound};
ghost use Rattle.heap_formula.specs.Substitution.{in_heap};
ghost use Rattle.rule_table.specs.Answer.{one};
ghost use Rattle.rule_table.specs.Answered.{IsAnswer};
ghost use Rattle.rule_table.specs.Table.{with_right, instance_term, instantiate_answer};

use cyc_basics::memory::OutOfMemory;
use heap_formula::{Heap, Judgement, Premise, RuleError, RuleFault, Term};
use rule_table::{Change, changed_heap, one_premise, with_disjunct};
use std::alloc::Global;

fn instance(alloc: Global, a: &Heap, b: &Heap, v: u16, t: Term) -> Result<Vec<Premise>, OutOfMemory>
    ensures { IfOk result (λ p. p.items ≡ one (with_right a.now (in_heap (instance_term v t) b.now ∷ []))) }
{
    let heap = changed_heap(alloc, &Change::Instance(v, t), b)?;
    one_premise(alloc, with_disjunct(alloc, a, heap)?)
}

fn instantiate(
    alloc: Global,
    judgement: &Judgement,
    v: u16,
    t: Term,
) -> Result<Vec<Premise>, RuleError>
    ensures { IsAnswer result (instantiate_answer judgement.now v t) }
{
    let Judgement::Entail(a, bs) = judgement else {
        return Err(RuleError::Fault(RuleFault::WrongJudgement));
    };
    let [b] = bs.heaps() else {
        return Err(RuleError::Fault(RuleFault::NotSingle));
    };
    Ok(instance(alloc, a, b, v, t)?)
}

/// The entailment with `t` for existential variable `v` of its one disjunct.
pub fn premises_instantiate(
    alloc: Global,
    judgement: &Judgement,
    v: u16,
    t: Term,
) -> Result<Vec<Premise>, RuleError>
    ensures answer { IsAnswer result (instantiate_answer judgement.now v t) }
    ensures sound { IfOk result (λ p. (ds : List Definition) (lines : List Command)
        → IsLocallySound ds lines judgement.now p.items) }
{
    instantiate(alloc, judgement, v, t)
}
