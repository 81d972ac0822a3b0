// Nothing is left to prove.
ghost use Rattle.std.specs.Prelude.{IfOk, List};
ghost use Rattle.heap_formula.specs.declared.commands.Command.{Command};
ghost use Rattle.heap_formula.specs.Definitions.{Definition};
ghost use Rattle.heap_formula.specs.Judgements.{IsLocallySound};
ghost use Rattle.rule_table.specs.Answered.{IsAnswer};
ghost use Rattle.rule_table.specs.Table.{done_answer};

use heap_formula::{Judgement, Premise, RuleError, RuleFault};
use std::alloc::Global;

fn done(alloc: Global, judgement: &Judgement) -> Result<Vec<Premise>, RuleError>
    ensures { IsAnswer result (done_answer judgement.now) }
{
    let Judgement::Entail(a, bs) = judgement else {
        return Err(RuleError::Fault(RuleFault::WrongJudgement));
    };
    let [b] = bs.heaps() else {
        return Err(RuleError::Fault(RuleFault::NotSingle));
    };
    match (a.spatial(), b.pure(), b.spatial()) {
        ([], [], []) => Ok(Vec::new(alloc)),
        _ => Err(RuleError::Fault(RuleFault::NotEmpty)),
    }
}

/// No premise, where neither side has a spatial atom and the one disjunct has no pure atom either.
pub fn premises_done(alloc: Global, judgement: &Judgement) -> Result<Vec<Premise>, RuleError>
    ensures answer { IsAnswer result (done_answer judgement.now) }
    ensures sound { IfOk result (λ v. (ds : List Definition) (lines : List Command)
        → IsLocallySound ds lines judgement.now v.items) }
{
    done(alloc, judgement)
}
