//! What the reason of a node leaves to be shown, be it a rule or a link: judgements, each with the trace pairs to it.

mod links;
mod separation_logic;

ghost use Rattle.std.specs.Prelude.{IfOk};
ghost use Rattle.std.specs.Option.{option_copied};
ghost use Rattle.heap_formula.specs.Judgements.{IsLocallySound};
ghost use Rattle.rule_table.specs.Answered.{IsAnswer};
ghost use Rattle.rule_table.specs.Judgements.{IsReadable};
ghost use Rattle.rule_book.specs.Answers.{reason_answer};

use crate::premises;
use goto_lang::Program;
use heap_formula::{Judgement, Premise, Reason, RuleError, RuleFault};
pub use links::leaves_nothing;
use links::premises_by_link;
use pred_defs::Defs;
pub use separation_logic::{SeparationLogic, traced_pairs};
use std::alloc::Global;

/// What a reason leaves to be shown at a judgement, or its first fault: a rule its premises; a link its companion, with
/// the pairs of its map (Brotherston, Gorogiannis and Petersen 2012). `companion` is the judgement of the node that a
/// link names, if there is one.
pub fn premises_by_reason(
    alloc: Global,
    defs: &Defs,
    program: &Program,
    judgement: &Judgement,
    reason: &Reason,
    companion: Option<&Judgement>,
) -> Result<Vec<Premise>, RuleError>
    ensures answer { IsAnswer result
        (reason_answer defs.now.most defs.now.list program.now judgement.now reason.now
        (option_copied companion.entry)) }
    ensures sound { IfOk result (λ v. IsReadable judgement.now reason.now
        → IsLocallySound defs.now.list program.now judgement.now v.items) }
{
    match reason {
        Reason::Step(rule) => premises(alloc, defs, program, judgement, rule),
        Reason::Back(link) => match companion {
            None => Err(RuleError::Fault(RuleFault::NoSuchNode)),
            Some(companion) => premises_by_link(alloc, program, judgement, companion, link),
        },
    }
}
