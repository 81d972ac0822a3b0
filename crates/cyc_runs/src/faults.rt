// Answers to faults of the input.
ghost use Rattle.std.specs.Prelude.{◌≡◌, ◌≢◌, IfOk, true};
ghost use Rattle.cyc_runs.specs.Endings.{is_answer};
ghost use Rattle.cyc_runs.specs.Faults.{fault_status, fault_text};

use crate::answers::Answer;
use crate::endings::Status;
use crate::texts::{ill_formed_line, lexical_line, limit_line, syntax_line};
use cyc_basics::memory::OutOfMemory;
use cyc_lex::ReadFault;
use std::alloc::Global;

/// The answer to an input that has this fault. Out of memory has no answer.
pub fn answer_to_fault(alloc: Global, fault: ReadFault) -> Result<Answer, OutOfMemory>
    ensures known { IfOk result (λ a. fault ≢ ReadFault.OutOfMemory) }
    ensures status { IfOk result (λ a. a.status ≡ fault_status fault) }
    ensures ending { IfOk result (λ a. is_answer a.status ≡ true) }
    ensures text { IfOk result (λ a. a.text.items ≡ fault_text fault) }
{
    let (status, text) = match fault {
        ReadFault::Lex(fault) => (Status::Unreadable, lexical_line(alloc, fault)?),
        ReadFault::Syntax {
            token,
            line,
            column,
        } => (Status::Unreadable, syntax_line(alloc, token, line, column)?),
        ReadFault::IllFormed {
            fault,
            token,
            line,
            column,
        } => (
            Status::IllFormed,
            ill_formed_line(alloc, fault, token, line, column)?,
        ),
        ReadFault::Limit {
            what,
            token,
            line,
            column,
        } => (Status::Limit, limit_line(alloc, what, token, line, column)?),
        ReadFault::OutOfMemory => return Err(OutOfMemory),
    };
    Ok(Answer { status, text })
}
