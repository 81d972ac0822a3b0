// The lines of faults of scripts.
ghost use Rattle.std.specs.Prelude.{◌≡◌, ◌<◌, ◌-◌, ◌^◌, length, IfOk, true};
ghost use Rattle.cyc_runs.specs.Endings.{is_answer};
ghost use Rattle.script_answers.specs.Refusals.{is_refusal};

use crate::words::{UnsayableWord, ill_word, limit_word, unsayable_word, unsupported_word};
use cyc_basics::memory::OutOfMemory;
use cyc_runs::texts::Line;
use cyc_runs::{Answer, Status};
use script_formulas::goals::Unsupported as Unsayable;
use script_reader::ScriptFault;
use script_reader::trees::{TokenPlace, place_of};
use std::alloc::Global;

/// A line about a byte.
fn byte_line(alloc: Global, input: &[u8], word: &str, offset: usize) -> Result<Vec<u8>, OutOfMemory>
    requires { length input.now < 2 ^ 32 - 1 }
{
    let place = place_of(input, offset);
    let mut line = Line::new(alloc);
    line.text("unreadable ")?;
    line.text(word)?;
    line.text(" offset ")?;
    line.number(offset as u64)?;
    end_of_line(line, place)
}

fn end_of_line(mut line: Line, place: TokenPlace) -> Result<Vec<u8>, OutOfMemory> {
    line.text(" line ")?;
    line.number(u64::from(place.line))?;
    line.text(" column ")?;
    line.number(u64::from(place.column))?;
    line.end()
}

/// A line about a token.
fn token_line(
    alloc: Global,
    input: &[u8],
    kind: &str,
    word: &str,
    offset: usize,
) -> Result<Vec<u8>, OutOfMemory>
    requires { length input.now < 2 ^ 32 - 1 }
{
    let place = place_of(input, offset);
    let mut line = Line::new(alloc);
    line.text(kind)?;
    line.text(word)?;
    line.text(" token ")?;
    line.number(u64::from(place.token))?;
    end_of_line(line, place)
}

/// The answer to a script with this fault. Out of memory has no answer.
pub fn answer_to_script_fault(
    alloc: Global,
    input: &[u8],
    fault: ScriptFault,
) -> Result<Answer, OutOfMemory>
    requires { length input.now < 2 ^ 32 - 1 }
    ensures refused { IfOk result (λ a. is_refusal a.status ≡ true) }
    ensures ending { IfOk result (λ a. is_answer a.status ≡ true) }
{
    let (status, text) = match fault {
        ScriptFault::Byte(at) => (Status::Unreadable, byte_line(alloc, input, "byte", at)?),
        ScriptFault::Utf8(at) => (Status::Unreadable, byte_line(alloc, input, "utf8", at)?),
        ScriptFault::Syntax(at) => (
            Status::Unreadable,
            token_line(alloc, input, "unreadable ", "syntax", at)?,
        ),
        ScriptFault::IllFormed(what, at) => (
            Status::IllFormed,
            token_line(alloc, input, "ill-formed ", ill_word(what), at)?,
        ),
        ScriptFault::Limit(what, at) => (
            Status::Limit,
            token_line(alloc, input, "limit ", limit_word(what), at)?,
        ),
        ScriptFault::Unsupported(what, at) => (
            Status::IllFormed,
            token_line(alloc, input, "unsupported ", unsupported_word(what), at)?,
        ),
        ScriptFault::OutOfMemory => return Err(OutOfMemory),
    };
    Ok(Answer { status, text })
}

/// The answer to a script of which no problem says what it asks.
pub fn answer_to_unsayable(
    alloc: Global,
    input: &[u8],
    what: Unsayable,
    at: usize,
) -> Result<Answer, OutOfMemory>
    requires { length input.now < 2 ^ 32 - 1 }
    ensures refused { IfOk result (λ a. is_refusal a.status ≡ true) }
    ensures ending { IfOk result (λ a. is_answer a.status ≡ true) }
{
    let (status, text) = match unsayable_word(what) {
        UnsayableWord::Unsupported(word) => (
            Status::IllFormed,
            token_line(alloc, input, "unsupported ", word, at)?,
        ),
        UnsayableWord::Limit(word) => {
            (Status::Limit, token_line(alloc, input, "limit ", word, at)?)
        }
    };
    Ok(Answer { status, text })
}
