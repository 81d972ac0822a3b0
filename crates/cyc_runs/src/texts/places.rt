// The lines of answers that name a place in the input.
ghost use Rattle.std.specs.Prelude.{◌≡◌, ◌++◌, IfOk};
ghost use Rattle.cyc_runs.specs.Texts.{ill_formed_text, lexical_text, limit_text, place_text, syntax_text, token_text};
ghost use Rattle.cyc_runs.specs.Texts.{unreadable_text};

use crate::texts::faults::{ill_name, limit_name};
use crate::texts::line::Line;
use cyc_basics::memory::OutOfMemory;
use cyc_lex::{IllFault, LexFault, What};
use std::alloc::Global;

// Ends a line with a line number and a column.
fn end_at_place(mut text: Line, line: u32, column: u32) -> Result<Vec<u8>, OutOfMemory>
    ensures { IfOk result (λ bytes. bytes.items ≡ text ++ place_text line column) }
{
    text.text(" line ")?;
    text.number(line as u64)?;
    text.text(" column ")?;
    text.number(column as u64)?;
    text.end()
}

// Ends a line with the number of a token and its place.
fn end_at_token(mut text: Line, token: u32, line: u32, column: u32) -> Result<Vec<u8>, OutOfMemory>
    ensures { IfOk result (λ bytes. bytes.items ≡ text ++ token_text token line column) }
{
    text.text(" token ")?;
    text.number(token as u64)?;
    end_at_place(text, line, column)
}

fn unreadable_line(
    alloc: Global,
    kind: &str,
    offset: u32,
    line: u32,
    column: u32,
) -> Result<Vec<u8>, OutOfMemory>
    ensures { IfOk result (λ bytes. bytes.items ≡ unreadable_text kind.now offset line column) }
{
    let mut text = Line::new(alloc);
    text.text("unreadable ")?;
    text.text(kind)?;
    text.text(" offset ")?;
    text.number(offset as u64)?;
    end_at_place(text, line, column)
}

/// The line for the first bad place of an input that has no tokens. Out of memory has no line.
pub fn lexical_line(alloc: Global, fault: LexFault) -> Result<Vec<u8>, OutOfMemory>
    ensures { IfOk result (λ bytes. bytes.items ≡ lexical_text fault) }
{
    match fault {
        LexFault::BadByte {
            offset,
            line,
            column,
        } => unreadable_line(alloc, "byte", offset, line, column),
        LexFault::BadUtf8 {
            offset,
            line,
            column,
        } => unreadable_line(alloc, "utf8", offset, line, column),
        LexFault::LongNumber {
            offset,
            line,
            column,
        } => unreadable_line(alloc, "number", offset, line, column),
        LexFault::LongName {
            offset,
            line,
            column,
        } => unreadable_line(alloc, "name", offset, line, column),
        LexFault::OutOfMemory => Err(OutOfMemory),
    }
}

/// The line for the first token, counted from 0, at which the input is no text of the grammar.
pub fn syntax_line(
    alloc: Global,
    token: u32,
    line: u32,
    column: u32,
) -> Result<Vec<u8>, OutOfMemory>
    ensures { IfOk result (λ bytes. bytes.items ≡ syntax_text token line column) }
{
    let mut text = Line::new(alloc);
    text.text("unreadable syntax")?;
    end_at_token(text, token, line, column)
}

/// The line for the first ill-formed item of the input.
pub fn ill_formed_line(
    alloc: Global,
    fault: IllFault,
    token: u32,
    line: u32,
    column: u32,
) -> Result<Vec<u8>, OutOfMemory>
    ensures { IfOk result (λ bytes. bytes.items ≡ ill_formed_text fault token line column) }
{
    let mut text = Line::new(alloc);
    text.text("ill-formed ")?;
    text.text(ill_name(fault))?;
    end_at_token(text, token, line, column)
}

/// The line for the first limit of the format that the input passes.
pub fn limit_line(
    alloc: Global,
    what: What,
    token: u32,
    line: u32,
    column: u32,
) -> Result<Vec<u8>, OutOfMemory>
    ensures { IfOk result (λ bytes. bytes.items ≡ limit_text what token line column) }
{
    let mut text = Line::new(alloc);
    text.text("limit ")?;
    text.text(limit_name(what))?;
    end_at_token(text, token, line, column)
}
