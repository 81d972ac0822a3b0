//! Why a text has no tokens.

use crate::explanations::advice::on_character;
use crate::explanations::parts::{Part, push_parts, push_text};
use crate::explanations::places::Spot;
use cyc_basics::limits::{LONGEST_NAME, LONGEST_NUMBER};
use cyc_basics::memory::OutOfMemory;
use cyc_lex::LexFault;
use std::alloc::Global;

/// The place of a fault; the start of the text where it has none.
pub fn place_of(fault: LexFault) -> Spot {
    let (line, column) = match fault {
        LexFault::BadByte { line, column, .. } => (line, column),
        LexFault::BadUtf8 { line, column, .. } => (line, column),
        LexFault::LongNumber { line, column, .. } => (line, column),
        LexFault::LongName { line, column, .. } => (line, column),
        LexFault::OutOfMemory => (1, 1),
    };
    Spot {
        line: line as usize,
        column: column as usize,
    }
}

/// The character at an offset.
fn char_at(text: &[u8], offset: u32) -> Option<char> {
    let rest = text.get(offset as usize..)?;
    let chunk = rest.utf8_chunks().next()?;
    chunk.valid().chars().next()
}

fn push_character(alloc: Global, out: &mut String, c: char) -> Result<(), OutOfMemory> {
    if c.is_control() {
        return push_parts(
            out,
            &[
                Part::Text("the character with the number "),
                Part::Number(c as u64),
            ],
        );
    }
    let shown = format!(in alloc; "{c}")?;
    push_parts(out, &[Part::Name(shown.as_str())])
}

fn push_stray(
    alloc: Global,
    out: &mut String,
    text: &[u8],
    offset: u32,
) -> Result<(), OutOfMemory> {
    let Some(c) = char_at(text, offset) else {
        return push_text(out, "no token begins here");
    };
    push_character(alloc, out, c)?;
    push_text(out, " begins no token")?;
    if let Some(advice) = on_character(c) {
        push_parts(out, &[Part::Text("; "), Part::Text(advice)])?;
    }
    Ok(())
}

fn push_byte(alloc: Global, out: &mut String, text: &[u8], offset: u32) -> Result<(), OutOfMemory> {
    let Some(byte) = text.get(offset as usize) else {
        return push_text(out, "no character of UTF-8 begins here");
    };
    let shown = format!(in alloc; "0x{byte:02x}")?;
    push_parts(
        out,
        &[
            Part::Text("the byte "),
            Part::Text(shown.as_str()),
            Part::Text(" begins no character; the text has to be UTF-8"),
        ],
    )
}

/// Appends what is bad.
pub fn push_lexical(
    alloc: Global,
    out: &mut String,
    text: &[u8],
    fault: LexFault,
) -> Result<(), OutOfMemory> {
    match fault {
        LexFault::BadByte { offset, .. } => push_stray(alloc, out, text, offset),
        LexFault::BadUtf8 { offset, .. } => push_byte(alloc, out, text, offset),
        LexFault::LongNumber { .. } => push_parts(
            out,
            &[
                Part::Text("a number has at most "),
                Part::Number(LONGEST_NUMBER as u64),
                Part::Text(" digits"),
            ],
        ),
        LexFault::LongName { .. } => push_parts(
            out,
            &[
                Part::Text("a name has at most "),
                Part::Number(LONGEST_NAME as u64),
                Part::Text(" bytes"),
            ],
        ),
        LexFault::OutOfMemory => push_text(out, "memory ran out"),
    }
}
