//! What was found at a place, and what could have stood there.

use crate::explanations::advice::on_token;
use crate::explanations::candidates::{Expected, what_fits};
use crate::explanations::choices::push_choices;
use crate::explanations::parts::{Part, push_parts, push_text};
use cyc_basics::memory::OutOfMemory;
use cyc_lex::{Kind, Token};
use heap_syntax::reserved_words;
use std::alloc::Global;

/// How many tokens may stand before a fault, if what could have stood there is to be told.
const MOST_TOKENS: usize = 20_000;

pub fn is_reserved(text: &str) -> bool {
    reserved_words().iter().any(|word| *word == text)
}

fn has_needless_zeros(text: &str) -> bool {
    text.len() > 1 && text.starts_with('0')
}

fn push_found(out: &mut String, found: &Token<'_>, expected: &Expected) -> Result<(), OutOfMemory> {
    let text = found.text;
    match found.kind {
        Kind::End => push_text(out, "the text ends here"),
        Kind::Name if expected.name && is_reserved(text) => {
            push_parts(out, &[Part::Name(text), Part::Text(" is a reserved word")])
        }
        Kind::Number if expected.number && has_needless_zeros(text) => {
            push_parts(out, &[Part::Name(text), Part::Text(" has needless zeros")])
        }
        _ => push_parts(out, &[Part::Name(text), Part::Text(" was found")]),
    }
}

/// What could have stood there, in words.
fn choices<'e>(alloc: Global, expected: &'e Expected) -> Result<Vec<Part<'e>>, OutOfMemory> {
    let mut choices = Vec::new(alloc);
    if expected.name {
        choices.push(Part::Text("a name"))?;
    }
    if expected.number {
        choices.push(Part::Text("a number"))?;
    }
    for word in expected.words.as_slice() {
        choices.push(Part::Name(*word))?;
    }
    if expected.end {
        choices.push(Part::Text("the end of the text"))?;
    }
    Ok(choices)
}

/// Appends where it was expected, if the token before stands on an earlier line.
fn push_behind(
    out: &mut String,
    found: &Token<'_>,
    before: &[Token<'_>],
) -> Result<(), OutOfMemory> {
    match before.last() {
        Some(token) if token.line < found.line => push_parts(
            out,
            &[
                Part::Text(" behind "),
                Part::Name(token.text),
                Part::Text(" in line "),
                Part::Number(token.line as u64),
            ],
        ),
        _ => Ok(()),
    }
}

/// What could have stood behind these tokens; nothing where they are too many to try.
fn tried(alloc: Global, before: &[Token<'_>]) -> Result<Expected, OutOfMemory> {
    if before.len() > MOST_TOKENS {
        return Ok(Expected::nothing(alloc));
    }
    what_fits(alloc, before)
}

/// Appends what was found behind these tokens, and what could have stood there.
pub fn push_syntax(
    alloc: Global,
    out: &mut String,
    found: &Token<'_>,
    before: &[Token<'_>],
) -> Result<(), OutOfMemory> {
    let expected = tried(alloc, before)?;
    push_found(out, found, &expected)?;
    let choices = choices(alloc, &expected)?;
    if choices.is_empty() {
        return Ok(());
    }
    push_text(out, "; ")?;
    push_choices(out, choices.as_slice(), " or ")?;
    push_text(out, " was expected")?;
    push_behind(out, found, before)?;
    if let Some(advice) = on_token(found, before, &expected) {
        push_parts(out, &[Part::Text("; "), Part::Text(advice)])?;
    }
    Ok(())
}
