//! What follows the line of a fault: where it stands, what was found, and what would have been right.

ghost use Rattle.std.specs.Prelude.{IfOk};
ghost use Rattle.solve_top.specs.Lines.{EndsLine};

use crate::explanations::ill_formed::push_ill_formed;
use crate::explanations::lexical::{place_of, push_lexical};
use crate::explanations::limits::push_limit;
use crate::explanations::parts::push_text;
use crate::explanations::places::{Spot, push_source};
use crate::explanations::syntax::push_syntax;
use cyc_basics::memory::OutOfMemory;
use cyc_lex::{Kind, LexFault, ReadFault, Token, Tokens, tokens};
use std::alloc::Global;

/// The tokens of a text, if it has some.
fn tokens_of(alloc: Global, text: &[u8]) -> Result<Option<Tokens<'_>>, OutOfMemory> {
    if text.len() >= u32::MAX as usize {
        return Ok(None);
    }
    match tokens(alloc, text) {
        Ok(tokens) => Ok(Some(tokens)),
        Err(LexFault::OutOfMemory) => Err(OutOfMemory),
        Err(_) => Ok(None),
    }
}

/// The place of a token; of the end, that behind the last token.
fn spot_of(token: &Token<'_>, before: &[Token<'_>]) -> Spot {
    match (token.kind, before.last()) {
        (Kind::End, Some(last)) => Spot {
            line: last.line as usize,
            column: (last.column as usize).saturating_add(last.text.chars().count()),
        },
        _ => Spot {
            line: token.line as usize,
            column: token.column as usize,
        },
    }
}

/// Appends what helps with a fault at a token, which has these before it.
fn push_help(
    alloc: Global,
    out: &mut String,
    tokens: &[Token<'_>],
    number: usize,
    fault: ReadFault,
) -> Result<(), OutOfMemory> {
    let (before, rest) = tokens.split_at(number.min(tokens.len()));
    match (fault, rest.first()) {
        (ReadFault::Syntax { .. }, Some(found)) => push_syntax(alloc, out, found, before),
        (ReadFault::IllFormed { fault, .. }, Some(_)) => {
            push_ill_formed(alloc, out, tokens, number, fault)
        }
        (ReadFault::Limit { what, .. }, _) => push_limit(out, tokens, what),
        _ => push_text(out, "the text has no such token"),
    }
}

/// Appends the line in which a token stands, and what helps with a fault there.
fn push_at_token(
    alloc: Global,
    out: &mut String,
    text: &[u8],
    number: usize,
    fault: ReadFault,
) -> Result<(), OutOfMemory> {
    let Some(tokens) = tokens_of(alloc, text)? else {
        return push_text(out, "the text has no tokens");
    };
    let tokens = tokens.as_slice();
    let (before, rest) = tokens.split_at(number.min(tokens.len()));
    if let Some(token) = rest.first() {
        push_source(alloc, out, text, spot_of(token, before))?;
    }
    push_help(alloc, out, tokens, number, fault)
}

fn push_explanation(
    alloc: Global,
    out: &mut String,
    text: &[u8],
    fault: ReadFault,
) -> Result<(), OutOfMemory> {
    match fault {
        ReadFault::Lex(lexical) => {
            push_source(alloc, out, text, place_of(lexical))?;
            push_lexical(alloc, out, text, lexical)
        }
        ReadFault::Syntax { token, .. } => {
            push_at_token(alloc, out, text, token as usize, fault)
        }
        ReadFault::IllFormed { token, .. } => {
            push_at_token(alloc, out, text, token as usize, fault)
        }
        ReadFault::Limit { token, .. } => push_at_token(alloc, out, text, token as usize, fault),
        ReadFault::OutOfMemory => push_text(out, "memory ran out"),
    }
}

/// The lines that help with a fault of a problem file, to be printed below the line of the fault: the line of the input
/// in which it stands, shortened, a mark under its place, and what was found and what would have been right. What could
/// have stood in the place of a token is found by trying. Any input and any fault are explained somehow.
pub fn explained(alloc: Global, input: &[u8], fault: ReadFault) -> Result<Vec<u8>, OutOfMemory>
    ensures { IfOk result (λ bytes. EndsLine bytes.items) }
{
    let mut out = String::new(alloc);
    push_explanation(alloc, &mut out, input, fault)?;
    let mut bytes = out.into_bytes();
    bytes.push(b'\n')?;
    Ok(bytes)
}
