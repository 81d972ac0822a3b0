//! Where a problem begins behind a proof.
ghost use Rattle.std.specs.Prelude.{◌≡◌, ◌<◌, ◌-◌, ◌^◌, ◌++◌, IfOk, IfSome, length, map, option_map};
ghost use Rattle.cyc_lex.specs.Placed.{placed};
ghost use Rattle.draw_top.specs.Parts.{begins_problem, behind as behind_byte, cut_at, is_at as stands_at};
ghost use Rattle.draw_top.specs.Parts.{is_named as named, is_tail as goes_on, offset_of as offset_in, parts_in};
ghost use Rattle.draw_top.specs.Parts.{parts_seen, problem_start, start_behind as behind_token};

use cyc_basics::memory::OutOfMemory;
use cyc_lex::{Kind, LexFault, Token, tokens};
use std::alloc::Global;

/// A place in a text: its line and its column, counted from 1, the column in characters.
#[derive(Clone, Copy)]
pub struct Start {
    pub line: u32,
    pub column: u32,
}

fn is_named(token: &Token<'_>, text: &str) -> bool
    ensures { result ≡ named (placed token.now) text.now }
{
    match token.kind {
        Kind::Name => token.text == text,
        _ => false,
    }
}

/// Whether a problem begins with these tokens.
fn is_problem(tokens: &[Token<'_>]) -> bool
    ensures { result ≡ begins_problem (map placed tokens.now) }
{
    match tokens {
        [first, second, ..] => is_named(first, "cyclist") && is_named(second, "problem"),
        _ => false,
    }
}

/// Where the problem begins, if `first` is its first token: with the line after that of the token before it, or where
/// `first` stands, if both are on one line.
fn start_behind(before: &Token<'_>, first: &Token<'_>) -> Start
    ensures { result ≡ behind_token (placed before.now) (placed first.now) }
{
    if before.line < first.line {
        Start {
            line: before.line + 1,
            column: 1,
        }
    } else {
        Start {
            line: first.line,
            column: first.column,
        }
    }
}

/// Where the first problem begins behind another token.
fn start_of(tokens: &[Token<'_>]) -> Option<Start>
    ensures { result ≡ problem_start (map placed tokens.now) }
{
    let [before, others @ ..] = tokens else {
        return None;
    };
    let mut before = *before;
    for (place, token) in others.iter().enumerate() {
        if is_problem(&others[place..]) {
            return Some(start_behind(&before, token));
        }
        before = *token;
    }
    None
}

/// A place in a text that is gone through byte by byte.
#[derive(Clone, Copy)]
pub struct Here {
    pub line: usize,
    pub column: usize,
}

/// Whether the byte goes on a character.
fn is_tail(byte: u8) -> bool
    ensures { result ≡ goes_on byte }
{
    byte >= 0x80 && byte < 0xC0
}

/// Whether a byte that stands here begins the character at this place.
fn is_at(start: Start, here: Here, byte: u8) -> bool
    ensures { result ≡ stands_at start here byte }
{
    !is_tail(byte) && here.line == start.line as usize && here.column == start.column as usize
}

/// The place after a byte that stands here.
fn behind(here: Here, byte: u8) -> Here
    requires line { here.line < 2 ^ 63 }
    requires column { here.column < 2 ^ 63 }
    ensures { result ≡ behind_byte here byte }
{
    if is_tail(byte) {
        return here;
    }
    if byte == b'\n' {
        Here {
            line: here.line + 1,
            column: 1,
        }
    } else {
        Here {
            line: here.line,
            column: here.column + 1,
        }
    }
}

/// The number of the bytes before a place; all of them, if the text has no such place.
fn offset_of(start: Start, bytes: &[u8]) -> usize
    ensures { result ≡ offset_in start bytes.now }
{
    let mut here = Here { line: 1, column: 1 };
    for (offset, byte) in bytes.iter().enumerate() {
        if is_at(start, here, *byte) {
            return offset;
        }
        here = behind(here, *byte);
    }
    bytes.len()
}

fn cut(start: Start, bytes: &[u8]) -> (&[u8], &[u8])
    ensures parts { (result.0.now, result.1.now) ≡ cut_at start bytes.now }
    ensures whole { result.0.now ++ result.1.now ≡ bytes.now }
{
    bytes.split_at(offset_of(start, bytes))
}

/// A proof and the problem behind it, where a text has both: where the words `cyclist problem` stand behind another
/// token, the first ones that do. The problem begins with the line after that of the token before them, or at its first
/// word where that is on the same line. A text that has no tokens, since a byte is wrong, has no problem.
pub fn parts_of(alloc: Global, text: &[u8]) -> Result<Option<(&[u8], &[u8])>, OutOfMemory>
    requires { length text.now < 2 ^ 32 - 1 }
    ensures parts { IfOk result (λ o. option_map parts_seen o ≡ parts_in text.now) }
    ensures whole { IfOk result (λ o. IfSome o (λ p. p.0.now ++ p.1.now ≡ text.now)) }
{
    match tokens(alloc, text) {
        Ok(tokens) => match start_of(tokens.as_slice()) {
            Some(start) => Ok(Some(cut(start, text))),
            None => Ok(None),
        },
        Err(LexFault::OutOfMemory) => Err(OutOfMemory),
        Err(LexFault::BadByte { .. }) => Ok(None),
        Err(LexFault::BadUtf8 { .. }) => Ok(None),
        Err(LexFault::LongNumber { .. }) => Ok(None),
        Err(LexFault::LongName { .. }) => Ok(None),
    }
}
