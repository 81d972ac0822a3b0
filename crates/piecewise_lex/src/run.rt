//! A name or a number that goes on over many pieces.

ghost use Rattle.std.specs.Prelude.{◌≡◌, ◌+◌, ◌<◌, ◌++◌, ◌^◌, IfSome, IfOk, Some, length, false};
ghost use Rattle.std.specs.List.{list_all};
ghost use Rattle.std.specs.Str.{chars};
ghost use Rattle.cyc_lex.specs.Characters.{goes_on};
ghost use Rattle.piecewise_lex.specs.Runs.{Begins, IsKnown, IsRun, Lengthens};

use crate::bytes::joined;
use crate::valid::valid_front;
use cyc_lex::{OutOfMemory, Run, first, goes_on, is_space, starts_name};
use std::alloc::Global;

/// So many bytes, at the front of those that wait, are the characters of one name or number so far.
#[derive(Clone, Copy)]
pub struct KnownText {
    pub run: Run,
    pub len: usize,
}

/// Whether all characters of a text go on a run.
fn goes_all(run: Run, text: &str) -> bool
    ensures { result ≡ list_all (goes_on run) (chars text.now) }
{
    text.chars().all(|c| goes_on(run, c))
}

/// The run that a character begins whatever comes after it.
fn begun(c: char) -> Option<Run>
    ensures { IfSome result (λ run. Begins run c) }
{
    if is_space(c) || c == '#' {
        return None;
    }
    if starts_name(c) {
        return Some(Run::Name);
    }
    if c.is_ascii_digit() {
        return Some(Run::Number);
    }
    None
}

/// The run that a whole text is, where it is one.
pub fn known_run(text: &str) -> Option<KnownText>
    ensures { IfSome result (λ known. (known.len ≡ length text.now) × IsRun known.run (chars text.now)) }
{
    let (c, rest) = first(text)?;
    let run = begun(c)?;
    if !goes_all(run, rest) {
        return None;
    }
    Some(KnownText {
        run,
        len: text.len(),
    })
}

/// The run that the bytes which wait and a piece after them are, where those were one and the piece goes on it. It
/// looks at the piece alone.
pub fn lengthened(
    alloc: Global,
    known: KnownText,
    waiting: &[u8],
    piece: &[u8],
) -> Result<Option<KnownText>, OutOfMemory>
    requires known { IsKnown false waiting.now (Some known) }
    requires room { length waiting.now + length piece.now < 2 ^ 32 }
    ensures { IfOk result (Lengthens (waiting.now ++ piece.now)) }
{
    let (_, tail) = waiting.split_at(known.len);
    let bytes = joined(alloc, tail, piece)?;
    let valid = valid_front(&bytes);
    if !valid.cut || !goes_all(known.run, valid.text) {
        return Ok(None);
    }
    Ok(Some(KnownText {
        run: known.run,
        len: known.len + valid.text.len(),
    }))
}
