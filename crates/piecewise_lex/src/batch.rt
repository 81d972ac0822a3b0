//! What is taken of bytes, of which more may come.

ghost use Rattle.std.specs.Prelude.{◌≡◌, ◌++◌, ◌+◌, ◌<◌, ◌^◌, IfOk, IfSome, IsTrue, false, is_some, length};
ghost use Rattle.std.specs.Str.{chars};
ghost use Rattle.cyc_lex.specs.Lexing.{HasRoom};
ghost use Rattle.piecewise_lex.specs.Runs.{IsKnown, Lengthens};
ghost use Rattle.piecewise_lex.specs.Batches.{TakesText, Takings, TakesPiece, TakesAll, TakesRest};

use crate::bytes::joined;
use crate::fronts::{first_bad, take_front};
use crate::owned::{OwnedToken, own_all};
use crate::run::{KnownText, known_run, lengthened};
use crate::valid::valid_front;
use cyc_lex::{LexFault, OutOfMemory, Place, Stop, lex_from};
use std::alloc::Global;

/// What was taken of bytes: their tokens, the place after them, whether a comment goes on there, and the bytes that
/// wait. So many of these as are known to be one name or number need not be looked at again.
#[derive(Drop)]
pub struct Batch {
    pub tokens: Vec<OwnedToken>,
    pub place: Place,
    pub comment: bool,
    pub waiting: Vec<u8>,
    pub known: Option<KnownText>,
}

/// Takes a text, after which no whole character stands in the tail.
fn take_text(
    alloc: Global,
    place: Place,
    comment: bool,
    text: &str,
    tail: &[u8],
) -> Result<Batch, Stop>
    requires { HasRoom place (length text.now) }
    ensures { TakesText place comment text.now tail.now result }
{
    let front = take_front(alloc, place, comment, text)?;
    let known = if front.comment {
        None
    } else {
        known_run(front.waits)
    };
    let waiting = joined(alloc, front.waits.as_bytes(), tail)?;
    Ok(Batch {
        tokens: front.tokens,
        place: front.place,
        comment: front.comment,
        waiting,
        known,
    })
}

/// Takes bytes that stand at a place, where a comment goes on or none does.
fn take_bytes(alloc: Global, place: Place, comment: bool, bytes: &[u8]) -> Result<Batch, Stop>
    requires { HasRoom place (length bytes.now) }
    ensures { Takings place comment bytes.now result }
{
    let valid = valid_front(bytes);
    if !valid.cut {
        return Err(first_bad(place, comment, valid.text));
    }
    take_text(alloc, place, comment, valid.text, valid.tail)
}

/// The run of which the bytes that wait are the front, where the piece only goes on it.
fn still_run(
    alloc: Global,
    known: Option<KnownText>,
    waiting: &[u8],
    piece: &[u8],
) -> Result<Option<KnownText>, OutOfMemory>
    requires known { IsKnown false waiting.now known }
    requires room { length waiting.now + length piece.now < 2 ^ 32 }
    ensures longer { IfOk result (Lengthens (waiting.now ++ piece.now)) }
    ensures only { IfOk result (λ o. IfSome o (λ _. IsTrue (is_some known))) }
{
    match known {
        None => Ok(None),
        Some(known) => lengthened(alloc, known, waiting, piece),
    }
}

/// Takes the bytes that waited and a piece after them, which need not be looked at anew where they are one name or
/// number.
pub fn take_piece(
    alloc: Global,
    place: Place,
    comment: bool,
    known: Option<KnownText>,
    waiting: Vec<u8>,
    piece: &[u8],
) -> Result<Batch, LexFault>
    requires room { HasRoom place (length waiting.items + length piece.now) }
    requires known { IsKnown comment waiting.items known }
    ensures { TakesPiece place comment (waiting.items ++ piece.now) result }
{
    let mut waiting = waiting;
    let still = still_run(alloc, known, &waiting, piece)?;
    waiting.extend_from_slice(piece)?;
    match still {
        Some(known) => Ok(Batch {
            tokens: Vec::new(alloc),
            place,
            comment: false,
            waiting,
            known: Some(known),
        }),
        None => Ok(take_bytes(alloc, place, comment, &waiting)?),
    }
}

/// The tokens of a text that stands at a place, with copies of their texts.
fn take_all(
    alloc: Global,
    place: Place,
    comment: bool,
    whole: bool,
    text: &str,
) -> Result<Vec<OwnedToken>, LexFault>
    requires { HasRoom place (length text.now) }
    ensures { TakesAll place comment whole (chars text.now) result }
{
    let tokens = lex_from(alloc, place, comment, whole, text)?;
    Ok(own_all(alloc, &tokens)?)
}

/// The tokens of the bytes that wait where nothing more comes, with the end token last.
pub fn take_rest(
    alloc: Global,
    place: Place,
    comment: bool,
    waiting: &[u8],
) -> Result<Vec<OwnedToken>, LexFault>
    requires { HasRoom place (length waiting.now) }
    ensures { TakesRest place comment waiting.now result }
{
    let valid = valid_front(waiting);
    take_all(alloc, place, comment, valid.tail.is_empty(), valid.text)
}
