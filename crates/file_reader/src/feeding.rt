//! What a reader holds after a piece of the text.

ghost use Rattle.std.specs.Prelude.{◌≡◌, ◌+◌, ◌++◌, ◌-◌, ◌<◌, ◌≤◌, ◌^◌, [], length, false, map, IfOk, OnOk};
ghost use Rattle.std.specs.Str.{IsUtf8};
ghost use Rattle.cyc_lex.specs.Lexing.{HasRoom, start};
ghost use Rattle.cyc_lex.specs.Placed.{placed};
ghost use Rattle.piecewise_lex.specs.Taking.{reading};
ghost use Rattle.piecewise_lex.specs.Spans.{IsFront, front_tokens};
ghost use Rattle.file_reader.specs.Pieces.{IsLost, bytes_fed};
ghost use Rattle.file_reader.specs.Knowns.{IsSteady};
ghost use Rattle.file_reader.specs.Runs.{Runs};
ghost use Rattle.file_reader.specs.Helds.{parts_of, IsAfter, IsHeld, IsKept, IsOpenedTo, Opens, IsRunning, IsSmall};
ghost use Rattle.file_reader.specs.Helds.{IsStopped};
ghost use Rattle.file_reader.specs.declared.held.Held.TheVariants as kinds;

use crate::first_node::begin;
use crate::held::{Faulty, Held, Opening, Running};
use crate::known::{Found, KnownFront, known_heads};
use crate::nodes::{Ran, read_nodes};
use crate::passing::pass_tokens;
use crate::stretch::Stretch;
use cyc_grammar::Refusal;
use cyc_lex::{OutOfMemory, Place, Stop, Token, fault_at};
use piecewise_lex::{Span, Valid, first_bad, joined, take_statements, valid_front};
use std::alloc::Global;

/// So many bytes are taken at a time.
const MOST: usize = 65_536;

/// So many bytes wait at least before they are looked at again, so that few looks are in vain.
const LEAST: usize = 4_096;

/// How many bytes were fed.
pub fn bytes_fed(held: &Held) -> u32
    requires { bytes_fed (parts_of held.now) < 2 ^ 32 - 1 }
    ensures { result ≡ bytes_fed (parts_of held.now) }
{
    match held {
        Held::Opening(opening) => opening.all.len() as u32,
        Held::Running(running) => running.place.offset + running.waiting.len() as u32,
        Held::Faulty(faulty) => faulty.place.offset + faulty.waiting.len() as u32,
        Held::Unlexed(_, fed) => *fed,
        Held::Lost(fed) => *fed,
    }
}

/// What is held of a text that has a bad place, of which so many bytes were fed.
fn stopped(stop: Stop, fed: u32) -> Result<Held, OutOfMemory>
    ensures { IfOk result (IsStopped stop fed) }
{
    match stop {
        Stop::OutOfMemory => Err(OutOfMemory),
        Stop::At(bad, place) => Ok(Held::Unlexed(fault_at(bad, place), fed)),
    }
}

/// How many bytes are enough for the next look, where so many are left of this one.
fn enough_after(left: usize) -> usize
    requires { left < 2 ^ 32 }
{
    LEAST.max(left + left)
}

/// What is held once the first node came, or a syntax fault; none where neither did. So many tokens of the text were
/// taken.
fn opened_at<'a>(
    alloc: Global,
    valid: Valid<'a>,
    span: Span<'a>,
    kept: &[Token<'a>],
) -> Result<Option<Held>, OutOfMemory>
    requires utf8 { IsUtf8 valid.text.now }
    requires room { length valid.text.now + length valid.tail.now < 2 ^ 32 - 1 }
    requires taken { IsFront (reading start false valid.text.now) span }
    requires kept { length kept.now ≡ span.tokens
        → map placed kept.now ≡ front_tokens span.tokens (reading start false valid.text.now) }
    ensures { IfOk result (IsOpenedTo (valid.entry.text.now ++ valid.entry.tail.now)) }
{
    let stretch = Stretch {
        before: 0,
        place: Place::START,
        comment: false,
        text: valid.text,
        count: span.tokens,
    };
    let mut cursor = stretch.cursor_over(kept);
    match begin(alloc, stretch, &mut cursor) {
        Ok(beginning) => {
            if cursor.left() > 0 {
                return Ok(None);
            }
            Ok(Some(Held::Running(Running {
                known: beginning.known,
                found: beginning.found,
                place: span.place,
                comment: span.comment,
                waiting: joined(alloc, span.rest.as_bytes(), valid.tail)?,
                enough: 0,
            })))
        }
        Err(Refusal::Dead(left)) => {
            if left == 0 {
                return Ok(None);
            }
            Ok(Some(Held::Faulty(Faulty {
                fault: stretch.dead(left),
                place: span.place,
                comment: span.comment,
                waiting: joined(alloc, span.rest.as_bytes(), valid.tail)?,
                enough: 0,
            })))
        }
        Err(Refusal::OutOfMemory) => Err(OutOfMemory),
    }
}

/// What is held once the first node came, or a syntax fault; none where neither did.
fn opened(alloc: Global, valid: Valid<'_>) -> Result<Option<Held>, Stop>
    requires utf8 { IsUtf8 valid.text.now }
    requires room { length valid.text.now + length valid.tail.now < 2 ^ 32 - 1 }
    ensures { Opens valid.entry.text.now valid.entry.tail.now result }
{
    let mut kept = Vec::new(alloc);
    let span = take_statements(&mut kept, "node", Place::START, false, valid.text)?;
    Ok(opened_at(alloc, valid, span, &kept)?)
}

/// Reads a text up to its first node, and that too.
fn open(alloc: Global, opening: Opening) -> Result<Held, OutOfMemory>
    requires { length opening.all.items < 2 ^ 32 - 1 }
    ensures { IfOk result (IsKept (parts_of (kinds.Opening opening)) []) }
{
    let fed = opening.all.len() as u32;
    let valid = valid_front(&opening.all);
    if !valid.cut {
        return stopped(first_bad(Place::START, false, valid.text), fed);
    }
    match opened(alloc, valid) {
        Ok(Some(held)) => Ok(held),
        Ok(None) => Ok(Held::Opening(Opening {
            enough: enough_after(opening.all.len()),
            all: opening.all,
        })),
        Err(stop) => stopped(stop, fed),
    }
}

/// Reads the statements at the front of a text from the first node on.
fn read_text<'a>(
    alloc: Global,
    known: &KnownFront,
    place: Place,
    comment: bool,
    text: &'a str,
    found: &mut Found,
) -> Result<Ran<'a>, Stop>
    requires room { HasRoom place (length text.now) }
    requires steady { IsSteady known.now found.old }
    requires few { found.old.tokens ≤ place.offset }
    ensures { Runs place comment text.now known.now found.old found.new result }
{
    let heads = known_heads(alloc, known)?;
    read_nodes(alloc, known, &heads, place, comment, text, found)
}

/// What is held after statements were read, where these bytes wait.
fn after_nodes(known: KnownFront, found: Found, ran: Ran<'_>, waiting: Vec<u8>) -> Held
    requires { length waiting.items < 2 ^ 32 }
    ensures { IsAfter known found ran.entry waiting.items result }
{
    match ran.dead {
        Some(fault) => Held::Faulty(Faulty {
            fault,
            place: ran.place,
            comment: ran.comment,
            waiting,
            enough: 0,
        }),
        None => Held::Running(Running {
            known,
            found,
            place: ran.place,
            comment: ran.comment,
            enough: enough_after(waiting.len()),
            waiting,
        }),
    }
}

/// Reads the statements among the bytes that wait.
fn look(alloc: Global, running: Running) -> Result<Held, OutOfMemory>
    requires running { IsRunning running }
    requires room { running.place.offset + length running.waiting.items < 2 ^ 32 - 1 }
    ensures { IfOk result (IsKept (parts_of (kinds.Running running)) []) }
{
    let Running {
        known,
        found,
        place,
        comment,
        waiting,
        enough: _,
    } = running;
    let mut found = found;
    let fed = place.offset + waiting.len() as u32;
    let valid = valid_front(&waiting);
    if !valid.cut {
        return stopped(first_bad(place, comment, valid.text), fed);
    }
    match read_text(alloc, &known, place, comment, valid.text, &mut found) {
        Ok(ran) => {
            let rest = joined(alloc, ran.rest.as_bytes(), valid.tail)?;
            Ok(after_nodes(known, found, ran, rest))
        }
        Err(stop) => stopped(stop, fed),
    }
}

fn feed_opening(alloc: Global, opening: Opening, piece: &[u8]) -> Result<Held, OutOfMemory>
    requires { length opening.all.items + length piece.now < 2 ^ 32 - 1 }
    ensures { IfOk result (IsKept (parts_of (kinds.Opening opening)) piece.now) }
{
    let mut opening = opening;
    opening.all.extend_from_slice(piece)?;
    if opening.all.len() < opening.enough {
        return Ok(Held::Opening(opening));
    }
    match open(alloc, opening)? {
        Held::Running(running) => look(alloc, running),
        held => Ok(held),
    }
}

fn feed_running(alloc: Global, running: Running, piece: &[u8]) -> Result<Held, OutOfMemory>
    requires running { IsRunning running }
    requires room { running.place.offset + (length running.waiting.items + length piece.now) < 2 ^ 32 - 1 }
    ensures { IfOk result (IsKept (parts_of (kinds.Running running)) piece.now) }
{
    let mut running = running;
    running.waiting.extend_from_slice(piece)?;
    if running.waiting.len() < running.enough {
        return Ok(Held::Running(running));
    }
    look(alloc, running)
}

/// Passes over the tokens of the bytes that wait.
fn pass(alloc: Global, faulty: Faulty) -> Result<Held, OutOfMemory>
    requires small { IsSmall faulty.place }
    requires room { faulty.place.offset + length faulty.waiting.items < 2 ^ 32 - 1 }
    ensures { IfOk result (IsKept (parts_of (kinds.Faulty faulty)) []) }
{
    let Faulty {
        fault,
        place,
        comment,
        waiting,
        enough: _,
    } = faulty;
    let fed = place.offset + waiting.len() as u32;
    let valid = valid_front(&waiting);
    if !valid.cut {
        return stopped(first_bad(place, comment, valid.text), fed);
    }
    match pass_tokens(place, comment, valid.text) {
        Ok(passed) => {
            let rest = joined(alloc, passed.rest.as_bytes(), valid.tail)?;
            Ok(Held::Faulty(Faulty {
                fault,
                place: passed.place,
                comment: passed.comment,
                enough: rest.len() + rest.len(),
                waiting: rest,
            }))
        }
        Err(stop) => stopped(stop, fed),
    }
}

fn feed_faulty(alloc: Global, faulty: Faulty, piece: &[u8]) -> Result<Held, OutOfMemory>
    requires small { IsSmall faulty.place }
    requires room { faulty.place.offset + (length faulty.waiting.items + length piece.now) < 2 ^ 32 - 1 }
    ensures { IfOk result (IsKept (parts_of (kinds.Faulty faulty)) piece.now) }
{
    let mut faulty = faulty;
    faulty.waiting.extend_from_slice(piece)?;
    if faulty.waiting.len() < faulty.enough {
        return Ok(Held::Faulty(faulty));
    }
    pass(alloc, faulty)
}

/// What is held after some bytes.
fn feed_part(alloc: Global, held: Held, piece: &[u8]) -> Result<Held, OutOfMemory>
    requires held { IsHeld held }
    requires room { bytes_fed (parts_of held) + length piece.now < 2 ^ 32 - 1 }
    ensures kept { IfOk result (IsKept (parts_of held) piece.now) }
    ensures lost { OnOk result (IsLost (parts_of held) → ⊥) }
{
    match held {
        Held::Opening(opening) => feed_opening(alloc, opening, piece),
        Held::Running(running) => feed_running(alloc, running, piece),
        Held::Faulty(faulty) => feed_faulty(alloc, faulty, piece),
        Held::Unlexed(fault, fed) => Ok(Held::Unlexed(fault, fed + piece.len() as u32)),
        Held::Lost(_) => Err(OutOfMemory),
    }
}

/// What is held after the piece, of which so many bytes are taken at a time that few tokens are held at once.
pub fn feed(alloc: Global, held: Held, piece: &[u8]) -> Result<Held, OutOfMemory>
    requires held { IsHeld held }
    requires room { bytes_fed (parts_of held) + length piece.now < 2 ^ 32 - 1 }
    ensures kept { IfOk result (IsKept (parts_of held) piece.now) }
    ensures lost { OnOk result (IsLost (parts_of held) → ⊥) }
{
    let mut held = held;
    let mut rest = piece;
    'parts: while rest.len() > MOST {
        let (now, later) = rest.split_at(MOST);
        held = feed_part(alloc, held, now)?;
        rest = later;
    }
    feed_part(alloc, held, rest)
}
