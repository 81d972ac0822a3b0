//! What a text comes to at its end.

ghost use Rattle.std.specs.Prelude.{◌≡◌, ◌+◌, ◌-◌, ◌<◌, ◌≤◌, ◌^◌, [], length, Err};
ghost use Rattle.file_reader.specs.Stages.{outcome};
ghost use Rattle.file_reader.specs.Pieces.{Tells, bytes_fed};
ghost use Rattle.file_reader.specs.Lasts.{LastStretches};
ghost use Rattle.file_reader.specs.Helds.{parts_of, IsHeld, IsRunning, IsSmall, IsToldStop};
ghost use Rattle.file_reader.specs.declared.held.Held.TheVariants as kinds;

use crate::first_node::begin;
use crate::held::{Faulty, Held, Opening, Running};
use crate::last::read_last;
use crate::passing::pass_tokens;
use crate::stretch::Stretch;
use cyc_grammar::Refusal;
use cyc_lex::{Place, ReadFault, Stop, count_tokens, fault_at};
use piecewise_lex::{first_bad, valid_front};
use proof_file::ProofFile;
use std::alloc::Global;

fn told_stop(stop: Stop) -> ReadFault
    ensures { IsToldStop stop result }
{
    match stop {
        Stop::OutOfMemory => ReadFault::OutOfMemory,
        Stop::At(bad, place) => ReadFault::Lex(fault_at(bad, place)),
    }
}

/// The fault of a text with a syntax fault: this, or a lexical one among what waits.
fn finish_faulty(faulty: &Faulty) -> ReadFault
    requires small { IsSmall faulty.now.place }
    requires room { faulty.now.place.offset + length faulty.now.waiting.items < 2 ^ 32 - 1 }
    ensures { Tells (outcome (parts_of (kinds.Faulty faulty.now)) []) (Err result) }
{
    let valid = valid_front(&faulty.waiting);
    if !valid.tail.is_empty() {
        return told_stop(first_bad(faulty.place, faulty.comment, valid.text));
    }
    match pass_tokens(faulty.place, faulty.comment, valid.text) {
        Ok(passed) => match count_tokens(passed.place, passed.comment, passed.rest) {
            Ok(_) => faulty.fault,
            Err(stop) => told_stop(stop),
        },
        Err(stop) => told_stop(stop),
    }
}

/// All tokens of bytes that stand at a place, where a comment goes on or none does, and before which so many others
/// stand; or their first fault.
fn last_tokens(
    before: u32,
    place: Place,
    comment: bool,
    bytes: &[u8],
) -> Result<Stretch<'_>, ReadFault>
    requires small { IsSmall place }
    requires few { before ≤ place.offset }
    requires room { place.offset + length bytes.now < 2 ^ 32 - 1 }
    ensures { LastStretches place comment bytes.now before result }
{
    let valid = valid_front(bytes);
    if !valid.tail.is_empty() {
        return Err(told_stop(first_bad(place, comment, valid.text)));
    }
    match count_tokens(place, comment, valid.text) {
        Ok(count) => Ok(Stretch {
            before,
            place,
            comment,
            text: valid.text,
            count,
        }),
        Err(stop) => Err(told_stop(stop)),
    }
}

/// What a text says of which no node was taken, or its first fault.
fn finish_opening(alloc: Global, opening: &Opening) -> Result<ProofFile, ReadFault>
    requires { length opening.now.all.items < 2 ^ 32 - 1 }
    ensures { Tells (outcome (parts_of (kinds.Opening opening.now)) []) result }
{
    let stretch = last_tokens(0, Place::START, false, &opening.all)?;
    let mut cursor = stretch.cursor();
    match begin(alloc, stretch, &mut cursor) {
        Ok(beginning) => read_last(
            alloc,
            beginning.known,
            beginning.found,
            stretch,
            &mut cursor,
        ),
        Err(Refusal::Dead(left)) => Err(stretch.dead(left)),
        Err(Refusal::OutOfMemory) => Err(ReadFault::OutOfMemory),
    }
}

/// What a text says from the first node on.
fn finish_running(alloc: Global, running: Running) -> Result<ProofFile, ReadFault>
    requires running { IsRunning running }
    requires room { running.place.offset + length running.waiting.items < 2 ^ 32 - 1 }
    ensures { Tells (outcome (parts_of (kinds.Running running)) []) result }
{
    let Running {
        known,
        found,
        place,
        comment,
        waiting,
        enough: _,
    } = running;
    let stretch = last_tokens(found.tokens, place, comment, &waiting)?;
    let mut cursor = stretch.cursor();
    read_last(alloc, known, found, stretch, &mut cursor)
}

/// What the text comes to where nothing more is fed.
pub fn finish(alloc: Global, held: Held) -> Result<ProofFile, ReadFault>
    requires held { IsHeld held }
    requires room { bytes_fed (parts_of held) < 2 ^ 32 - 1 }
    ensures { Tells (outcome (parts_of held) []) result }
{
    match held {
        Held::Opening(opening) => finish_opening(alloc, &opening),
        Held::Running(running) => finish_running(alloc, running),
        Held::Faulty(faulty) => Err(finish_faulty(&faulty)),
        Held::Unlexed(fault, _) => Err(ReadFault::Lex(fault)),
        Held::Lost(_) => Err(ReadFault::OutOfMemory),
    }
}
