//! The last part of a step: entries that turn green, entries that go, and the event.

ghost use Rattle.std.specs.Prelude.{◌≡◌, ◌≤◌, length, slice_get};
ghost use Rattle.buchi_core.specs.Forest.{is_set, is_full, lost_below, losses, is_kept, rank, renumbered, settle};
ghost use Rattle.buchi_core.specs.Forest.{event_from};
ghost use Rattle.buchi_core.specs.View.{entries_of, forest_of};
ghost use Rattle.buchi_core.specs.Young.{AreLeft, made};

use crate::age_forest::{AgeForest, MOST_ENTRIES};
use crate::entry::Entry;
use crate::event::Event;
use crate::list::{append, clear};
use crate::young::{MOST_YOUNG, Young, left_at};
use arrayvec::ArrayVec;

/// Whether entry `place` isn't empty and is the union of its children.
fn is_full_at(young: &Young, place: u8) -> bool
    requires left { AreLeft young.now }
    ensures { result ≡ is_full (made young.now) place }
{
    match young.entries.get(place as usize) {
        None => false,
        Some(entry) => entry.set() != 0 && left_at(young, Some(place)) == 0,
    }
}

/// Whether the flag at a place is set.
fn is_set_at(flags: &[bool], place: u8) -> bool
    ensures { result ≡ is_set (slice_get flags.now place) }
{
    match flags.get(place as usize) {
        None => false,
        Some(flag) => *flag,
    }
}

/// Whether an entry with this parent has a full ancestor.
fn is_lost_below(young: &Young, done: &[bool], parent: Option<u8>) -> bool
    requires left { AreLeft young.now }
    ensures { result ≡ lost_below (made young.now) done.now parent }
{
    match parent {
        None => false,
        Some(p) => is_full_at(young, p) || is_set_at(done, p),
    }
}

/// Finds which entries have a full ancestor.
pub(crate) fn find_losses(done: &mut ArrayVec<bool, MOST_YOUNG>, young: &Young)
    requires left { AreLeft young.now }
    ensures { done.new.items ≡ losses (made young.now) }
{
    done.clear();
    for entry in young.entries.as_slice() {
        let lost = is_lost_below(young, done.as_slice(), entry.parent);
        done.push(lost);
    }
}

/// Whether entry `place` stays.
fn is_kept_at(entries: &[Entry], lost: &[bool], place: u8) -> bool
    requires lost { lost.now ≡ losses (entries_of entries.now) }
    ensures { result ≡ is_kept (entries_of entries.now) place }
{
    match entries.get(place as usize) {
        None => false,
        Some(entry) => entry.set() != 0 && !is_set_at(lost, place),
    }
}

/// How many entries below `place` stay.
fn rank_of(entries: &[Entry], lost: &[bool], place: u8) -> u8
    requires lost { lost.now ≡ losses (entries_of entries.now) }
    ensures { result ≡ rank (is_kept (entries_of entries.now)) place }
{
    let mut rank = 0;
    for i in 0..place {
        if is_kept_at(entries, lost, i) {
            rank += 1;
        }
    }
    rank
}

/// Where an entry's parent stands after the drop.
fn renumbered_of(entries: &[Entry], lost: &[bool], parent: Option<u8>) -> Option<u8>
    requires lost { lost.now ≡ losses (entries_of entries.now) }
    ensures { result ≡ renumbered (is_kept (entries_of entries.now)) parent }
{
    match parent {
        None => None,
        Some(p) => Some(rank_of(entries, lost, p)),
    }
}

/// Makes the forest of the entries but those that are empty or have a full ancestor.
pub(crate) fn settle_all(next: &mut AgeForest, entries: &[Entry], lost: &[bool])
    requires short { length entries.now ≤ MOST_YOUNG }
    requires few { length (settle (entries_of entries.now)) ≤ MOST_ENTRIES }
    requires lost { lost.now ≡ losses (entries_of entries.now) }
    ensures { forest_of next.new ≡ settle (entries_of entries.now) }
{
    clear(next);
    let mut place: u8 = 0;
    for entry in entries {
        if is_kept_at(entries, lost, place) {
            let parent = renumbered_of(entries, lost, entry.parent);
            let entry = Entry {
                parent,
                low: entry.low,
                high: entry.high,
            };
            append(next, entry);
        }
        place += 1;
    }
}

/// The event of the least of the first `count` places to which something happens.
pub(crate) fn event_at(young: &Young, lost: &[bool], count: u8) -> Event
    requires left { AreLeft young.now }
    requires lost { lost.now ≡ losses (made young.now) }
    ensures { result ≡ event_from (made young.now) 0 count }
{
    for place in 0..count {
        if !is_kept_at(young.entries.as_slice(), lost, place) {
            return Event::Dies(place);
        }
        if is_full_at(young, place) {
            return Event::Green(place);
        }
    }
    Event::Nothing
}
