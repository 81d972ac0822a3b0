//! The first part of a step: the entries with their successors, and the new ones.

ghost use Rattle.std.specs.Prelude.{◌≡◌, ◌+◌, ◌≤◌, length, map};
ghost use Rattle.arrayvec.specs.ArrayVec.{array_vec_len};
ghost use Rattle.buchi_core.specs.Forest.{moved, children, progressing, scan_from, trimmed, before_drop};
ghost use Rattle.buchi_core.specs.Moves.{AreMoves};
ghost use Rattle.buchi_core.specs.View.{entries_of, members};
ghost use Rattle.buchi_core.specs.Young.{AreLeft, made};

use crate::age_forest::MOST_ENTRIES;
use crate::entry::Entry;
use crate::leads::{Leads, Moves};
use crate::masks::successors_of;
use crate::young::{Young, clear, push_entry};

/// Appends each entry with the successors of its set. The table says where the pairs lead.
fn push_moved(
    young: &mut Young,
    _pairs: &[(u8, u8, bool)],
    leads: &Leads,
    positions: u64,
    forest: &[Entry],
)
    requires leads { AreMoves _pairs.now leads.now }
    requires few { length forest.now ≤ MOST_ENTRIES }
    requires room { array_vec_len young.old.entries ≤ MOST_ENTRIES }
    requires left { AreLeft young.old }
    ensures long { array_vec_len young.new.entries ≡ array_vec_len young.old.entries + length forest.now }
    ensures left { AreLeft young.new }
    ensures moved { made young.new
        ≡ scan_from trimmed (made young.old) (map (moved _pairs.now (members positions)) (entries_of forest.now)) }
{
    for entry in forest {
        let set = successors_of(leads, positions, entry.set());
        push_entry(young, entry.parent, set);
    }
}

/// Appends a youngest child of each entry. The table says where the pairs that progress lead.
fn push_children(
    young: &mut Young,
    _pairs: &[(u8, u8, bool)],
    leads: &Leads,
    positions: u64,
    forest: &[Entry],
)
    requires leads { AreMoves (progressing _pairs.now) leads.now }
    requires few { length forest.now ≤ MOST_ENTRIES }
    requires room { array_vec_len young.old.entries ≤ MOST_ENTRIES }
    requires left { AreLeft young.old }
    ensures long { array_vec_len young.new.entries ≡ array_vec_len young.old.entries + length forest.now }
    ensures left { AreLeft young.new }
    ensures children { made young.new
        ≡ scan_from trimmed (made young.old) (children _pairs.now (members positions) 0 (entries_of forest.now)) }
{
    let mut number: u8 = 0;
    for entry in forest {
        let set = successors_of(leads, positions, entry.set());
        push_entry(young, Some(number), set);
        number += 1;
    }
}

/// Makes the entries of a step before any is dropped or lost, in place of those that were there. The table says where
/// the pairs lead.
pub(crate) fn grow(
    young: &mut Young,
    _pairs: &[(u8, u8, bool)],
    moves: &Moves,
    positions: u64,
    forest: &[Entry],
)
    requires all { AreMoves _pairs.now moves.now.all }
    requires progress { AreMoves (progressing _pairs.now) moves.now.progress }
    requires few { length forest.now ≤ MOST_ENTRIES }
    ensures left { AreLeft young.new }
    ensures grown { made young.new ≡ before_drop _pairs.now (members positions) (entries_of forest.now) }
{
    clear(young);
    push_moved(young, _pairs, &moves.all, positions, forest);
    push_children(young, _pairs, &moves.progress, positions, forest);
    push_entry(young, None, positions);
}
