//! Sets of positions as masks, and where pairs lead from them.

ghost use Rattle.std.specs.Prelude.{ℕ, ◌≡◌, ◌<◌, ◌&&◌, ◌||◌, List, nat_eq};
ghost use Rattle.buchi_core.specs.Forest.{IsPositionSet, Pair, leads, successors, progressing};
ghost use Rattle.buchi_core.specs.Moves.{AreMoves, leads_by};
ghost use Rattle.buchi_core.specs.View.{members};
ghost use Rattle.cyc_basics.specs.Bits.{is_one};

use crate::age_forest::MOST_ENTRIES;
use crate::leads::{Leads, Moves};
use cyc_basics::limits::MOST_POSITIONS;

/// The mask of one position, empty if it isn't below `MOST_POSITIONS`.
fn bit_of(position: u8) -> u64
    ensures { (q : ℕ) → q < MOST_POSITIONS → is_one result q ≡ nat_eq position q }
{
    if position < MOST_POSITIONS {
        1 << position
    } else {
        0
    }
}

/// The mask of a set of positions.
pub(crate) fn mask_of(positions: &[u8]) -> u64
    requires { IsPositionSet positions.now }
    ensures { members result ≡ positions.now }
{
    let mut mask = 0;
    for position in positions {
        mask |= bit_of(*position);
    }
    mask
}

/// The positions that pairs lead to from one position.
fn targets_at(table: &Leads, position: u8) -> u64
    requires { position < MOST_POSITIONS }
    ensures { (q : ℕ) → is_one result q ≡ leads_by table.now position q }
{
    if (table.sources >> position) & 1 == 1 {
        table.targets[position as usize]
    } else {
        0
    }
}

/// Adds that a pair leads from one position to another, if both are below `MOST_POSITIONS`.
fn add_lead(table: &mut Leads, old: u8, new: u8)
    ensures { (p q : ℕ) → p < MOST_POSITIONS → q < MOST_POSITIONS
        → leads_by table.new p q ≡ (leads_by table.old p q || (nat_eq p old && nat_eq new q)) }
{
    let place = old as usize;
    if place < MOST_ENTRIES {
        table.targets[place] = targets_at(table, old) | bit_of(new);
        table.sources |= bit_of(old);
    }
}

/// Makes the table of where these pairs lead, in place of what it was.
pub(crate) fn set_moves(moves: &mut Moves, pairs: &[(u8, u8, bool)])
    ensures all { AreMoves pairs.now moves.new.all }
    ensures progress { AreMoves (progressing pairs.now) moves.new.progress }
{
    moves.all.sources = 0;
    moves.progress.sources = 0;
    for pair in pairs {
        let (old, new, progress) = *pair;
        add_lead(&mut moves.all, old, new);
        if progress {
            add_lead(&mut moves.progress, old, new);
        }
    }
}

/// The positions that the pairs lead to from the set, one of its positions after another.
fn targets_of(table: &Leads, set: u64) -> u64
    ensures { (pairs : List Pair) → AreMoves pairs table.now → (q : ℕ) → q < MOST_POSITIONS
        → is_one result q ≡ leads pairs (members set) q }
{
    let mut targets = 0;
    let mut rest = set & table.sources;
    while rest != 0 {
        let position = rest.trailing_zeros();
        targets |= table.targets[position as usize];
        rest &= !(1 << position);
    }
    targets
}

/// The successors of a set among the positions of the new node.
pub(crate) fn successors_of(table: &Leads, positions: u64, set: u64) -> u64
    ensures { (pairs : List Pair) → AreMoves pairs table.now
        → members result ≡ successors pairs (members positions) (members set) }
{
    positions & targets_of(table, set)
}
