//! Sets of positions: which atoms of a judgement a trace may follow. Trace graphs and the automaton that follows all
//! traces at once both stand on them.

ghost use Rattle.std.specs.Prelude.{ℕ, ◌≡◌, ◌<◌, ◌↔◌, true, IsTrue};
ghost use Rattle.std.specs.List.Sorted.{IsStrictlyIncreasing};
ghost use Rattle.cyc_basics.specs.Sets.{IsPositionSet, has};

use crate::limits::MOST_POSITIONS;

/// Whether the set has the position.
pub fn has_position(set: &[u8], position: u8) -> bool
    ensures { result ≡ has set.now position }
{
    for x in set {
        if *x == position {
            return true;
        }
    }
    false
}

/// Whether each position is below `MOST_POSITIONS`.
fn are_below(positions: &[u8]) -> bool
    ensures { IsTrue result ↔ ((q : ℕ) → has positions.now q ≡ true → q < MOST_POSITIONS) }
{
    for position in positions {
        if *position >= MOST_POSITIONS {
            return false;
        }
    }
    true
}

/// Whether each position is above the one before it.
fn are_rising(positions: &[u8]) -> bool
    ensures { IsTrue result ↔ IsStrictlyIncreasing positions.now }
{
    for place in 1..positions.len() {
        if positions[place - 1] >= positions[place] {
            return false;
        }
    }
    true
}

/// Whether the positions are a set: each above the one before it, and below `MOST_POSITIONS`.
pub fn is_position_set(positions: &[u8]) -> bool
    ensures { IsTrue result ↔ IsPositionSet positions.now }
{
    are_rising(positions) && are_below(positions)
}
