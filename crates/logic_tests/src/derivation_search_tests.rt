//! A search over words of two letters. The links are tried before the first letter alone.
ghost use Rattle.std.specs.Prelude.{ℕ, List, [], ◌∷◌, ◌≡◌, ◌&&◌, length, nat_eq, nat_le, nat_lt, if◌then◌else◌};

use cyc_basics::memory::OutOfMemory;
use derivations::search::{Moves, Offers, Stop, Tried, search_depth};
use std::alloc::Global;
use std::collections::VecDeque;
use std::test::Fail;

/// A letter of a word: by a rule, or by a link.
#[derive(Clone, Copy, PartialEq, Eq)]
enum Letter {
    A,
    B,
    Link,
}

/// A word that is made letter by letter, and is complete at two.
#[derive(Drop)]
struct Word {
    made: Vec<Letter>,
    // Whether a link is admitted.
    admits: bool,
    // A longer word has too many states.
    longest: usize,
}

impl Moves for Word {
    ghost use Rattle.logic_tests.specs.declared.derivation_search_tests.Letter.{Letter};
    ghost use Rattle.logic_tests.specs.declared.derivation_search_tests.Letter.TheVariants.{A, B, Link};

    type Reason = Letter;

    type Rules = VecDeque<Letter>;

    type Subject = (bool, usize);

    ghost made = { λ w. w.made.items };

    ghost subject = { λ w. (w.admits, w.longest) };

    ghost in_order = { λ w. Unit {0} };

    ghost follows = { λ w s.
        ((d : List Letter) → s.complete d ≡ nat_le 2 (length d))
        × ((d : List Letter) → s.candidates d ≡ (if nat_eq (length d) 0 then Link ∷ [] else []))
        × ((d : List Letter) → s.rules d ≡ A ∷ B ∷ [])
        × ((e : ℕ) (d : List Letter) (r : Letter) → s.fits e d r ≡ (nat_lt (length d) e && nat_lt (length d) 2))
        × ((d : List Letter) → s.admitted d ≡ w.admits)
        × ((d : List Letter) → s.above d ≡ nat_lt w.longest (length d)) };

    fn is_complete(&self) -> bool {
        self.made.len() >= 2
    }

    fn offers(&self, alloc: Global) -> Result<Offers<Letter>, OutOfMemory> {
        let mut links = VecDeque::new(alloc);
        if self.made.is_empty() {
            links.push_back(Letter::Link)?;
        }
        let mut rules = VecDeque::new(alloc);
        rules.push_back(Letter::A)?;
        rules.push_back(Letter::B)?;
        Ok(Offers { links, rules })
    }

    fn try_link(&mut self, _alloc: Global, _link: &Letter) -> Result<Tried, OutOfMemory> {
        if self.made.len() >= self.longest {
            return Ok(Tried::TooManyStates);
        }
        if self.admits {
            Ok(Tried::Admitted)
        } else {
            Ok(Tried::Refused)
        }
    }

    fn has_too_many_states(&mut self, _alloc: Global) -> Result<bool, OutOfMemory> {
        Ok(self.made.len() > self.longest)
    }

    fn follow(&mut self, _alloc: Global, bound: u32, reason: Letter) -> Result<bool, OutOfMemory> {
        if self.made.len() >= bound as usize || self.made.len() >= 2 {
            return Ok(false);
        }
        self.made.push(reason)?;
        Ok(true)
    }

    fn undo(&mut self, _alloc: Global) -> Result<(), OutOfMemory> {
        let _ = self.made.pop();
        Ok(())
    }
}

/// How the search at one depth ends, and the word that is left.
fn searched(
    alloc: Global,
    admits: bool,
    longest: usize,
    bound: u32,
    most: u32,
) -> Result<(Option<Stop>, Vec<Letter>), Fail> {
    if most == 0 {
        return Err("no derivation".into());
    }
    let mut word = Word {
        made: Vec::new(alloc),
        admits,
        longest,
    };
    let stop = search_depth(alloc, &mut word, bound, most)?;
    Ok((stop, word.made))
}

/// Whether the link is admitted, the longest word without too many states, the depth, the count at which the search
/// stops, how it ends, and the word that is left.
type Row = (bool, usize, u32, u32, Option<Stop>, &'static [Letter]);

const A: Letter = Letter::A;

const LINK: Letter = Letter::Link;

const FOUND: Option<Stop> = Some(Stop::Found);

const MANY: Option<Stop> = Some(Stop::TooManyDerivations);

const STATES: Option<Stop> = Some(Stop::TooManyStates);

// Where the link is refused, depth 1 counts the empty word, the link, a and b, and depth 2 the empty word, the link, a
// and aa, which is complete. Where it is admitted, no rule is followed at the empty word.
static ROWS: &[Row] = &[
    (false, 2, 0, 3, None, &[]),
    (false, 2, 1, 5, None, &[]),
    (false, 2, 1, 4, MANY, &[Letter::B]),
    (false, 2, 1, 3, MANY, &[A]),
    (false, 2, 1, 2, MANY, &[]),
    (false, 2, 1, 1, MANY, &[]),
    (false, 2, 2, 5, FOUND, &[A, A]),
    (false, 2, 2, 4, MANY, &[A, A]),
    (true, 2, 1, 3, None, &[]),
    (true, 2, 1, 2, MANY, &[LINK]),
    (true, 2, 2, 4, FOUND, &[LINK, A]),
    (true, 1, 2, 4, STATES, &[LINK, A]),
    (true, 0, 2, 4, STATES, &[]),
];

#[test]
fn searches(rt: HostRuntime) -> Result<(), Fail> {
    let alloc = rt.alloc();
    for (number, (admits, longest, bound, most, stop, left)) in ROWS.iter().enumerate() {
        let (told, word) = searched(alloc, *admits, *longest, *bound, *most)?;
        assert!(rt; told == *stop && word.as_slice() == *left, "row {number}");
    }
    Ok(())
}
