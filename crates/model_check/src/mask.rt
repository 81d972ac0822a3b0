// Parts of the heap as sets of bits: a cell's bit is its place among the addresses.
ghost use Rattle.std.specs.Prelude.{◌≡◌, ◌↔◌, ◌^◌, IsTrue, IfOk, slice_index, length, max, replicate, ◌++◌, ◌∷◌, []};
ghost use Rattle.std.specs.Prelude.{◌/◌, ◌%◌};
ghost use Rattle.std.specs.Int.Bits.{bit_and, bit_or};
ghost use Rattle.model_check.specs.WideMasks.{number, AreApart, or_words};

use cyc_basics::memory::OutOfMemory;
use std::alloc::{AllocError, Global};
use std::hash::{Hash, Hasher};
use std::marker::Model;

/// A set of places, as wide as the heap needs: word k has the bits of the places from 64 k on. The last word is not 0.
#[derive(Drop)]
pub struct Mask {
    words: Vec<u64>,
}

impl Model for Mask {
    ghost use Rattle.std.specs.Prelude.{List, ℕ};
    ghost use Rattle.model_check.specs.WideMasks.{IsNormal};

    ghost Value = { List ℕ };

    ghost view = { λ m. m.words.items };

    ghost invariant = { λ m. IsNormal m.words.items };
}

impl Clone for Mask {
    ghost is_clone = { λ mask copy. copy ≡ mask };

    fn clone(&self) -> Result<Mask, AllocError> {
        let words = self.words.clone()?;
        Ok(Mask { words })
    }
}

impl PartialEq for Mask {
    ghost use Rattle.std.specs.Prelude.{◌≡◌, ◌↔◌, IsTrue, nat_eq};
    ghost use Rattle.std.specs.Cmp.Lexicographic.{pointwise};
    ghost use Rattle.model_check.specs.Questions.{lists_per};
    ghost use Rattle.model_check.specs.WideMasks.{number};

    ghost eq = { pointwise nat_eq };

    ghost laws = { lists_per };

    fn eq(&self, other: &Mask) -> bool
        ensures value { result ≡ pointwise nat_eq self.now other.now }
        ensures exact { IsTrue result ↔ (number self.now ≡ number other.now) }
    {
        self.words == other.words
    }
}

impl Eq for Mask {
    ghost use Rattle.model_check.specs.Questions.{lists_equiv};

    ghost laws = { lists_equiv };
}

impl Hash for Mask {
    ghost use Rattle.model_check.specs.Questions.{lists_alike, list_writes};

    ghost hash_input = { list_writes };

    ghost respects_eq = { lists_alike };

    fn hash<H: Hasher>(&self, state: &mut H) {
        self.words.hash(state);
    }
}

fn word_at(words: &[u64], i: usize) -> u64
    ensures { result ≡ slice_index words.now i }
{
    if i < words.len() { words[i] } else { 0 }
}

fn are_apart(words: &[u64], others: &[u64]) -> bool
    ensures { IsTrue result ↔ AreApart words.now others.now }
{
    for (i, word) in words.iter().enumerate() {
        if *word & word_at(others, i) != 0 {
            return false;
        }
    }
    true
}

fn united(alloc: Global, words: &[u64], others: &[u64]) -> Result<Vec<u64>, OutOfMemory>
    ensures { IfOk result (λ v. v.items ≡ or_words (max (length words.now) (length others.now)) words.now others.now) }
{
    let width = words.len().max(others.len());
    let mut out = Vec::new(alloc);
    for i in 0..width {
        out.push(word_at(words, i) | word_at(others, i))?;
    }
    Ok(out)
}

fn one_word(alloc: Global, place: usize) -> Result<Vec<u64>, OutOfMemory>
    ensures { IfOk result (λ v. v.items ≡ replicate (place / 64) 0 ++ 2 ^ (place % 64) ∷ []) }
{
    let mut words = Vec::new(alloc);
    for _word in 0..place / 64 {
        words.push(0)?;
    }
    words.push(1 << (place % 64))?;
    Ok(words)
}

impl Mask {
    /// No places.
    pub fn empty(alloc: Global) -> Mask
        ensures { number result ≡ 0 }
    {
        Mask {
            words: Vec::new(alloc),
        }
    }

    /// One place.
    pub fn one(alloc: Global, place: usize) -> Result<Mask, OutOfMemory>
        ensures { IfOk result (λ m. number m ≡ 2 ^ place) }
    {
        let words = one_word(alloc, place)?;
        Ok(Mask { words })
    }

    /// Whether the two have no place in common.
    pub fn is_apart(&self, other: &Mask) -> bool
        ensures { IsTrue result ↔ (bit_and (number self.now) (number other.now) ≡ 0) }
    {
        are_apart(&self.words, &other.words)
    }

    /// The places of both.
    pub fn union(&self, alloc: Global, other: &Mask) -> Result<Mask, OutOfMemory>
        ensures { IfOk result (λ m. number m ≡ bit_or (number self.now) (number other.now)) }
    {
        let words = united(alloc, &self.words, &other.words)?;
        Ok(Mask { words })
    }
}
