//! Forms of terms: what tells the heaps of one format from those of another.

ghost use Rattle.std.specs.Prelude.{◌≡◌, ◌+◌, ◌<◌, ◌^◌, ℕ};
ghost use Rattle.heap_formula.specs.declared.terms.Term.{Term as TermValue};
ghost use Rattle.heap_reader.specs.Flaws.{Found, IsWalk};
ghost use Rattle.heap_reader.specs.Small.{IsSmallTerm};

use crate::flaw::Flaw;
use heap_formula::Term;

/// The terms of a format as they are read: how many tokens they take, what is wrong with them, and what they say.
pub trait TermReader {
    /// A term, which holds nothing borrowed.
    type Term: Copy + Drop;

    /// The tokens of a term and the one after it.
    ghost span: { Self.Term → ℕ };

    /// The first flaw of a term that begins at a token.
    ghost flaw: { Self → ℕ → Self.Term → Found };

    /// What a term says.
    ghost value: { Self.Term → TermValue };

    /// Goes over a term that begins at a token, and gives the token after it and the one that follows it.
    fn walk(&self, at: usize, term: Self::Term) -> Result<usize, Flaw>
        requires { at + span term < 2 ^ 64 }
        ensures { IsWalk result (flaw self.now at term) (at + span term) };

    /// What a term says.
    fn value(&self, term: Self::Term) -> Term
        requires { IsSmallTerm (value term) }
        ensures { result ≡ value term };
}
