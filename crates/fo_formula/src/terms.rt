// Terms as words of signs, and lists of them.
ghost use Rattle.std.specs.Prelude.{◌≡◌};

use std::alloc::AllocError;
use std::marker::Model;

/// A sign of a term: a variable `$n`, to which a valuation gives a term; a local `?n` of a case; or a constructor, with
/// its number in the order of the constructors (from 0) and how many arguments it takes.
#[derive(Clone, Copy, PartialEq, Eq)]
pub enum Sign {
    Universal(u16),
    Local(u16),
    Constructor { number: u16, arguments: u8 },
}

/// A term in prefix notation (Łukasiewicz 1929): its signs, each before its arguments. A word that is no term, or
/// more than one, can be written too.
#[derive(Drop)]
pub struct Term {
    signs: Vec<Sign>,
}

impl Model for Term {
    ghost use Rattle.std.specs.Prelude.{List};
    ghost use Rattle.fo_formula.specs.declared.terms.Sign.{Sign};

    ghost Value = { List Sign };

    ghost view = { λ x. x.signs.items };
}

impl Clone for Term {
    ghost is_clone = { λ from copy. copy ≡ from };

    fn clone(&self) -> Result<Term, AllocError> {
        let signs = self.signs.clone()?;
        Ok(Term { signs })
    }
}

impl PartialEq for Term {
    ghost use Rattle.std.specs.Prelude.{◌≡◌, ◌↔◌, IsTrue};
    ghost use Rattle.fo_formula.specs.Equality.{word_eq, word_eq-laws};

    ghost eq = { word_eq };

    ghost laws = { word_eq-laws };

    fn eq(&self, other: &Term) -> bool
        ensures value { result ≡ word_eq self.now other.now }
        ensures exact { IsTrue result ↔ (self.now ≡ other.now) }
    {
        self.signs == other.signs
    }
}

impl Term {
    /// The term with these signs, in this order, without a copy.
    pub fn from_vec(signs: Vec<Sign>) -> Term
        ensures { result ≡ signs.items }
    {
        Term { signs }
    }

    /// The signs in order.
    pub fn as_slice(&self) -> &[Sign]
        ensures { result.now ≡ self.now }
    {
        &self.signs
    }
}

/// Terms, as the arguments of a predicate or the values of locals.
#[derive(Drop)]
pub struct Terms {
    terms: Vec<Term>,
}

impl Model for Terms {
    ghost use Rattle.std.specs.Prelude.{List};
    ghost use Rattle.fo_formula.specs.declared.terms.Sign.{Sign};

    ghost Value = { List (List Sign) };

    ghost view = { λ x. x.terms.items };
}

impl Clone for Terms {
    ghost is_clone = { λ from copy. copy ≡ from };

    fn clone(&self) -> Result<Terms, AllocError> {
        let terms = self.terms.clone()?;
        Ok(Terms { terms })
    }
}

impl PartialEq for Terms {
    ghost use Rattle.std.specs.Prelude.{◌≡◌, ◌↔◌, IsTrue};
    ghost use Rattle.std.specs.Cmp.Lexicographic.{pointwise, lists_per};
    ghost use Rattle.fo_formula.specs.Equality.{word_eq, word_eq-laws};

    ghost eq = { pointwise word_eq };

    ghost laws = { lists_per word_eq-laws };

    fn eq(&self, other: &Terms) -> bool
        ensures value { result ≡ pointwise word_eq self.now other.now }
        ensures exact { IsTrue result ↔ (self.now ≡ other.now) }
    {
        self.terms == other.terms
    }
}

impl Terms {
    /// These terms in this order, without a copy.
    pub fn from_vec(terms: Vec<Term>) -> Terms
        ensures { result ≡ terms.items }
    {
        Terms { terms }
    }

    /// The terms in order.
    pub fn as_slice(&self) -> &[Term]
        ensures { result.now ≡ self.now }
    {
        &self.terms
    }
}
