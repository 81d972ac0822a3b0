// Regular expressions.
ghost use Rattle.std.specs.Prelude.{◌≡◌, IfOk};
ghost use Rattle.word_inclusions.specs.Expressions as expressions;
ghost use Rattle.word_inclusions.specs.Expressions.{expression_of, same, nullable, is_star, is_star_at};

use cyc_basics::memory::OutOfMemory;
use std::alloc::Global;

/// A regular expression (Kleene 1956): no word, the empty word, a letter, a choice, one after the other, repetition.
#[derive(Drop)]
pub enum Regex {
    Zero,
    One,
    Letter(u8),
    Sum(Box<Regex>, Box<Regex>),
    Product(Box<Regex>, Box<Regex>),
    Star(Box<Regex>),
}

impl Regex {
    /// The choice between two expressions.
    pub fn sum(alloc: Global, e: Regex, f: Regex) -> Result<Regex, OutOfMemory>
        ensures { IfOk result (λ x. expression_of x ≡ expressions.Sum (expression_of e) (expression_of f)) }
    {
        Ok(Regex::Sum(Box::new(alloc, e)?, Box::new(alloc, f)?))
    }

    /// One expression after the other.
    pub fn product(alloc: Global, e: Regex, f: Regex) -> Result<Regex, OutOfMemory>
        ensures { IfOk result (λ x. expression_of x ≡ expressions.Product (expression_of e) (expression_of f)) }
    {
        Ok(Regex::Product(Box::new(alloc, e)?, Box::new(alloc, f)?))
    }

    /// The repetition of an expression.
    pub fn star(alloc: Global, e: Regex) -> Result<Regex, OutOfMemory>
        ensures { IfOk result (λ x. expression_of x ≡ expressions.Star (expression_of e)) }
    {
        Ok(Regex::Star(Box::new(alloc, e)?))
    }

    /// The same expression once more.
    pub fn copy(&self, alloc: Global) -> Result<Regex, OutOfMemory>
        ensures { IfOk result (λ x. expression_of x ≡ expression_of self.now) }
    {
        match self {
            Regex::Zero => Ok(Regex::Zero),
            Regex::One => Ok(Regex::One),
            Regex::Letter(a) => Ok(Regex::Letter(*a)),
            Regex::Sum(e, f) => Regex::sum(alloc, e.copy(alloc)?, f.copy(alloc)?),
            Regex::Product(e, f) => Regex::product(alloc, e.copy(alloc)?, f.copy(alloc)?),
            Regex::Star(e) => Regex::star(alloc, e.copy(alloc)?),
        }
    }

    /// Whether two expressions are one as they stand.
    pub fn is_same(&self, other: &Regex) -> bool
        ensures { result ≡ same (expression_of self.now) (expression_of other.now) }
    {
        match (self, other) {
            (Regex::Zero, Regex::Zero) => true,
            (Regex::One, Regex::One) => true,
            (Regex::Letter(a), Regex::Letter(b)) => *a == *b,
            (Regex::Sum(e, f), Regex::Sum(g, h)) => e.is_same(g) && f.is_same(h),
            (Regex::Product(e, f), Regex::Product(g, h)) => e.is_same(g) && f.is_same(h),
            (Regex::Star(e), Regex::Star(g)) => e.is_same(g),
            _ => false,
        }
    }

    /// Whether the empty word is one of its words.
    pub fn is_nullable(&self) -> bool
        ensures { result ≡ nullable (expression_of self.now) }
    {
        match self {
            Regex::Zero | Regex::Letter(_) => false,
            Regex::One | Regex::Star(_) => true,
            Regex::Sum(e, f) => e.is_nullable() || f.is_nullable(),
            Regex::Product(e, f) => e.is_nullable() && f.is_nullable(),
        }
    }
    /// Whether it is a repetition.
    fn is_star(&self) -> bool
        ensures { result ≡ is_star (expression_of self.now) }
    {
        match self {
            Regex::Star(_) => true,
            _ => false,
        }
    }

    /// Whether the factor at this place is a repetition.
    pub fn is_star_at(&self, place: u8) -> bool
        ensures { result ≡ is_star_at (expression_of self.now) place }
    {
        match self {
            Regex::Product(e, _) if place == 0 => e.is_star(),
            Regex::Product(_, f) => f.is_star_at(place - 1),
            _ => place == 0 && self.is_star(),
        }
    }
}
