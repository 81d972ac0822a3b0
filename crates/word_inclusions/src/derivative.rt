// Derivatives of regular expressions.
ghost use Rattle.std.specs.Prelude.{◌≡◌, IfOk};
ghost use Rattle.word_inclusions.specs.Expressions.{expression_of, followed_by, is_among, with, partials, derivative};

use crate::expression::Regex;
use cyc_basics::memory::OutOfMemory;
use std::alloc::Global;

impl Regex {
    /// This expression, and then another.
    fn followed_by(&self, alloc: Global, k: &Regex) -> Result<Regex, OutOfMemory>
        ensures { IfOk result (λ x. expression_of x ≡ followed_by (expression_of self.now) (expression_of k.now)) }
    {
        match k {
            Regex::One => self.copy(alloc),
            _ => Regex::product(alloc, self.copy(alloc)?, k.copy(alloc)?),
        }
    }

    /// Whether it is one of the alternatives.
    fn is_among(&self, alternatives: &Regex) -> bool
        ensures { result ≡ is_among (expression_of self.now) (expression_of alternatives.now) }
    {
        match alternatives {
            Regex::Sum(y, others) => self.is_same(y) || self.is_among(others),
            _ => false,
        }
    }

    /// The alternatives, and this one if it is none of them.
    fn with_others(&self, alloc: Global, others: Regex) -> Result<Regex, OutOfMemory>
        ensures { IfOk result (λ x. expression_of x ≡ with (expression_of self.now) (expression_of others)) }
    {
        if self.is_among(&others) {
            Ok(others)
        } else {
            Regex::sum(alloc, self.copy(alloc)?, others)
        }
    }

    /// What may follow a letter in a word of this expression and then `k`, before other alternatives.
    fn partials(
        &self,
        alloc: Global,
        letter: u8,
        k: &Regex,
        others: Regex,
    ) -> Result<Regex, OutOfMemory>
        ensures { IfOk result (λ x. expression_of x
            ≡ partials letter (expression_of self.now) (expression_of k.now) (expression_of others)) }
    {
        match self {
            Regex::Zero | Regex::One => Ok(others),
            Regex::Letter(b) if letter == *b => k.with_others(alloc, others),
            Regex::Letter(_) => Ok(others),
            Regex::Sum(e, f) => {
                let others = f.partials(alloc, letter, k, others)?;
                e.partials(alloc, letter, k, others)
            }
            Regex::Product(e, f) => {
                let behind = f.followed_by(alloc, k)?;
                let others = if e.is_nullable() {
                    f.partials(alloc, letter, k, others)?
                } else {
                    others
                };
                e.partials(alloc, letter, &behind, others)
            }
            Regex::Star(e) => {
                let behind = self.followed_by(alloc, k)?;
                e.partials(alloc, letter, &behind, others)
            }
        }
    }

    /// The derivative: what may follow the letter in a word of this expression (Brzozowski 1964, Antimirov 1996).
    pub fn derivative(&self, alloc: Global, letter: u8) -> Result<Regex, OutOfMemory>
        ensures { IfOk result (λ x. expression_of x ≡ derivative letter (expression_of self.now)) }
    {
        self.partials(alloc, letter, &Regex::One, Regex::Zero)
    }
}
