// Terms without existential variables.
ghost use Rattle.std.specs.Prelude.{IsTrue};
ghost use Rattle.rule_book.specs.Limits.{IsTermWithin};

use cyc_basics::limits::GREATEST_VARIABLE;
use heap_formula::Term;

/// Whether the term is no existential and has a number that a file may have.
pub fn is_term_within(term: Term) -> bool
    ensures { IsTrue result → IsTermWithin term }
{
    match term {
        Term::Nil => true,
        Term::Univ(n) => u32::from(n) <= GREATEST_VARIABLE,
        Term::Exist(_) => false,
    }
}
