//! The ninth argument of an application: where it begins, on a walk over signs. Of the applications round a term, the
//! innermost one with more than eight arguments has its ninth argument first.

ghost use Rattle.std.specs.Prelude.{◌≡◌, ◌+◌, ◌<◌, ◌≤◌, ◌^◌, ◌++◌, ℕ, List, drop, IfSome};
ghost use Rattle.heap_reader.specs.Flaws.{or_later};
ghost use Rattle.fo_file.specs.Arguments.{numbers, argument_flaw, until_ninth};

use cyc_basics::limits::MOST_FIRST_ORDER_ARGUMENTS;
use cyc_lex::What;
use heap_reader::{Flaw, over};

/// What stands against the next term, which begins at this token: what is known already, or that it is a ninth
/// argument. So many terms stand before the ninth argument that comes next, if one comes.
pub fn argument_limit(limit: Option<Flaw>, ninth: Option<usize>, at: usize) -> Option<Flaw>
    ensures { (ns : List ℕ) → until_ninth ns ≡ ninth → result ≡ or_later limit (argument_flaw ns at) }
{
    match (limit, ninth) {
        (None, Some(0)) => Some(over(What::Arguments, at)),
        _ => limit,
    }
}

/// How many terms stand before the next ninth argument, behind a sign with so many arguments that is none itself.
pub fn ninth_behind(ninth: Option<usize>, arguments: usize) -> Option<usize>
    requires { IfSome ninth (λ n. (0 < n) × (n + 8 < 2 ^ 64)) }
    ensures counts { (ns : List ℕ) → until_ninth ns ≡ ninth
        → until_ninth (numbers arguments ++ drop 1 ns) ≡ result }
    ensures near { (m : ℕ) → IfSome ninth (λ n. n ≤ m) → IfSome result (λ n. n ≤ m + 8) }
{
    match ninth {
        _ if arguments > MOST_FIRST_ORDER_ARGUMENTS => Some(MOST_FIRST_ORDER_ARGUMENTS),
        Some(terms) => Some(terms + arguments - 1),
        None => None,
    }
}
