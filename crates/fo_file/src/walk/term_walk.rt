//! A walk over the signs of a term in the order of their tokens, up to the first flaw.

ghost use Rattle.std.specs.Prelude.{◌≡◌, ◌+◌, ◌-◌, ◌<◌, ◌^◌, length, map, None};
ghost use Rattle.fo_syntax.specs.Trees.{arguments_of, sign_of};
ghost use Rattle.fo_syntax.specs.Grammar.{IsTerm};
ghost use Rattle.fo_syntax.specs.Places.{tokens_in};
ghost use Rattle.fo_syntax.proofs.PlaceLaws.{HaveRoom};
ghost use Rattle.heap_reader.specs.Flaws.{use_flaw, IsName};
ghost use Rattle.fo_file.specs.Arguments.{numbers};
ghost use Rattle.fo_file.specs.AtomFlaws.{variable_flaw, terms_flaw, sign_flaw, signs_flaw, term_flaw, IsWalkFrom};

use crate::walk::flaw::{Reached, Scope, Stop};
use crate::walk::ninth::{argument_limit, ninth_behind};
use cyc_basics::limits::{GREATEST_FIRST_ORDER_LOCAL, GREATEST_VARIABLE, MOST_TERMS};
use cyc_lex::{IllFault, What};
use fo_syntax::terms::{SignTree, places_of};
use heap_reader::{Flaw, Heads, ill, over};
use std::alloc::Global;

/// A name that is known with so many arguments, if it is, is used with others.
pub fn check_use(known: Option<u32>, arguments: usize, at: usize) -> Result<(), Flaw>
    ensures { IsName result (use_flaw known arguments at) }
{
    match known {
        None => Err(ill(IllFault::Unknown, at)),
        Some(arity) if arity as usize != arguments => Err(ill(IllFault::Arity, at)),
        Some(_) => Ok(()),
    }
}

fn check_variable(scope: Scope, at: usize, number: u32) -> Result<(), Flaw>
    ensures { IsName result (variable_flaw scope at number) }
{
    match scope {
        Scope::Node if number > GREATEST_VARIABLE => Err(over(What::Variable, at)),
        Scope::Case(arity) if number >= arity => Err(ill(IllFault::Parameter, at)),
        _ => Ok(()),
    }
}

fn check_terms(terms: usize, at: usize) -> Result<(), Flaw>
    ensures { IsName result (terms_flaw terms at) }
{
    if terms >= MOST_TERMS {
        return Err(over(What::Terms, at));
    }
    Ok(())
}

/// A flaw that is known already, or none.
pub fn check_limit(limit: Option<Flaw>) -> Result<(), Flaw>
    ensures { IsName result limit }
{
    match limit {
        Some(flaw) => Err(flaw),
        None => Ok(()),
    }
}

fn check_sign(
    names: &Heads<'_>,
    scope: Scope,
    terms: usize,
    at: usize,
    limit: Option<Flaw>,
    sign: SignTree<'_>,
) -> Result<(), Flaw>
    requires { at + 1 < 2 ^ 64 }
    ensures { IsName result (sign_flaw names.now scope terms at limit (sign_of sign.entry)) }
{
    match sign {
        SignTree::Variable(number) => {
            check_limit(limit)?;
            check_terms(terms, at)?;
            check_variable(scope, at + 1, number)
        }
        SignTree::Local(number) => {
            check_limit(limit)?;
            check_terms(terms, at)?;
            if number > GREATEST_FIRST_ORDER_LOCAL {
                return Err(over(What::Locals, at + 1));
            }
            Ok(())
        }
        SignTree::Apply(name, arguments) => {
            check_use(names.arity_of(name), arguments, at)?;
            check_limit(limit)?;
            check_terms(terms, at)
        }
    }
}

/// How many terms come after a sign, as its arguments.
fn arguments_of(sign: SignTree<'_>) -> usize
    ensures { result ≡ arguments_of (sign_of sign.entry) }
{
    match sign {
        SignTree::Apply(_, arguments) => arguments,
        _ => 0,
    }
}

/// Signs that begin at these places, counted from the token that is reached: those of so many arguments of an
/// application, or, where these are none, of a term that stands alone.
pub fn walk_signs(
    names: &Heads<'_>,
    scope: Scope,
    limit: Option<Flaw>,
    from: Reached,
    arguments: usize,
    signs: &[SignTree<'_>],
    places: &[usize],
) -> Result<(), Flaw>
    requires each { length signs.now < length places.now }
    requires room { HaveRoom (2 ^ 64 - (from.token + 1)) places.now }
    requires terms { from.terms + length signs.now < 2 ^ 64 }
    ensures { IsName result
        (signs_flaw names.now scope (numbers arguments) from.terms from.token limit
        (map sign_of signs.now) places.now) }
{
    let mut limit = limit;
    let mut ninth = ninth_behind(None, arguments);
    for (n, sign) in signs.iter().enumerate() {
        let at = from.token + places[n];
        let here = argument_limit(limit, ninth, at);
        check_sign(names, scope, from.terms + n, at, here, *sign)?;
        limit = None;
        ninth = ninth_behind(ninth, arguments_of(*sign));
    }
    Ok(())
}

/// A term: its first flaw, or the token after it and the number of terms with its own. `limit` is what the list that
/// begins with this term has against it.
pub fn walk_term(
    alloc: Global,
    names: &Heads<'_>,
    scope: Scope,
    limit: Option<Flaw>,
    from: Reached,
    signs: &[SignTree<'_>],
) -> Result<Reached, Stop>
    requires is { IsTerm (map sign_of signs.now) }
    requires tokens { from.token + tokens_in (map sign_of signs.now) < 2 ^ 64 }
    requires terms { from.terms + length signs.now < 2 ^ 64 }
    ensures { IsWalkFrom from result (λ m k. term_flaw names.now scope m k limit (map sign_of signs.now))
        (tokens_in (map sign_of signs.now)) (length signs.now) }
{
    let places = places_of(alloc, signs)?;
    match walk_signs(names, scope, limit, from, 0, signs, &places) {
        Ok(()) => Ok(Reached {
            token: from.token + places[signs.len()],
            terms: from.terms + signs.len(),
        }),
        Err(flaw) => Err(Stop::Flaw(flaw)),
    }
}
