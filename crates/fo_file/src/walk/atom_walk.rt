//! A walk over atoms in the order of their tokens, up to the first flaw.

ghost use Rattle.std.specs.Prelude.{◌≡◌, ◌+◌, ◌-◌, ◌∷◌, ◌<◌, ◌^◌, length, map, nat_le, None};
ghost use Rattle.fo_syntax.specs.Trees.{AreTerms, Apply, Equation, Predicate, sign_of, atom_of};
ghost use Rattle.fo_syntax.specs.Grammar.{IsTerm, IsApplication};
ghost use Rattle.fo_syntax.specs.Places.{places_of as places_in, tokens_in};
ghost use Rattle.fo_syntax.proofs.PlaceLaws.{HaveRoom};
ghost use Rattle.cyc_lex.specs.declared.fault.What.TheVariants.{Atoms};
ghost use Rattle.fo_file.specs.AtomSpans.{atom_span, total_span, atoms_span, behind_first, terms_in, total_terms};
ghost use Rattle.fo_file.specs.AtomSpans.{IsAtom, AreAtoms};
ghost use Rattle.heap_reader.specs.Flaws.{or_later, over_if, IsName};
ghost use Rattle.fo_file.specs.AtomFlaws.{predicate_flaw, atom_flaw, atoms_flaw, side_flaw, equation_flaw, name_flaw};
ghost use Rattle.fo_file.specs.AtomFlaws.{IsWalkFrom};

use crate::walk::flaw::{Reached, Scope, Stop};
use crate::walk::term_walk::{check_limit, check_use, walk_signs, walk_term};
use cyc_lex::What;
use fo_syntax::terms::{AtomTree, SignTree, places_of};
use heap_reader::{Flaw, Heads, over};
use std::alloc::Global;

fn walk_equation(
    alloc: Global,
    constructors: &Heads<'_>,
    scope: Scope,
    limit: Option<Flaw>,
    from: Reached,
    left: &[SignTree<'_>],
    right: &[SignTree<'_>],
) -> Result<Reached, Stop>
    requires left { IsTerm (map sign_of left.now) }
    requires right { IsTerm (map sign_of right.now) }
    requires tokens { from.token + atom_span (Equation (map sign_of left.now) (map sign_of right.now)) < 2 ^ 64 }
    requires terms { from.terms + (length left.now + length right.now) < 2 ^ 64 }
    ensures { IsWalkFrom from result
        (λ m k. equation_flaw constructors.now scope m k limit (map sign_of left.now) (map sign_of right.now))
        (atom_span (Equation (map sign_of left.now) (map sign_of right.now))) (length left.now + length right.now) }
{
    let middle = walk_term(alloc, constructors, scope, limit, from, left)?;
    let behind_sign = Reached {
        token: middle.token + 1,
        terms: middle.terms,
    };
    let end = walk_term(alloc, constructors, scope, None, behind_sign, right)?;
    Ok(Reached {
        token: end.token + 1,
        terms: end.terms,
    })
}

fn check_predicate(
    constructors: &Heads<'_>,
    predicates: &Heads<'_>,
    scope: Scope,
    limit: Option<Flaw>,
    from: Reached,
    name: &str,
    arguments: usize,
    signs: &[SignTree<'_>],
    places: &[usize],
) -> Result<(), Flaw>
    requires each { length signs.now < length places.now }
    requires room { HaveRoom (2 ^ 64 - (from.token + 1)) places.now }
    requires terms { from.terms + length signs.now < 2 ^ 64 }
    ensures { IsName result
        (name_flaw constructors.now scope predicates.now from limit name.now arguments
        (map sign_of signs.now) places.now) }
{
    check_use(predicates.arity_of(name), arguments, from.token)?;
    check_limit(limit)?;
    walk_signs(constructors, scope, None, from, arguments, signs, places)
}

/// A predicate's name with its arguments, which have these places, and the token after them.
fn walk_use(
    constructors: &Heads<'_>,
    predicates: &Heads<'_>,
    scope: Scope,
    limit: Option<Flaw>,
    from: Reached,
    name: &str,
    arguments: usize,
    others: &[SignTree<'_>],
    places: &[usize],
) -> Result<Reached, Stop>
    requires is { AreTerms arguments (map sign_of others.now) }
    requires places { places.now ≡ places_in (Apply name.now arguments ∷ map sign_of others.now) }
    requires tokens { from.token + (tokens_in (Apply name.now arguments ∷ map sign_of others.now) + 1) < 2 ^ 64 }
    requires terms { from.terms + length others.now < 2 ^ 64 }
    ensures { IsWalkFrom from result
        (λ m k. predicate_flaw constructors.now scope predicates.now m k limit
        (Apply name.now arguments ∷ map sign_of others.now))
        (tokens_in (Apply name.now arguments ∷ map sign_of others.now) + 1) (length others.now) }
{
    let last = places[others.len() + 1];
    let behind_name = &places[1..];
    match check_predicate(
        constructors,
        predicates,
        scope,
        limit,
        from,
        name,
        arguments,
        others,
        behind_name,
    ) {
        Ok(()) => Ok(Reached {
            token: from.token + last + 1,
            terms: from.terms + others.len(),
        }),
        Err(flaw) => Err(Stop::Flaw(flaw)),
    }
}

/// A predicate's name with its arguments, and the token after them.
fn walk_predicate(
    alloc: Global,
    constructors: &Heads<'_>,
    predicates: &Heads<'_>,
    scope: Scope,
    limit: Option<Flaw>,
    from: Reached,
    signs: &[SignTree<'_>],
) -> Result<Reached, Stop>
    requires is { IsApplication (map sign_of signs.now) }
    requires tokens { from.token + (tokens_in (map sign_of signs.now) + 1) < 2 ^ 64 }
    requires terms { from.terms + behind_first (map sign_of signs.now) < 2 ^ 64 }
    ensures { IsWalkFrom from result
        (λ m k. predicate_flaw constructors.now scope predicates.now m k limit (map sign_of signs.now))
        (tokens_in (map sign_of signs.now) + 1) (behind_first (map sign_of signs.now)) }
{
    let places = places_of(alloc, signs)?;
    match signs {
        [SignTree::Apply(name, arguments), others @ ..] => {
            walk_use(
                constructors,
                predicates,
                scope,
                limit,
                from,
                name,
                *arguments,
                others,
                &places,
            )
        }
        _ => unreachable!(),
    }
}

/// An atom and the token after it: its first flaw, or how far the walk is. `limit` is what the list that begins with
/// this atom has against it.
pub fn walk_atom(
    alloc: Global,
    constructors: &Heads<'_>,
    predicates: &Heads<'_>,
    scope: Scope,
    limit: Option<Flaw>,
    from: Reached,
    tree: &AtomTree<'_>,
) -> Result<Reached, Stop>
    requires is { IsAtom (atom_of tree.now) }
    requires tokens { from.token + atom_span (atom_of tree.now) < 2 ^ 64 }
    requires terms { from.terms + terms_in (atom_of tree.now) < 2 ^ 64 }
    ensures { IsWalkFrom from result
        (λ m k. atom_flaw constructors.now scope predicates.now m k limit (atom_of tree.now))
        (atom_span (atom_of tree.now)) (terms_in (atom_of tree.now)) }
{
    match tree {
        AtomTree::Equation(left, right) => walk_equation(
            alloc,
            constructors,
            scope,
            limit,
            from,
            left,
            right,
        ),
        AtomTree::Predicate(signs) => walk_predicate(
            alloc,
            constructors,
            predicates,
            scope,
            limit,
            from,
            signs,
        ),
    }
}

/// What a list of at most so many atoms has against the atom before which n of them stand.
fn limit_at(limit: Option<Flaw>, most: usize, n: usize, at: usize) -> Option<Flaw>
    ensures { result ≡ or_later limit (over_if (nat_le most n) Atoms at) }
{
    match limit {
        None if n >= most => Some(over(What::Atoms, at)),
        _ => limit,
    }
}

fn walk_some_atoms(
    alloc: Global,
    constructors: &Heads<'_>,
    predicates: &Heads<'_>,
    scope: Scope,
    most: usize,
    limit: Option<Flaw>,
    from: Reached,
    trees: &[AtomTree<'_>],
) -> Result<Reached, Stop>
    requires are { AreAtoms (map atom_of trees.now) }
    requires tokens { from.token + total_span (map atom_of trees.now) < 2 ^ 64 }
    requires terms { from.terms + total_terms (map atom_of trees.now) < 2 ^ 64 }
    ensures { IsWalkFrom from result
        (λ m k. atoms_flaw constructors.now scope predicates.now most 0 m k limit (map atom_of trees.now))
        (total_span (map atom_of trees.now)) (total_terms (map atom_of trees.now)) }
{
    let mut reached = from;
    let mut limit = limit;
    for (n, tree) in trees.iter().enumerate() {
        let here = limit_at(limit, most, n, reached.token);
        reached = walk_atom(alloc, constructors, predicates, scope, here, reached, tree)?;
        limit = None;
    }
    Ok(reached)
}

/// A side of a sequent or a case, of at most so many atoms, and the token after it: its first flaw, or how far the walk
/// is. `limit` is what stands against it at its first token.
pub fn walk_atoms(
    alloc: Global,
    constructors: &Heads<'_>,
    predicates: &Heads<'_>,
    scope: Scope,
    most: usize,
    limit: Option<Flaw>,
    from: Reached,
    trees: &[AtomTree<'_>],
) -> Result<Reached, Stop>
    requires are { AreAtoms (map atom_of trees.now) }
    requires tokens { from.token + atoms_span (map atom_of trees.now) < 2 ^ 64 }
    requires terms { from.terms + total_terms (map atom_of trees.now) < 2 ^ 64 }
    ensures { IsWalkFrom from result
        (λ m k. side_flaw constructors.now scope predicates.now most m k limit (map atom_of trees.now))
        (atoms_span (map atom_of trees.now)) (total_terms (map atom_of trees.now)) }
{
    if !trees.is_empty() {
        return walk_some_atoms(
            alloc,
            constructors,
            predicates,
            scope,
            most,
            limit,
            from,
            trees,
        );
    }
    match limit {
        Some(flaw) => Err(Stop::Flaw(flaw)),
        None => Ok(Reached {
            token: from.token + 2,
            terms: from.terms,
        }),
    }
}
