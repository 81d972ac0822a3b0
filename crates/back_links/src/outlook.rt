// Whether the places that are made, and the values that they force, leave a link possible.
ghost use Rattle.std.specs.Prelude.{◌≡◌, ◌≤◌, ℕ, List, false, drop, length, IfOk};
ghost use Rattle.std.specs.List.{list_all};
ghost use Rattle.back_links.specs.Outlook.{IsForced, AreForced, LeavesNone, LeavesNoPairs};
ghost use Rattle.back_links.specs.Outlook.{could_all_follow as all_could_follow, could_be_among as is_possibly_among};
ghost use Rattle.back_links.specs.Outlook.{could_cover as covers_possibly, could_cover_some as some_covered};
ghost use Rattle.back_links.specs.Outlook.{could_cover_each as each_covers, could_lie_at as lies_at, could_lie as lies};
ghost use Rattle.back_links.specs.Outlook.{could_some_match as some_could, could_fill as fills};
ghost use Rattle.back_links.specs.Outlook.{could_fill_each as fills_each, could_lie_each as lie_each};
ghost use Rattle.back_links.specs.Outlook.{could_go_on as goes_on};

use crate::covering::disjuncts;
use crate::prospects::{
    Search, could_follow, could_match, could_match_at, could_send, known_pure, start_of,
};
use cyc_basics::limits::MOST_SPATIAL;
use heap_formula::{Heap, OutOfMemory, Pure, Spatial, Term};
use rule_table::{antecedent, is_among};
use std::alloc::Global;

/// The one value that the places leave for the variable; none if they leave more.
fn forced_value(search: &Search<'_>, places: &[u32], n: u16) -> Option<Term>
    ensures { IsForced search.now places.now n result }
{
    let start = start_of(search, places, n);
    let mut only = None;
    for v in search.values {
        if could_send(search, places, start, &[(n, *v)], n) {
            if only.is_some() {
                return None;
            }
            only = Some(*v);
        }
    }
    only
}

/// The variables on which the places force a value, each with its value.
fn forced_pairs(
    alloc: Global,
    search: &Search<'_>,
    places: &[u32],
) -> Result<Vec<(u16, Term)>, OutOfMemory>
    ensures { IfOk result (λ v. AreForced search.now places.now v.items) }
{
    let mut pairs = Vec::new(alloc);
    for n in search.sources {
        if let Some(v) = forced_value(search, places, *n) {
            pairs.push((*n, v))?;
        }
    }
    Ok(pairs)
}

fn could_all_follow(pures: &[Pure], pairs: &[(u16, Term)], xs: &[Pure]) -> bool
    ensures { result ≡ all_could_follow pures.now pairs.now xs.now }
{
    xs.iter()
        .all(|x| could_follow(pures, known_pure(pairs, *x)))
}

/// Whether the atom could become one of the list, as it stands.
fn could_be_among(pairs: &[(u16, Term)], z: &Spatial, ws: &[Spatial]) -> bool
    ensures { result ≡ is_possibly_among pairs.now z.now ws.now }
{
    ws.iter().any(|w| could_match(&[], pairs, z, w))
}

fn could_cover(pairs: &[(u16, Term)], c: &Heap, b: &Heap) -> bool
    ensures { result ≡ covers_possibly pairs.now c.now b.now }
{
    let ws = b.spatial();
    c.spatial().iter().all(|z| could_be_among(pairs, z, ws))
}

fn could_cover_some(disjuncts: &[Heap], pairs: &[(u16, Term)], c: &Heap) -> bool
    ensures { result ≡ some_covered disjuncts.now pairs.now c.now }
{
    disjuncts.iter().any(|b| could_cover(pairs, c, b))
}

/// Whether each disjunct of the companion could cover some disjunct of the bud.
fn could_cover_each(disjuncts: &[Heap], pairs: &[(u16, Term)], cs: &[Heap]) -> bool
    ensures { result ≡ each_covers disjuncts.now pairs.now cs.now }
{
    cs.iter().all(|c| could_cover_some(disjuncts, pairs, c))
}

fn could_lie_at(
    pures: &[Pure],
    atoms: &[Spatial],
    pairs: &[(u16, Term)],
    places: &[u32],
    x: &Spatial,
    m: u32,
) -> bool
    ensures { result ≡ lies_at pures.now atoms.now pairs.now places.now x.now m }
{
    !is_among(places, m as usize) && could_match_at(pures, pairs, x, atoms, m)
}

/// Whether the atom could have a place that is free.
fn could_lie(
    pures: &[Pure],
    atoms: &[Spatial],
    pairs: &[(u16, Term)],
    places: &[u32],
    x: &Spatial,
) -> bool
    requires { length atoms.now ≤ MOST_SPATIAL }
    ensures { result ≡ lies pures.now atoms.now pairs.now places.now x.now }
{
    for m in 0..atoms.len() {
        if could_lie_at(pures, atoms, pairs, places, x, m as u32) {
            return true;
        }
    }
    false
}

fn could_some_match(
    pures: &[Pure],
    atoms: &[Spatial],
    pairs: &[(u16, Term)],
    xs: &[Spatial],
    m: u32,
) -> bool
    ensures { result ≡ some_could pures.now atoms.now pairs.now xs.now m }
{
    xs.iter().any(|x| could_match_at(pures, pairs, x, atoms, m))
}

fn could_fill(
    pures: &[Pure],
    atoms: &[Spatial],
    pairs: &[(u16, Term)],
    places: &[u32],
    xs: &[Spatial],
    m: u32,
) -> bool
    ensures { result ≡ fills pures.now atoms.now pairs.now places.now xs.now m }
{
    is_among(places, m as usize) || could_some_match(pures, atoms, pairs, xs, m)
}

/// Whether each place has its atom, or could have one.
fn could_fill_each(
    pures: &[Pure],
    atoms: &[Spatial],
    pairs: &[(u16, Term)],
    places: &[u32],
    xs: &[Spatial],
) -> bool
    requires { length atoms.now ≤ MOST_SPATIAL }
    ensures { result ≡ fills_each pures.now atoms.now pairs.now places.now xs.now }
{
    for m in 0..atoms.len() {
        if !could_fill(pures, atoms, pairs, places, xs, m as u32) {
            return false;
        }
    }
    true
}

fn could_lie_those(
    pures: &[Pure],
    atoms: &[Spatial],
    pairs: &[(u16, Term)],
    places: &[u32],
    xs: &[Spatial],
) -> bool
    requires { length atoms.now ≤ MOST_SPATIAL }
    ensures { result ≡ list_all (lies pures.now atoms.now pairs.now places.now) xs.now }
{
    for x in xs {
        if !could_lie(pures, atoms, pairs, places, x) {
            return false;
        }
    }
    true
}

/// Whether each of the companion's atoms without a place could have one; and, where that takes all places, whether each
/// place could have an atom.
fn could_lie_each(
    pures: &[Pure],
    atoms: &[Spatial],
    pairs: &[(u16, Term)],
    places: &[u32],
    xs: &[Spatial],
    whole: bool,
) -> bool
    requires { length atoms.now ≤ MOST_SPATIAL }
    ensures { result ≡ lie_each pures.now atoms.now pairs.now places.now xs.now whole }
{
    if !could_lie_those(pures, atoms, pairs, places, xs) {
        return false;
    }
    if whole {
        could_fill_each(pures, atoms, pairs, places, xs)
    } else {
        true
    }
}

/// The atoms from a place on.
fn atoms_from(atoms: &[Spatial], k: usize) -> &[Spatial]
    ensures { result.now ≡ drop k atoms.now }
{
    if k < atoms.len() { &atoms[k..] } else { &[] }
}

fn could_go_on(search: &Search<'_>, places: &[u32], pairs: &[(u16, Term)]) -> bool
    ensures { result ≡ goes_on search.now.bud.now search.now.companion.now places.now pairs.now }
{
    let a = antecedent(search.bud);
    let b = antecedent(search.companion);
    let whole = a.spatial().len() <= b.spatial().len();
    let rest = atoms_from(b.spatial(), places.len());
    could_all_follow(a.pure(), pairs, b.pure())
        && could_cover_each(disjuncts(search.bud), pairs, disjuncts(search.companion))
        && could_lie_each(a.pure(), a.spatial(), pairs, places, rest, whole)
}

/// Whether a link is possible whose map begins with these places, as far as the values tell that they force: by the
/// pure atoms, by the disjuncts, and by the places that are free.
pub fn is_open(alloc: Global, search: &Search<'_>, places: &[u32]) -> Result<bool, OutOfMemory>
    ensures { IfOk result (λ b. b ≡ false → LeavesNone search.now places.now) }
{
    let pairs = forced_pairs(alloc, search, places)?;
    Ok(could_go_on(search, places, &pairs))
}

/// Whether a link is possible whose substitution begins with these pairs, as far as the disjuncts tell.
pub fn covers_are_open(search: &Search<'_>, pairs: &[(u16, Term)]) -> bool
    ensures { result ≡ false → (places : List ℕ) → LeavesNoPairs search.now places pairs.now }
{
    could_cover_each(disjuncts(search.bud), pairs, disjuncts(search.companion))
}
