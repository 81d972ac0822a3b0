// Whether the choices that are made so far leave a link possible.
ghost use Rattle.std.specs.Prelude.{◌≡◌, ◌≤◌, ◌<◌, ◌||◌, length, nat_le, slice_get};
ghost use Rattle.std.specs.Option.{option_copied};
ghost use Rattle.back_links.specs.Prospects.{lookup as looked_up, known as known_term, could_equal as terms_could};
ghost use Rattle.back_links.specs.Prospects.{could_equal_all as all_could, could_match as atoms_could};
ghost use Rattle.back_links.specs.Prospects.{could_match_some, could_match_those as those_could};
ghost use Rattle.back_links.specs.Prospects.{known_pure as pure_known, could_follow as pure_could};
ghost use Rattle.back_links.specs.Prospects.{could_follow_those as those_could_follow, could_keep as could_stay};
ghost use Rattle.back_links.specs.Prospects.{kept_variables as variables_kept, could_stand as stand_could};
ghost use Rattle.back_links.specs.Prospects.{could_take as take_could, are_alike as alike};
ghost use Rattle.back_links.specs.Prospects.{opposite_in as opposite_term_in, opposite as opposite_term};
ghost use Rattle.back_links.specs.Prospects.{is_ruled_out as value_is_ruled_out, has_cover as cover_left};
ghost use Rattle.back_links.specs.Prospects.{have_covers as covers_left};
ghost use Rattle.back_links.specs.Searching.{MayStart, MayStartAt, MustEqual, could_match_with as could_match_atom};
ghost use Rattle.back_links.specs.Searching.{may_send, value_is_left, values_are_left};

use crate::covering::covers_at;
use crate::shapes::{all_have_shapes, has_shapes, same_shapes};
use crate::variables::{stands_in_pure, stands_in_spatial};
use cyc_basics::limits::MOST_DISJUNCTS;
use heap_formula::{Heap, Judgement, Pure, Spatial, Subst, Term};
use rule_table::{antecedent, equated, follows, is_among, same_term};

/// What the links from a bud to a companion are made of.
#[derive(Clone, Copy)]
pub struct Search<'a> {
    pub bud: &'a Judgement,
    pub companion: &'a Judgement,
    /// The companion's number.
    pub target: u32,
    /// How many program variables there are.
    pub variables: u16,
    /// The companion's universal variables.
    pub sources: &'a [u16],
    /// What a source may be sent to.
    pub values: &'a [Term],
    /// How many links are wanted.
    pub most: usize,
}

fn lookup(pairs: &[(u16, Term)], n: u16) -> Option<Term>
    ensures { result ≡ looked_up pairs.now n }
{
    for (from, to) in pairs {
        if *from == n {
            return Some(*to);
        }
    }
    None
}

fn known(pairs: &[(u16, Term)], term: Term) -> Option<Term>
    ensures { result ≡ known_term pairs.now term }
{
    match term {
        Term::Univ(n) => lookup(pairs, n),
        Term::Nil | Term::Exist(_) => Some(term),
    }
}

fn could_equal(pures: &[Pure], term: Option<Term>, u: Term) -> bool
    ensures { result ≡ terms_could pures.now term u }
{
    match term {
        Some(t) => equated(pures, t, u),
        None => true,
    }
}

fn could_equal_all(pures: &[Pure], pairs: &[(u16, Term)], ts: &[Term], us: &[Term]) -> bool
    ensures { result ≡ all_could pures.now pairs.now ts.now us.now }
{
    for (i, t) in ts.iter().enumerate() {
        if i >= us.len() {
            return false;
        }
        if !could_equal(pures, known(pairs, *t), us[i]) {
            return false;
        }
    }
    ts.len() == us.len()
}

pub fn could_match(pures: &[Pure], pairs: &[(u16, Term)], x: &Spatial, y: &Spatial) -> bool
    ensures { result ≡ atoms_could pures.now pairs.now x.now y.now }
{
    match (x, y) {
        (Spatial::Cell(t, ts), Spatial::Cell(u, us)) => {
            could_equal(pures, known(pairs, *t), *u)
                && could_equal_all(pures, pairs, ts.as_slice(), us.as_slice())
        }
        (Spatial::Pred(p, ts), Spatial::Pred(q, us)) => {
            *p == *q && could_equal_all(pures, pairs, ts.as_slice(), us.as_slice())
        }
        _ => false,
    }
}

pub fn could_match_at(
    pures: &[Pure],
    pairs: &[(u16, Term)],
    x: &Spatial,
    atoms: &[Spatial],
    m: u32,
) -> bool
    ensures { result ≡ could_match_some pures.now pairs.now x.now (slice_get atoms.now m) }
{
    if (m as usize) < atoms.len() {
        could_match(pures, pairs, x, &atoms[m as usize])
    } else {
        false
    }
}

/// Whether an atom without the variable, or one that could match the atom at a place.
fn could_match_with(
    n: u16,
    pures: &[Pure],
    pairs: &[(u16, Term)],
    x: &Spatial,
    atoms: &[Spatial],
    m: u32,
) -> bool
    ensures { result ≡ could_match_atom n pures.now pairs.now x.now (slice_get atoms.now m) }
{
    !stands_in_spatial(n, x) || could_match_at(pures, pairs, x, atoms, m)
}

fn could_match_those(
    n: u16,
    pures: &[Pure],
    atoms: &[Spatial],
    pairs: &[(u16, Term)],
    places: &[u32],
    xs: &[Spatial],
) -> bool
    ensures { result ≡ those_could n pures.now atoms.now pairs.now places.now xs.now }
{
    for (i, m) in places.iter().enumerate() {
        if i >= xs.len() {
            return true;
        }
        if !could_match_with(n, pures, pairs, &xs[i], atoms, *m) {
            return false;
        }
    }
    true
}

pub fn known_pure(pairs: &[(u16, Term)], x: Pure) -> Option<Pure>
    ensures { result ≡ pure_known pairs.now x }
{
    match x {
        Pure::Eq(t, u) => Some(Pure::Eq(known(pairs, t)?, known(pairs, u)?)),
        Pure::Neq(t, u) => Some(Pure::Neq(known(pairs, t)?, known(pairs, u)?)),
    }
}

pub fn could_follow(pures: &[Pure], atom: Option<Pure>) -> bool
    ensures { result ≡ pure_could pures.now atom }
{
    match atom {
        Some(x) => follows(pures, x),
        None => true,
    }
}

fn could_follow_those(n: u16, pures: &[Pure], pairs: &[(u16, Term)], xs: &[Pure]) -> bool
    ensures { result ≡ those_could_follow n pures.now pairs.now xs.now }
{
    for x in xs {
        if stands_in_pure(n, *x) && !could_follow(pures, known_pure(pairs, *x)) {
            return false;
        }
    }
    true
}

fn could_keep(term: Option<Term>, n: u16) -> bool
    ensures { result ≡ could_stay term n }
{
    match term {
        Some(t) => same_term(t, Term::Univ(n)),
        None => true,
    }
}

fn kept_variables(companion: &Judgement, p: u16) -> u16
    ensures { result ≡ variables_kept companion.now p }
{
    match companion {
        Judgement::Entail(_, _) => 0,
        Judgement::Term(_, _) => p,
    }
}

fn could_keep_one(kept: u16, pairs: &[(u16, Term)], n: u16) -> bool
    ensures { result ≡ (nat_le kept n || could_stay (looked_up pairs.now n) n) }
{
    kept <= n || could_keep(lookup(pairs, n), n)
}

/// How many of the first placed atoms of the companion are passed over since they have not the variable.
fn first_with(search: &Search<'_>, places: &[u32], n: u16) -> usize
    ensures { MayStartAt search.now places.now n result }
{
    let xs = antecedent(search.companion).spatial();
    for i in 0..places.len() {
        if i >= xs.len() || stands_in_spatial(n, &xs[i]) {
            return i;
        }
    }
    places.len()
}

fn opposite_in(n: u16, ts: &[Term], us: &[Term]) -> Option<Term>
    ensures { result ≡ opposite_term_in n ts.now us.now }
{
    for (i, t) in ts.iter().enumerate() {
        if i >= us.len() {
            return None;
        }
        if same_term(*t, Term::Univ(n)) {
            return Some(us[i]);
        }
    }
    None
}

fn opposite(n: u16, x: &Spatial, y: &Spatial) -> Option<Term>
    ensures { result ≡ opposite_term n x.now y.now }
{
    match (x, y) {
        (Spatial::Cell(t, ts), Spatial::Cell(u, us)) => {
            if same_term(*t, Term::Univ(n)) {
                return Some(*u);
            }
            opposite_in(n, ts.as_slice(), us.as_slice())
        }
        (Spatial::Pred(_, ts), Spatial::Pred(_, us)) => {
            opposite_in(n, ts.as_slice(), us.as_slice())
        }
        _ => None,
    }
}

/// The bud's term where the atom at place `first` has the variable, if they have such places.
fn term_at(search: &Search<'_>, places: &[u32], n: u16, first: usize) -> Option<Term>
    requires { MayStartAt search.now places.now n first }
    ensures { MustEqual search.now places.now n result }
{
    let atoms = antecedent(search.bud).spatial();
    let xs = antecedent(search.companion).spatial();
    if first >= places.len() || first >= xs.len() {
        return None;
    }
    let m = places[first] as usize;
    if m >= atoms.len() {
        return None;
    }
    opposite(n, &xs[first], &atoms[m])
}

/// Where the test of a variable starts: how many of the first placed atoms of the companion have not the variable, and
/// the term that its value has to equal, if an atom says so.
#[derive(Clone, Copy)]
pub struct Start {
    pub first: usize,
    pub term: Option<Term>,
}

pub fn start_of(search: &Search<'_>, places: &[u32], n: u16) -> Start
    ensures { MayStart search.now places.now n result }
{
    let first = first_with(search, places, n);
    let term = term_at(search, places, n, first);
    Start { first, term }
}

/// Whether the value is known not to be the term that it has to equal.
fn is_ruled_out(pures: &[Pure], value: Option<Term>, term: Option<Term>) -> bool
    ensures { result ≡ value_is_ruled_out pures.now value term }
{
    match (value, term) {
        (Some(v), Some(u)) => !equated(pures, v, u),
        _ => false,
    }
}

/// Whether the pairs, for these places of the companion's first spatial atoms, send the variable to a term that fits.
pub fn could_send(
    search: &Search<'_>,
    places: &[u32],
    start: Start,
    pairs: &[(u16, Term)],
    n: u16,
) -> bool
    requires { MayStart search.now places.now n start }
    ensures { result ≡ may_send search.now places.now pairs.now n }
{
    let a = antecedent(search.bud);
    if is_ruled_out(a.pure(), lookup(pairs, n), start.term) {
        return false;
    }
    let b = antecedent(search.companion);
    let first = start.first;
    could_keep_one(kept_variables(search.companion, search.variables), pairs, n)
        && could_match_those(
            n,
            a.pure(),
            a.spatial(),
            pairs,
            &places[first..],
            &b.spatial()[first..],
        )
        && could_follow_those(n, a.pure(), pairs, b.pure())
}

fn has_value(search: &Search<'_>, places: &[u32], n: u16) -> bool
    ensures { result ≡ value_is_left search.now places.now n }
{
    let start = start_of(search, places, n);
    for v in search.values {
        if could_send(search, places, start, &[(n, *v)], n) {
            return true;
        }
    }
    false
}

/// Whether each variable of the atom has a value left, with these places for the companion's first spatial atoms.
pub fn have_values(search: &Search<'_>, places: &[u32], x: &Spatial) -> bool
    ensures { result ≡ values_are_left search.now places.now x.now }
{
    for n in search.sources {
        if stands_in_spatial(*n, x) && !has_value(search, places, *n) {
            return false;
        }
    }
    true
}

fn could_stand(pures: &[Pure], atoms: &[Spatial], m: u32, x: Option<&Spatial>) -> bool
    ensures { result ≡ stand_could pures.now atoms.now m (option_copied x.entry) }
{
    match x {
        Some(x) => could_match_at(pures, &[], x, atoms, m),
        None => true,
    }
}

/// Whether a place is free and fits the companion's next atom, where the atoms before that have these places.
pub fn could_take(search: &Search<'_>, places: &[u32], m: u32) -> bool
    ensures { result ≡ take_could search.now.bud.now search.now.companion.now places.now m }
{
    let a = antecedent(search.bud);
    let b = antecedent(search.companion);
    !is_among(places, m as usize)
        && could_stand(a.pure(), a.spatial(), m, b.spatial().get(places.len()))
}

/// Whether the two are of one kind and the bud's spatial atoms have the shapes that a link needs: of an entailment's
/// antecedent just the companion's, and in some disjunct those of each of the companion's; at one line the companion's
/// and perhaps more.
pub fn are_alike(bud: &Judgement, companion: &Judgement) -> bool
    ensures { result ≡ alike bud.now companion.now }
{
    match (bud, companion) {
        (Judgement::Entail(a, bs), Judgement::Entail(b, cs)) => {
            same_shapes(a.spatial(), b.spatial()) && all_have_shapes(bs.heaps(), cs.heaps())
        }
        (Judgement::Term(i, a), Judgement::Term(k, b)) => {
            *i == *k && has_shapes(a.spatial(), b.spatial())
        }
        _ => false,
    }
}

fn has_cover(subst: &Subst, c: &Heap, disjuncts: &[Heap]) -> bool
    requires { length disjuncts.now ≤ MOST_DISJUNCTS }
    ensures { result ≡ cover_left disjuncts.now subst.now c.now }
{
    for m in 0..disjuncts.len() {
        if covers_at(subst, c, disjuncts, m as u32) {
            return true;
        }
    }
    false
}

/// Whether each disjunct of the companion covers some disjunct of the bud.
pub fn have_covers(subst: &Subst, cs: &[Heap], disjuncts: &[Heap]) -> bool
    requires { length disjuncts.now ≤ MOST_DISJUNCTS }
    ensures { result ≡ covers_left disjuncts.now subst.now cs.now }
{
    for c in cs {
        if !has_cover(subst, c, disjuncts) {
            return false;
        }
    }
    true
}
