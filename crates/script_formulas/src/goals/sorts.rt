// Whether a script is well sorted.
ghost use Rattle.std.specs.Prelude.{◌≡◌, ℕ, [], Option, IfOk, OnOk, map};
ghost use Rattle.heap_formula.specs.Words.{Each};
ghost use Rattle.script_formulas.specs.Formulas.{formula_of};
ghost use Rattle.script_formulas.specs.Sorts.{sort_of as term_sort, has_sort as is_of_sort, have_sorts as are_of_sorts};
ghost use Rattle.script_formulas.specs.Sorts.{first_sort as equation_sort, are_alike as are_of_one_sort};
ghost use Rattle.script_formulas.specs.Sorts.{sorted_pure, sorted_atom, sorted_formula, IsSortedIn, IsSorted, sorts_of};

use crate::cases::Unsupported;
use crate::goals::refusal::{Place, ScriptRefusal};
use crate::{Pure, Script, ScriptAtom, ScriptFormula, Term};
use cyc_basics::memory::OutOfMemory;
use std::alloc::Global;

/// Quantifiers around a formula, at most.
const MOST_DEPTH: usize = 1024;

/// The sort of a term; that of `nil` may be any.
fn sort_of(known: &[u16], bound: &[u16], term: Term) -> Option<u16>
    ensures { result ≡ term_sort known.now bound.now term }
{
    match term {
        Term::Nil => Some(0),
        Term::Univ(n) => known.get(n as usize).copied(),
        Term::Exist(n) => bound.get(n as usize).copied(),
    }
}

fn has_sort(known: &[u16], bound: &[u16], term: Term, sort: u16) -> bool
    ensures { result ≡ is_of_sort known.now bound.now term sort }
{
    match term {
        Term::Nil => true,
        Term::Univ(_) | Term::Exist(_) => match sort_of(known, bound, term) {
            Some(found) => found == sort,
            None => false,
        },
    }
}

fn have_sorts(known: &[u16], bound: &[u16], terms: &[Term], sorts: &[u16]) -> bool
    ensures { result ≡ are_of_sorts known.now bound.now terms.now sorts.now }
{
    if terms.len() != sorts.len() {
        return false;
    }
    for (place, sort) in sorts.iter().enumerate() {
        if !has_sort(known, bound, terms[place], *sort) {
            return false;
        }
    }
    true
}

/// The sort of the first term, or where it is `nil`, of the second.
fn first_sort(known: &[u16], bound: &[u16], t: Term, u: Term) -> Option<u16>
    ensures { result ≡ equation_sort known.now bound.now t u }
{
    match t {
        Term::Nil => sort_of(known, bound, u),
        Term::Univ(_) | Term::Exist(_) => sort_of(known, bound, t),
    }
}

fn are_alike(known: &[u16], bound: &[u16], t: Term, u: Term) -> bool
    ensures { result ≡ are_of_one_sort known.now bound.now t u }
{
    match first_sort(known, bound, t, u) {
        Some(sort) => has_sort(known, bound, t, sort) && has_sort(known, bound, u, sort),
        None => false,
    }
}

fn is_sorted_pure(known: &[u16], bound: &[u16], atom: Pure) -> bool
    ensures { result ≡ sorted_pure known.now bound.now atom }
{
    match atom {
        Pure::Eq(t, u) | Pure::Neq(t, u) => are_alike(known, bound, t, u),
    }
}

fn is_sorted_atom(script: &Script, known: &[u16], bound: &[u16], atom: &ScriptAtom) -> bool
    ensures { result ≡ sorted_atom script.now.constructors.items script.now.predicates.items known.now bound.now
        atom.now }
{
    match atom {
        ScriptAtom::Cell(t, c, args) => match script.constructors.get(*c as usize) {
            Some(constructor) => {
                has_sort(known, bound, *t, constructor.location)
                    && have_sorts(known, bound, args.as_slice(), &constructor.fields)
            }
            None => false,
        },
        ScriptAtom::Call(p, args) => match script.predicates.get(*p as usize) {
            Some(predicate) => have_sorts(known, bound, args.as_slice(), &predicate.parameters),
            None => false,
        },
    }
}

/// Whether a formula is well sorted, where the constants or parameters have the first sorts, and the variables of the
/// quantifiers that it stands below the others; and no quantifier has more than 1,024 around it.
fn is_sorted_formula(
    alloc: Global,
    script: &Script,
    known: &[u16],
    bound: &[u16],
    formula: &ScriptFormula,
) -> Result<bool, OutOfMemory>
    ensures { IfOk result (λ b. b ≡ sorted_formula script.now.constructors.items script.now.predicates.items known.now
        bound.now (formula_of formula.now)) }
{
    match formula {
        ScriptFormula::True | ScriptFormula::False | ScriptFormula::Empty => Ok(true),
        ScriptFormula::Pure(atom) => Ok(is_sorted_pure(known, bound, *atom)),
        ScriptFormula::Atom(atom) => Ok(is_sorted_atom(script, known, bound, atom)),
        ScriptFormula::Not(f) => is_sorted_formula(alloc, script, known, bound, f),
        ScriptFormula::And(f, g) | ScriptFormula::Or(f, g) | ScriptFormula::Sep(f, g) => {
            let first = is_sorted_formula(alloc, script, known, bound, f)?;
            let second = is_sorted_formula(alloc, script, known, bound, g)?;
            Ok(first && second)
        }
        ScriptFormula::Exists(sort, f) => {
            if bound.len() >= MOST_DEPTH {
                return Ok(false);
            }
            let mut inner = Vec::from_slice(alloc, bound)?;
            inner.push(*sort)?;
            is_sorted_formula(alloc, script, known, &inner, f)
        }
    }
}

/// Refuses a formula that is not well sorted.
fn check_formula(
    alloc: Global,
    script: &Script,
    known: &[u16],
    place: Place,
    formula: &ScriptFormula,
) -> Result<(), ScriptRefusal>
    ensures { OnOk result (IsSortedIn script.now known.now (formula_of formula.now)) }
{
    if is_sorted_formula(alloc, script, known, &[], formula)? {
        Ok(())
    } else {
        Err(ScriptRefusal::Unsupported(place, Unsupported::Sorts))
    }
}

fn check_predicates(alloc: Global, script: &Script) -> Result<(), ScriptRefusal>
    ensures { OnOk result (Each (λ q. IsSortedIn script.now q.parameters.items (formula_of q.body))
        script.now.predicates.items) }
{
    for (number, predicate) in script.predicates.iter().enumerate() {
        let place = Place::Predicate(number);
        check_formula(alloc, script, &predicate.parameters, place, &predicate.body)?;
    }
    Ok(())
}

fn constant_sorts(alloc: Global, script: &Script) -> Result<Vec<u16>, OutOfMemory>
    ensures { IfOk result (λ sorts. sorts.items ≡ sorts_of script.now) }
{
    let mut sorts = Vec::new(alloc);
    for constant in &script.constants {
        sorts.push(constant.sort)?;
    }
    Ok(sorts)
}

fn check_asserts(
    alloc: Global,
    script: &Script,
    known: &[u16],
    formulas: &[ScriptFormula],
    is_denied: bool,
) -> Result<(), ScriptRefusal>
    ensures { OnOk result (Each (λ f. IsSortedIn script.now known.now (formula_of f)) formulas.now) }
{
    for (number, formula) in formulas.iter().enumerate() {
        let place = if is_denied {
            Place::Denied(number)
        } else {
            Place::Asserted(number)
        };
        check_formula(alloc, script, known, place, formula)?;
    }
    Ok(())
}

/// Refuses a script that is not well sorted, or has more than 1,024 quantifiers around a formula.
pub fn check_sorts(alloc: Global, script: &Script) -> Result<(), ScriptRefusal>
    ensures { OnOk result (IsSorted script.now) }
{
    let known = constant_sorts(alloc, script)?;
    check_predicates(alloc, script)?;
    check_asserts(alloc, script, &known, &script.asserted, false)?;
    check_asserts(alloc, script, &known, &script.denied, true)
}
