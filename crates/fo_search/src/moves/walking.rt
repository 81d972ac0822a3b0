// Right choices of terms, found one after another by a walk through the tree of their beginnings, depth first.
ghost use Rattle.std.specs.Prelude.{◌≡◌, ◌<◌, ◌++◌, List, Bool, false, length, reverse, slice_get, IfOk, OnOk};
ghost use Rattle.search_moves.specs.Places.{if_some};
ghost use Rattle.std.specs.List.{filter};
ghost use Rattle.fo_formula.specs.Words.{Word};
ghost use Rattle.fo_search.specs.Subterms.{lists_of};
ghost use Rattle.fo_search.specs.Choosing.{does as wanted_does, IsWithin, first_choices};
ghost use Rattle.fo_search.specs.Walks.{chosen_by, choices_left, choices_behind, nodes_left, IsSeen, IsFirstLeft};

use crate::moves::choosing::{does, may_do};
use crate::moves::wanted::Wanted;
use cyc_basics::memory::OutOfMemory;
use fo_formula::{Term, Terms};
use std::alloc::Global;

/// What terms are chosen from, and what for.
#[derive(Clone, Copy)]
pub struct Search<'a> {
    pub wanted: Wanted<'a>,
    pub values: &'a [Term],
}

/// Choices of `count` values, from some on in lexicographic order: the places of the values that are chosen so far.
#[derive(Drop)]
pub struct Walk {
    pub count: usize,
    pub places: Vec<usize>,
    pub is_over: bool,
}

/// What is seen of the right choices that begin with the values chosen so far: there is none, or one, or more values
/// are to be chosen.
#[derive(Drop)]
enum Sight {
    Nothing,
    Right(Terms),
    Deeper,
}

/// All choices of so many values.
pub fn begin(alloc: Global, count: usize) -> Walk
    ensures { (test : List Word → Bool) (values : List Word)
        → choices_left test values result ≡ filter test (lists_of count values) }
{
    Walk {
        count,
        places: Vec::new(alloc),
        is_over: false,
    }
}

/// Adds the value at a place, if there is one.
fn push_value(values: &[Term], place: usize, terms: &mut Vec<Term>) -> Result<(), OutOfMemory>
    ensures { OnOk result (terms.new.items ≡ terms.old.items ++ if_some (slice_get values.now place)) }
{
    if let Some(value) = values.get(place) {
        terms.push(value.clone()?)?;
    }
    Ok(())
}

/// The values at the places.
fn chosen(alloc: Global, values: &[Term], places: &[usize]) -> Result<Vec<Term>, OutOfMemory>
    ensures { IfOk result (λ v. v.items ≡ chosen_by values.now (reverse places.now)) }
{
    let mut terms = Vec::new(alloc);
    for place in places {
        push_value(values, *place, &mut terms)?;
    }
    Ok(terms)
}

/// Looks at the right choices that begin with the values chosen so far.
fn look(alloc: Global, search: &Search<'_>, walk: &Walk) -> Result<Sight, OutOfMemory>
    requires { IsWithin search.now.wanted }
    ensures { IfOk result (IsSeen search.now.wanted search.now.values.now walk.now) }
{
    let made = chosen(alloc, search.values, &walk.places)?;
    if !may_do(alloc, &search.wanted, &made)? {
        return Ok(Sight::Nothing);
    }
    if walk.places.len() < walk.count {
        if search.values.is_empty() {
            return Ok(Sight::Nothing);
        }
        return Ok(Sight::Deeper);
    }
    if does(alloc, &search.wanted, &made)? {
        Ok(Sight::Right(Terms::from_vec(made)))
    } else {
        Ok(Sight::Nothing)
    }
}

/// Passes over the choices that begin with the values chosen so far, among so many values.
pub fn pass(walk: &mut Walk, values: usize)
    requires { walk.old.is_over ≡ false }
    ensures behind { (test : List Word → Bool) (vs : List Word) → length vs ≡ values
        → choices_left test vs walk.new ≡ choices_behind test vs walk.old }
    ensures less { nodes_left values walk.new < nodes_left values walk.old }
{
    while !walk.places.is_empty() {
        let last = walk.places.len() - 1;
        let place = walk.places[last];
        if values.saturating_sub(place) > 1 {
            walk.places[last] = place + 1;
            return;
        }
        let _ = walk.places.pop();
    }
    walk.is_over = true;
}

/// Goes on to the first right choice that is left, and tells it; it is left still.
pub fn seek(
    alloc: Global,
    search: &Search<'_>,
    walk: &mut Walk,
) -> Result<Option<Terms>, OutOfMemory>
    requires { IsWithin search.now.wanted }
    ensures kept { choices_left (wanted_does search.now.wanted) search.now.values.now walk.new
        ≡ choices_left (wanted_does search.now.wanted) search.now.values.now walk.old }
    ensures first { IfOk result (IsFirstLeft (wanted_does search.now.wanted) search.now.values.now walk.new) }
{
    while !walk.is_over {
        match look(alloc, search, walk)? {
            Sight::Nothing => pass(walk, search.values.len()),
            Sight::Right(terms) => return Ok(Some(terms)),
            Sight::Deeper => walk.places.push(0)?,
        }
    }
    Ok(None)
}

/// The first right choices of so many terms, in lexicographic order.
pub fn choices(
    alloc: Global,
    search: &Search<'_>,
    count: usize,
    most: u32,
) -> Result<Vec<Terms>, OutOfMemory>
    requires { IsWithin search.now.wanted }
    ensures { IfOk result (λ v. v.items ≡ first_choices most search.now.wanted count search.now.values.now) }
{
    let mut walk = begin(alloc, count);
    let mut found = Vec::new(alloc);
    while found.len() < most as usize {
        let Some(terms) = seek(alloc, search, &mut walk)? else {
            return Ok(found);
        };
        found.push(terms)?;
        pass(&mut walk, search.values.len());
    }
    Ok(found)
}
