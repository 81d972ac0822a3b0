// Placing a case's atoms among those of a state.
ghost use Rattle.std.specs.Prelude.{◌≡◌, ◌≤◌, ◌++◌, ◌∷◌, [], Some, IfOk, OnOk, length};
ghost use Rattle.search_moves.specs.Folds.{bind_atom as atom_bound, folds_of_case, folds_of, folds as folds_of_state};
ghost use Rattle.search_moves.specs.Bound.{IsExtended};
ghost use Rattle.search_moves.specs.FoldLimits.{HasFewParameters};
ghost use Rattle.heap_formula.specs.Words.{Each};
ghost use Rattle.search_moves.specs.Placing.{folds_by_placing};

use crate::folds::binding::bind_atom;
use crate::folds::cases::{Fold, can_fold, push_fold};
use cyc_basics::limits::{MOST_ARGUMENTS, MOST_PREDICATES};
use cyc_basics::memory::OutOfMemory;
use heap_formula::{Def, Heap, Rule, Spatial, Term};
use rule_table::is_among;
use std::alloc::Global;

fn with_place(alloc: Global, places: &[u32], place: u32) -> Result<Vec<u32>, OutOfMemory>
    ensures { IfOk result (λ v. v.items ≡ places.now ++ place ∷ []) }
{
    let mut made = Vec::from_slice(alloc, places)?;
    made.push(place)?;
    Ok(made)
}

/// The binding that makes the case's atom the other one too, if there is one.
fn extended(
    alloc: Global,
    binding: &[(Term, Term)],
    atom: &Spatial,
    other: &Spatial,
) -> Result<Option<Vec<(Term, Term)>>, OutOfMemory>
    ensures { IfOk result (λ o. IsExtended (atom_bound binding.now atom.now other.now) o) }
{
    let mut bound = Vec::from_slice(alloc, binding)?;
    if !bind_atom(&mut bound, atom, other)? {
        return Ok(None);
    }
    Ok(Some(bound))
}

/// Appends a fold for each way to place these atoms of the case, those before them being at the places.
fn place_atoms(
    rules: &mut Vec<Rule>,
    alloc: Global,
    fold: &Fold<'_>,
    atoms: &[Spatial],
    places: &[u32],
    binding: &[(Term, Term)],
) -> Result<(), OutOfMemory>
    requires { fold.now.arity ≤ MOST_ARGUMENTS }
    ensures { OnOk result (rules.new.items
        ≡ rules.old.items ++ folds_by_placing fold.now atoms.now places.now binding.now) }
{
    let [atom, rest @ ..] = atoms else {
        return push_fold(rules, alloc, fold, places, binding);
    };
    for (i, other) in fold.state.spatial().iter().enumerate() {
        if !is_among(places, i) {
            if let Some(bound) = extended(alloc, binding, atom, other)? {
                let places = with_place(alloc, places, i as u32)?;
                place_atoms(rules, alloc, fold, rest, &places, &bound)?;
            }
        }
    }
    Ok(())
}

fn push_case(
    rules: &mut Vec<Rule>,
    alloc: Global,
    state: &Heap,
    predicate: u16,
    arity: usize,
    case: &Heap,
) -> Result<(), OutOfMemory>
    requires { arity ≤ MOST_ARGUMENTS }
    ensures { OnOk result (rules.new.items ≡ rules.old.items ++ folds_of_case state.now predicate arity case.now) }
{
    if !can_fold(arity, case) {
        return Ok(());
    }
    let fold = Fold {
        state,
        predicate,
        arity,
        case,
    };
    place_atoms(rules, alloc, &fold, case.spatial(), &[], &[])
}

fn push_predicate(
    rules: &mut Vec<Rule>,
    alloc: Global,
    state: &Heap,
    predicate: u16,
    def: &Def,
) -> Result<(), OutOfMemory>
    requires { def.now.arity ≤ MOST_ARGUMENTS }
    ensures { OnOk result (rules.new.items ≡ rules.old.items ++ folds_of state.now predicate def.now) }
{
    for case in def.cases.heaps() {
        push_case(rules, alloc, state, predicate, def.arity as usize, case)?;
    }
    Ok(())
}

/// A Cut for each way to fold atoms of the state into a predicate, by predicate, then by case, then by places.
pub fn folds(alloc: Global, state: &Heap, defs: &[Def]) -> Result<Vec<Rule>, OutOfMemory>
    requires parameters { Each HasFewParameters defs.now }
    requires few { length defs.now ≤ MOST_PREDICATES }
    ensures { IfOk result (λ v. v.items ≡ folds_of_state state.now defs.now) }
{
    let mut rules = Vec::new(alloc);
    for (q, def) in defs.iter().enumerate() {
        push_predicate(&mut rules, alloc, state, q as u16, def)?;
    }
    Ok(rules)
}
