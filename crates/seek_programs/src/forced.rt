// Rules that lose nothing at a `from` judgement.
use crate::heads::command_of;
use cyc_basics::memory::OutOfMemory;
use heap_formula::{
    Command, Heap, Judgement, Pure, Rule, Side, Spatial, Subst, Term, apply_to_heap,
};
use seek_engine::{Setting, mentions};
use std::alloc::Global;

fn is_logic(term: Term, variables: u16) -> bool {
    match term {
        Term::Univ(n) => n >= variables,
        Term::Nil | Term::Exist(_) => false,
    }
}

/// Whether the term stands in the heap outside the pure atom at a place.
fn stands_elsewhere(heap: &Heap, place: usize, term: Term) -> bool {
    for (k, atom) in heap.pure().iter().enumerate() {
        let (Pure::Eq(t, u) | Pure::Neq(t, u)) = *atom;
        if k != place && (t == term || u == term) {
            return true;
        }
    }
    for atom in heap.spatial() {
        if mentions(atom, term) {
            return true;
        }
    }
    false
}

/// The side of an equation that gives way: a logic variable, or a program variable that stands elsewhere.
fn side_of(heap: &Heap, k: usize, t: Term, u: Term, variables: u16) -> Option<Side> {
    if t == u || is_logic(t, variables) {
        return Some(Side::Left);
    }
    if is_logic(u, variables) {
        return Some(Side::Right);
    }
    if t != Term::Nil && stands_elsewhere(heap, k, t) {
        return Some(Side::Left);
    }
    if t == Term::Nil && stands_elsewhere(heap, k, u) {
        return Some(Side::Right);
    }
    None
}

fn rewrite_of(heap: &Heap, variables: u16) -> Option<Rule> {
    for (k, atom) in heap.pure().iter().enumerate() {
        if let Pure::Eq(t, u) = *atom {
            if let Some(side) = side_of(heap, k, t, u, variables) {
                return Some(Rule::Rewrite(k as u32, side));
            }
        }
    }
    None
}

/// How many spatial atoms the antecedent has.
fn count_atoms(judgement: &Judgement) -> usize {
    let (Judgement::Entail(heap, _) | Judgement::Term(_, heap)) = judgement;
    heap.spatial().len()
}

/// Whether each case of the atom at a place that is not absurd has no atoms.
fn is_empty_at(setting: &Setting<'_>, judgement: &Judgement, k: u32) -> Result<bool, OutOfMemory> {
    let Some(premises) = setting.premises(judgement, &Rule::Unfold(k))? else {
        return Ok(false);
    };
    for premise in premises.iter() {
        let case = &premise.judgement;
        if count_atoms(case) >= count_atoms(judgement) && !is_contradictory(setting, case)? {
            return Ok(false);
        }
    }
    Ok(true)
}

/// Unfold of a predicate atom that can only be empty: where the program has an end, it would be over at a link.
fn empty_unfold(
    setting: &Setting<'_>,
    judgement: &Judgement,
    state: &Heap,
) -> Result<Option<Rule>, OutOfMemory> {
    if !setting.program.has_ends() {
        return Ok(None);
    }
    for (k, atom) in state.spatial().iter().enumerate() {
        if is_predicate(atom) && is_empty_at(setting, judgement, k as u32)? {
            return Ok(Some(Rule::Unfold(k as u32)));
        }
    }
    Ok(None)
}

/// Absurd; Exec at `stop`; Rewrite; Unfold of what is empty, where the program has an end.
pub fn forced_rule(
    setting: &Setting<'_>,
    judgement: &Judgement,
    line: u32,
    state: &Heap,
) -> Result<Option<Rule>, OutOfMemory> {
    if setting.is_applicable(judgement, &Rule::Absurd)? {
        return Ok(Some(Rule::Absurd));
    }
    if matches!(
        command_of(setting.program, line),
        Some(Command::Stop | Command::Ends(_))
    ) {
        return Ok(Some(Rule::Exec));
    }
    match rewrite_of(state, setting.variables(judgement)) {
        Some(rule) => Ok(Some(rule)),
        None => empty_unfold(setting, judgement, state),
    }
}

/// The first equation of two different terms as a substitution for its variable.
fn first_binding(heap: &Heap) -> Option<(u16, Term)> {
    for atom in heap.pure() {
        if let Pure::Eq(t, u) = *atom {
            match (t, u) {
                _ if t == u => {}
                (Term::Univ(n), _) => return Some((n, u)),
                (_, Term::Univ(n)) => return Some((n, t)),
                _ => {}
            }
        }
    }
    None
}

/// The heap with a term for a variable.
fn bound(alloc: Global, heap: &Heap, binding: (u16, Term)) -> Result<Heap, OutOfMemory> {
    let mut pairs = Vec::new(alloc);
    pairs.push(binding)?;
    apply_to_heap(alloc, heap, &Subst::from_vec(pairs))
}

/// The heap with one term for the sides of each equation.
fn settled(alloc: Global, heap: &Heap) -> Result<Heap, OutOfMemory> {
    let mut heap = heap.clone()?;
    for _ in 0..64u32 {
        let Some(binding) = first_binding(&heap) else {
            return Ok(heap);
        };
        let next = bound(alloc, &heap, binding);
        drop(heap);
        heap = next?;
    }
    Ok(heap)
}

/// Whether the state is absurd after its equations.
fn is_contradictory(setting: &Setting<'_>, judgement: &Judgement) -> Result<bool, OutOfMemory> {
    let Judgement::Term(line, state) = judgement else {
        return Ok(false);
    };
    let settled = Judgement::Term(*line, settled(setting.alloc, state)?);
    let is_applicable = setting.is_applicable(&settled, &Rule::Absurd);
    drop(settled);
    is_applicable
}

/// Whether Exec is a test of which one outcome is absurd.
pub fn is_decided(setting: &Setting<'_>, judgement: &Judgement) -> Result<bool, OutOfMemory> {
    let Some(premises) = setting.premises(judgement, &Rule::Exec)? else {
        return Ok(false);
    };
    if premises.len() != 2 {
        return Ok(false);
    }
    for premise in premises.iter() {
        if is_contradictory(setting, &premise.judgement)? {
            return Ok(true);
        }
    }
    Ok(false)
}

/// Whether the atom is a predicate's.
pub fn is_predicate(atom: &Spatial) -> bool {
    matches!(atom, Spatial::Pred(_, _))
}
