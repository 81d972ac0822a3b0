// Cases of two formulas that both hold.
ghost use Rattle.std.specs.Prelude.{◌≡◌, ◌++◌, List, IfOk, OnOk};
ghost use Rattle.script_formulas.specs.Cases.{SymbolicCase};
ghost use Rattle.script_formulas.specs.Joining.{way_refusal as refusal_of_way, size_refusal as refusal_of_size, join};
ghost use Rattle.script_formulas.specs.Joining.{join_with, join_all, all_of};

use crate::cases::case::{Case, MOST_QUANTIFIED};
use crate::cases::refused::{Refused, Unsupported};
use crate::cases::shifting::{push_atoms, push_pures};
use crate::limits::widest_limits;
use std::alloc::Global;

/// Cases of a formula, at most.
const MOST_FORMULA_CASES: usize = 4096;

/// How two formulas hold together: of one heap, or of separate parts.
#[derive(Clone, Copy)]
pub enum Way {
    Conjunction,
    Separation,
}

/// Why two cases can't hold together in one.
fn way_refusal(way: Way, a: &Case, b: &Case) -> Option<Unsupported>
    ensures { result ≡ refusal_of_way way a.now.any_heap b.now.any_heap }
{
    match way {
        Way::Conjunction if !a.any_heap() && !b.any_heap() => Some(Unsupported::Conjunction),
        Way::Separation if a.any_heap() || b.any_heap() => Some(Unsupported::OpenPart),
        _ => None,
    }
}

fn size_refusal(a: &Case, b: &Case) -> Option<Unsupported>
    ensures { result ≡ refusal_of_size a.now b.now }
{
    if a.quantified() > MOST_QUANTIFIED || b.quantified() > MOST_QUANTIFIED - a.quantified() {
        return Some(Unsupported::Quantifiers);
    }
    let limits = widest_limits();
    let pure = limits.pure as usize;
    if a.pure().len() > pure || b.pure().len() > pure - a.pure().len() {
        return Some(Unsupported::PureAtoms);
    }
    let spatial = limits.spatial as usize;
    if a.atoms().len() > spatial || b.atoms().len() > spatial - a.atoms().len() {
        return Some(Unsupported::HeapAtoms);
    }
    None
}

/// Both cases in one.
fn joined(alloc: Global, way: Way, depth: u16, a: &Case, b: &Case) -> Result<Case, Refused>
    ensures value { IfOk result (λ c. join way depth a.now b.now ≡ Ok c) }
{
    if let Some(unsupported) = way_refusal(way, a, b) {
        return Err(Refused::Unsupported(unsupported));
    }
    if let Some(unsupported) = size_refusal(a, b) {
        return Err(Refused::Unsupported(unsupported));
    }
    let mut pure = Vec::from_slice(alloc, a.pure())?;
    let mut atoms = Vec::from_slice(alloc, a.atoms())?;
    let by = a.quantified();
    push_pures(&mut pure, b.pure(), depth, by)?;
    push_atoms(&mut atoms, b.atoms(), depth, by)?;
    Ok(Case::from_parts(
        by + b.quantified(),
        a.any_heap() && b.any_heap(),
        pure,
        atoms,
    ))
}

fn push_joined(
    alloc: Global,
    way: Way,
    depth: u16,
    made: &mut Vec<Case>,
    a: &Case,
    bs: &[Case],
) -> Result<(), Refused>
    ensures { OnOk result ((cs : List SymbolicCase) × (join_with way depth a.now bs.now ≡ Ok cs)
        × (made.new.items ≡ made.old.items ++ cs)) }
{
    for b in bs {
        made.push(joined(alloc, way, depth, a, b)?)?;
    }
    Ok(())
}

/// The cases in which a case of each list holds, in order, the first list's order before the second's.
pub fn joined_cases(
    alloc: Global,
    way: Way,
    depth: u16,
    first: &[Case],
    second: &[Case],
) -> Result<Vec<Case>, Refused>
    ensures { IfOk result (λ cs. join_all way depth first.now second.now ≡ Ok cs.items) }
{
    if first.len() > MOST_FORMULA_CASES / second.len().max(1) {
        return Err(Refused::Unsupported(Unsupported::Cases));
    }
    let mut made = Vec::new(alloc);
    for a in first {
        push_joined(alloc, way, depth, &mut made, a, second)?;
    }
    Ok(made)
}

/// The cases of both lists.
pub fn all_cases(first: Vec<Case>, second: Vec<Case>) -> Result<Vec<Case>, Refused>
    ensures { IfOk result (λ cs. all_of first.items second.items ≡ Ok cs.items) }
{
    if first.len() > MOST_FORMULA_CASES || second.len() > MOST_FORMULA_CASES - first.len() {
        return Err(Refused::Unsupported(Unsupported::Cases));
    }
    let mut made = first;
    for case in second {
        made.push(case)?;
    }
    Ok(made)
}
