// Rules that name atoms by their places.
ghost use Rattle.std.specs.Prelude.{◌≡◌, ◌≤◌, [], ◌∷◌, ◌++◌, IfOk, OnOk, length};
ghost use Rattle.search_moves.specs.Entailments.{choices as choices_of, unfolds as unfolds_of};
ghost use Rattle.search_moves.specs.Entailments.{pure_rights as pure_rights_of, rewrites as rewrites_of, side_of};
ghost use Rattle.search_moves.specs.Entailments.{frames_from, cell_frames as cell_frames_of};
ghost use Rattle.search_moves.specs.Entailments.{predicate_frames as predicate_frames_of};

use crate::folds::{is_cell, is_predicate};
use cyc_basics::limits::MOST_PURE;
use cyc_basics::memory::OutOfMemory;
use heap_formula::{Heap, Pure, Rule, Side, Spatial, Term};
use rule_table::same_term;
use std::alloc::Global;

/// The side of an equation that gives way.
fn side(atom: Pure) -> Option<Side>
    ensures { result ≡ side_of atom }
{
    match atom {
        Pure::Eq(Term::Nil, right) => if same_term(Term::Nil, right) {
            Some(Side::Left)
        } else {
            Some(Side::Right)
        },
        Pure::Eq(_, _) => Some(Side::Left),
        Pure::Neq(_, _) => None,
    }
}

/// The one rule.
pub fn alone(alloc: Global, rule: Rule) -> Result<Vec<Rule>, OutOfMemory>
    ensures { IfOk result (λ v. v.items ≡ rule ∷ []) }
{
    let mut rules = Vec::new(alloc);
    rules.push(rule)?;
    Ok(rules)
}

/// Rewrite by the first equation.
pub fn rewrites(alloc: Global, pures: &[Pure]) -> Result<Vec<Rule>, OutOfMemory>
    requires { length pures.now ≤ MOST_PURE }
    ensures { IfOk result (λ v. v.items ≡ rewrites_of pures.now) }
{
    for (k, atom) in pures.iter().enumerate() {
        if let Some(side) = side(*atom) {
            return alone(alloc, Rule::Rewrite(k as u32, side));
        }
    }
    Ok(Vec::new(alloc))
}

/// Choose, for each disjunct.
pub fn choices(alloc: Global, heaps: &[Heap]) -> Result<Vec<Rule>, OutOfMemory>
    requires { length heaps.now ≤ 64 }
    ensures { IfOk result (λ v. v.items ≡ choices_of heaps.now) }
{
    let mut rules = Vec::new(alloc);
    for (k, _heap) in heaps.iter().enumerate() {
        rules.push(Rule::Choose(k as u32))?;
    }
    Ok(rules)
}

/// Appends Unfold, for each predicate atom.
pub fn push_unfolds(rules: &mut Vec<Rule>, atoms: &[Spatial]) -> Result<(), OutOfMemory>
    requires { length atoms.now ≤ 64 }
    ensures { OnOk result (rules.new.items ≡ rules.old.items ++ unfolds_of atoms.now) }
{
    for (k, atom) in atoms.iter().enumerate() {
        if is_predicate(atom) {
            rules.push(Rule::Unfold(k as u32))?;
        }
    }
    Ok(())
}

/// PureRight, for each pure atom.
pub fn pure_rights(alloc: Global, pures: &[Pure]) -> Result<Vec<Rule>, OutOfMemory>
    requires { length pures.now ≤ MOST_PURE }
    ensures { IfOk result (λ v. v.items ≡ pure_rights_of pures.now) }
{
    let mut rules = Vec::new(alloc);
    for (k, _atom) in pures.iter().enumerate() {
        rules.push(Rule::PureRight(k as u32))?;
    }
    Ok(rules)
}

/// Frame of the left atom at a place, with each on the right.
fn push_frames(rules: &mut Vec<Rule>, i: u32, right: &[Spatial]) -> Result<(), OutOfMemory>
    requires { length right.now ≤ 64 }
    ensures { OnOk result (rules.new.items ≡ rules.old.items ++ frames_from right.now i) }
{
    for (k, _atom) in right.iter().enumerate() {
        rules.push(Rule::Frame(i, k as u32))?;
    }
    Ok(())
}

/// Frame of each cell of the left with each atom of the right.
pub fn cell_frames(
    alloc: Global,
    left: &[Spatial],
    right: &[Spatial],
) -> Result<Vec<Rule>, OutOfMemory>
    requires left { length left.now ≤ 64 }
    requires right { length right.now ≤ 64 }
    ensures { IfOk result (λ v. v.items ≡ cell_frames_of left.now right.now) }
{
    let mut rules = Vec::new(alloc);
    for (i, atom) in left.iter().enumerate() {
        if is_cell(atom) {
            push_frames(&mut rules, i as u32, right)?;
        }
    }
    Ok(rules)
}

/// Frame of each predicate atom of the left with each atom of the right.
pub fn predicate_frames(
    alloc: Global,
    left: &[Spatial],
    right: &[Spatial],
) -> Result<Vec<Rule>, OutOfMemory>
    requires left { length left.now ≤ 64 }
    requires right { length right.now ≤ 64 }
    ensures { IfOk result (λ v. v.items ≡ predicate_frames_of left.now right.now) }
{
    let mut rules = Vec::new(alloc);
    for (i, atom) in left.iter().enumerate() {
        if is_predicate(atom) {
            push_frames(&mut rules, i as u32, right)?;
        }
    }
    Ok(rules)
}
