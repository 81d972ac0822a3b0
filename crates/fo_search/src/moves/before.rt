// The rules that go before links.
ghost use Rattle.std.specs.Prelude.{◌≡◌, ◌≤◌, ◌++◌, IfOk, OnOk, length};
ghost use Rattle.search_moves.specs.Places.{each_place};
ghost use Rattle.fo_search.specs.Before.{axiom_at, replace_at, rules_before as offers_before};
ghost use Rattle.fo_search.specs.Lines.{line_at, AddsForAny, atoms_on as atoms_on_line, rules_on as rules_on_line};
ghost use Rattle.fo_search.specs.Lines.{offered_from};

use crate::moves::trying::first_that_goes;
use cyc_basics::limits::{MOST_LEFT, MOST_RIGHT};
use cyc_basics::memory::OutOfMemory;
use fo_formula::{FoAtom, FoRule, FoSequent, FoTheory, Side};
use std::alloc::Global;

/// A line of rules for each atom of a side, of which the first without a fault is offered.
enum Line {
    /// For each atom on the left with each on the right.
    Axioms,
    /// For each atom on the right.
    Refls,
    /// For each atom on the left.
    Clashes,
    /// For each atom on the left.
    Decompositions,
    /// For each atom on the left, the left side first.
    Replacements,
}

/// The lines in their order.
const LINES: [Line; 5] = [
    Line::Axioms,
    Line::Refls,
    Line::Clashes,
    Line::Decompositions,
    Line::Replacements,
];

fn push_axioms(rules: &mut Vec<FoRule>, left: u32, atoms: &[FoAtom]) -> Result<(), OutOfMemory>
    requires { length atoms.now ≤ MOST_LEFT }
    ensures { OnOk result (rules.new.items ≡ rules.old.items ++ each_place (axiom_at left) atoms.now) }
{
    for (j, _atom) in atoms.iter().enumerate() {
        rules.push(FoRule::Axiom {
            left,
            right: j as u32,
        })?;
    }
    Ok(())
}

fn push_replacements(rules: &mut Vec<FoRule>, atom: u32) -> Result<(), OutOfMemory>
    ensures { OnOk result (AddsForAny (replace_at atom) rules.old.items rules.new.items) }
{
    rules.push(FoRule::Replace {
        atom,
        side: Side::Left,
    })?;
    rules.push(FoRule::Replace {
        atom,
        side: Side::Right,
    })?;
    Ok(())
}

/// Adds the rules of a line for the atom at a place.
fn push_rules_at(
    rules: &mut Vec<FoRule>,
    line: &Line,
    place: u32,
    right: &[FoAtom],
) -> Result<(), OutOfMemory>
    requires { length right.now ≤ MOST_LEFT }
    ensures { OnOk result (AddsForAny (line_at right.now line.now place) rules.old.items rules.new.items) }
{
    let rule = match line {
        Line::Axioms => return push_axioms(rules, place, right),
        Line::Refls => FoRule::Refl(place),
        Line::Clashes => FoRule::Clash(place),
        Line::Decompositions => FoRule::Decompose(place),
        Line::Replacements => return push_replacements(rules, place),
    };
    rules.push(rule)?;
    Ok(())
}

/// The atoms for which a line has rules.
fn atoms_on<'a>(sequent: &'a FoSequent, line: &Line) -> &'a [FoAtom]
    ensures { result.now ≡ atoms_on_line sequent.now line.now }
{
    match line {
        Line::Refls => sequent.right.as_slice(),
        _ => sequent.left.as_slice(),
    }
}

/// The rules of a line, with and without a fault.
fn rules_on(alloc: Global, sequent: &FoSequent, line: &Line) -> Result<Vec<FoRule>, OutOfMemory>
    requires left_fits { length sequent.now.left ≤ MOST_LEFT }
    requires right_fits { length sequent.now.right ≤ MOST_RIGHT }
    ensures { IfOk result (λ v. v.items ≡ rules_on_line sequent.now line.now) }
{
    let mut rules = Vec::new(alloc);
    let right = sequent.right.as_slice();
    for k in 0..atoms_on(sequent, line).len() {
        push_rules_at(&mut rules, line, k as u32, right)?;
    }
    Ok(rules)
}

/// The rules by the first of these lines that applies.
fn offers_from(
    alloc: Global,
    theory: &FoTheory,
    sequent: &FoSequent,
    lines: &[Line],
) -> Result<Vec<FoRule>, OutOfMemory>
    requires left_fits { length sequent.now.left ≤ MOST_LEFT }
    requires right_fits { length sequent.now.right ≤ MOST_RIGHT }
    ensures { IfOk result (λ v. v.items ≡ offered_from theory.now sequent.now lines.now) }
{
    for line in lines {
        let rules = first_that_goes(alloc, theory, sequent, rules_on(alloc, sequent, line)?)?;
        if !rules.is_empty() {
            return Ok(rules);
        }
    }
    Ok(Vec::new(alloc))
}

/// What is offered before links are looked at: the first of Axiom, Refl, Clash, Decompose and Replace that has no fault
/// with some numbers, with the least of these, the left side of an equation first. The sequent has at most 32 atoms on
/// the left and 16 on the right.
pub fn rules_before(
    alloc: Global,
    theory: &FoTheory,
    sequent: &FoSequent,
) -> Result<Vec<FoRule>, OutOfMemory>
    requires left_fits { length sequent.now.left ≤ MOST_LEFT }
    requires right_fits { length sequent.now.right ≤ MOST_RIGHT }
    ensures { IfOk result (λ v. v.items ≡ offers_before theory.now sequent.now) }
{
    offers_from(alloc, theory, sequent, &LINES)
}
