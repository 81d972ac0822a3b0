// Which Distincts tell a disequation.
ghost use Rattle.std.specs.Prelude.{◌≡◌, ◌≤◌, ◌++◌, IfOk, OnOk, length};
ghost use Rattle.search_moves.specs.Entailments.{apart as apart_as, is_or_mirrors, distincts_with};
ghost use Rattle.search_moves.specs.Entailments.{distincts_for as distincts_for_of, distincts as distincts_of};
ghost use Rattle.rule_table.specs.Tests.{address_of};
ghost use Rattle.rule_table.specs.RuleLink.{mirror_pure};

use cyc_basics::memory::OutOfMemory;
use heap_formula::{Pure, Rule, Spatial, Term};
use rule_table::{is_universal_pure, same_pure};
use std::alloc::Global;

fn address(atom: &Spatial) -> Option<Term>
    ensures { result ≡ address_of atom.now }
{
    match atom {
        Spatial::Cell(address, _) => Some(*address),
        Spatial::Pred(_, _) => None,
    }
}

/// The disequation that Distinct appends at these places.
fn apart(i: usize, k: usize, left: &Spatial, right: &Spatial) -> Option<Pure>
    ensures { result ≡ apart_as i k (address_of left.now) (address_of right.now) }
{
    let left = address(left)?;
    let right = address(right)?;
    if i == k {
        return Some(Pure::Neq(left, Term::Nil));
    }
    Some(Pure::Neq(left, right))
}

fn mirror(atom: Pure) -> Pure
    ensures { result ≡ mirror_pure atom }
{
    match atom {
        Pure::Eq(t, u) => Pure::Eq(u, t),
        Pure::Neq(t, u) => Pure::Neq(u, t),
    }
}

/// Whether an atom is the other one or its mirror image.
fn is_told(atom: Pure, told: Option<Pure>) -> bool
    ensures { result ≡ is_or_mirrors atom told }
{
    match told {
        None => false,
        Some(told) => same_pure(told, atom) || same_pure(told, mirror(atom)),
    }
}

fn push_distincts(
    rules: &mut Vec<Rule>,
    wanted: Pure,
    i: usize,
    left: &Spatial,
    atoms: &[Spatial],
) -> Result<(), OutOfMemory>
    requires place { i ≤ 64 }
    requires few { length atoms.now ≤ 64 }
    ensures { OnOk result (rules.new.items ≡ rules.old.items ++ distincts_with wanted atoms.now i left.now) }
{
    for (k, right) in atoms.iter().enumerate() {
        if is_told(wanted, apart(i, k, left, right)) {
            rules.push(Rule::Distinct(i as u32, k as u32))?;
        }
    }
    Ok(())
}

/// Appends the Distincts that append the atom or its mirror image.
pub fn push_distincts_for(
    rules: &mut Vec<Rule>,
    atoms: &[Spatial],
    wanted: Pure,
) -> Result<(), OutOfMemory>
    requires { length atoms.now ≤ 64 }
    ensures { OnOk result (rules.new.items ≡ rules.old.items ++ distincts_for_of atoms.now wanted) }
{
    for (i, left) in atoms.iter().enumerate() {
        push_distincts(rules, wanted, i, left, atoms)?;
    }
    Ok(())
}

/// The Distincts that append one of the pure atoms without existentials, or its mirror image.
pub fn distincts(alloc: Global, atoms: &[Spatial], pures: &[Pure]) -> Result<Vec<Rule>, OutOfMemory>
    requires { length atoms.now ≤ 64 }
    ensures { IfOk result (λ v. v.items ≡ distincts_of atoms.now pures.now) }
{
    let mut rules = Vec::new(alloc);
    for wanted in pures {
        if is_universal_pure(*wanted) {
            push_distincts_for(&mut rules, atoms, *wanted)?;
        }
    }
    Ok(rules)
}
