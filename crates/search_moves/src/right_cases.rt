// Cases of predicates of the right side.
ghost use Rattle.std.specs.Prelude.{◌≡◌, ◌≤◌, ◌++◌, ℕ, IfOk, OnOk, length, map};
ghost use Rattle.std.specs.List.{list_all};
ghost use Rattle.heap_formula.specs.Substitution.{in_pure, in_spatial};
ghost use Rattle.heap_formula.specs.Meaning.{cases_of};
ghost use Rattle.rule_table.specs.Table.{right_term};
ghost use Rattle.rule_table.specs.Tests.{some_cell_at};
ghost use Rattle.search_moves.specs.Places.{each_place};
ghost use Rattle.search_moves.specs.Settings.{theory_of};
ghost use Rattle.search_moves.specs.Entailments.{has_place as has_place_at, may_follow as may_follow_at};
ghost use Rattle.search_moves.specs.Entailments.{all_may_follow, may_unfold_case, right_unfold_at};
ghost use Rattle.search_moves.specs.Entailments.{right_unfolds as right_unfolds_of};

use crate::distincts::push_distincts_for;
use crate::setting::{GoalSetting, some_goes};
use cyc_basics::memory::OutOfMemory;
use heap_formula::{Args, Heap, Pure, Rule, Spatial, Term};
use rule_table::{follows, is_universal_pure, same_term};
use std::alloc::Global;

/// A case's term at these arguments; a local is an existential.
fn in_case(args: &Args, term: Term) -> Term
    ensures { result ≡ right_term args.now 0 term }
{
    match term {
        Term::Nil => Term::Nil,
        Term::Univ(j) => args
            .as_slice()
            .get(j as usize)
            .copied()
            .unwrap_or(Term::Nil),
        Term::Exist(j) => Term::Exist(j),
    }
}

fn pure_in_case(args: &Args, atom: Pure) -> Pure
    ensures { result ≡ in_pure (right_term args.now 0) atom }
{
    match atom {
        Pure::Eq(t, u) => Pure::Eq(in_case(args, t), in_case(args, u)),
        Pure::Neq(t, u) => Pure::Neq(in_case(args, t), in_case(args, u)),
    }
}

fn has_cell_at(atoms: &[Spatial], address: Term) -> bool
    ensures { result ≡ some_cell_at address atoms.now }
{
    for atom in atoms {
        if let Spatial::Cell(other, _) = atom {
            if same_term(*other, address) {
                return true;
            }
        }
    }
    false
}

/// Whether the atom is no cell, or its address is an existential or that of a cell of the left side.
fn has_place(atoms: &[Spatial], args: &Args, atom: &Spatial) -> bool
    ensures { result ≡ has_place_at atoms.now (in_spatial (right_term args.now 0) atom.now) }
{
    match atom {
        Spatial::Pred(_, _) => true,
        Spatial::Cell(address, _) => match in_case(args, *address) {
            Term::Nil => false,
            Term::Univ(n) => has_cell_at(atoms, Term::Univ(n)),
            Term::Exist(_) => true,
        },
    }
}

fn have_places(atoms: &[Spatial], args: &Args, case: &[Spatial]) -> bool
    ensures { result ≡ list_all (has_place_at atoms.now) (map (in_spatial (right_term args.now 0)) case.now) }
{
    for atom in case {
        if !has_place(atoms, args, atom) {
            return false;
        }
    }
    true
}

/// Whether the atom has an existential, follows, or is a disequation that some Distinct appends.
fn may_follow(
    alloc: Global,
    at: &GoalSetting<'_>,
    left: &Heap,
    atom: Pure,
) -> Result<bool, OutOfMemory>
    ensures { IfOk result (λ b. b ≡ may_follow_at (theory_of at.now) at.now.judgement.now left.now atom) }
{
    if !is_universal_pure(atom) || follows(left.pure(), atom) {
        return Ok(true);
    }
    let mut rules = Vec::new(alloc);
    push_distincts_for(&mut rules, left.spatial(), atom)?;
    some_goes(alloc, at, &rules)
}

fn may_all_follow(
    alloc: Global,
    at: &GoalSetting<'_>,
    left: &Heap,
    args: &Args,
    case: &[Pure],
) -> Result<bool, OutOfMemory>
    ensures { IfOk result (λ b. b ≡ all_may_follow (theory_of at.now) at.now.judgement.now left.now args.now case.now) }
{
    for atom in case {
        if !may_follow(alloc, at, left, pure_in_case(args, *atom))? {
            return Ok(false);
        }
    }
    Ok(true)
}

fn may_unfold(
    alloc: Global,
    at: &GoalSetting<'_>,
    left: &Heap,
    args: &Args,
    case: &Heap,
) -> Result<bool, OutOfMemory>
    ensures { IfOk result (λ b. b
        ≡ may_unfold_case (theory_of at.now) at.now.judgement.now left.now args.now case.now) }
{
    if !have_places(left.spatial(), args, case.spatial()) {
        return Ok(false);
    }
    may_all_follow(alloc, at, left, args, case.pure())
}

/// Appends UnfoldRight of the predicate atom at a place, for each case that passes both tests.
fn push_cases(
    rules: &mut Vec<Rule>,
    alloc: Global,
    at: &GoalSetting<'_>,
    left: &Heap,
    k: u32,
    args: &Args,
    cases: &[Heap],
) -> Result<(), OutOfMemory>
    requires { length cases.now ≤ 65536 }
    ensures { OnOk result (rules.new.items ≡ rules.old.items
        ++ each_place (right_unfold_at (theory_of at.now) at.now.judgement.now left.now k args.now) cases.now) }
{
    for (c, case) in cases.iter().enumerate() {
        if may_unfold(alloc, at, left, args, case)? {
            rules.push(Rule::UnfoldRight(k, c as u32))?;
        }
    }
    Ok(())
}

/// Appends UnfoldRight for each predicate atom of the right side and each case that passes both tests.
pub fn push_right_unfolds(
    rules: &mut Vec<Rule>,
    alloc: Global,
    at: &GoalSetting<'_>,
    left: &Heap,
    right: &[Spatial],
) -> Result<(), OutOfMemory>
    requires cases { (q : ℕ) → length (cases_of at.now.defs.now.list q) ≤ 65536 }
    requires few { length right.now ≤ 64 }
    ensures { OnOk result (rules.new.items ≡ rules.old.items
        ++ right_unfolds_of (theory_of at.now) at.now.judgement.now left.now right.now) }
{
    for (k, atom) in right.iter().enumerate() {
        if let Spatial::Pred(q, args) = atom {
            push_cases(rules, alloc, at, left, k as u32, args, at.defs.cases(*q))?;
        }
    }
    Ok(())
}
