// The rules at an entailment, line by line: the first line that applies gives all offers.
ghost use Rattle.std.specs.Prelude.{◌≡◌, ◌≤◌, ◌∷◌, [], ℕ, IfOk, length};
ghost use Rattle.std.specs.List.{filter};
ghost use Rattle.heap_formula.specs.Meaning.{cases_of};
ghost use Rattle.search_moves.specs.Settings.{goes_at, theory_of};
ghost use Rattle.search_moves.specs.Entailments.{last_line, several_line, entailment_after};
ghost use Rattle.search_moves.specs.Lines.{rules_on as rules_on_line, offered_from};

use crate::distincts::distincts;
use crate::instances::{argument_rules, equation_rules, field_rules};
use crate::places::{alone, cell_frames, choices, predicate_frames, pure_rights, push_unfolds};
use crate::right_cases::push_right_unfolds;
use crate::setting::{GoalSetting, first_that_goes, those_that_go};
use cyc_basics::memory::OutOfMemory;
use heap_formula::{Heap, Rule};
use std::alloc::Global;

/// A line of rules with one disjunct, of which the first without a fault is offered.
#[derive(Clone, Copy)]
enum Line {
    End,
    PureRights,
    Distincts,
    CellFrames,
    Equations,
    Fields,
    PredicateFrames,
}

/// The lines in their order.
const LINES: [Line; 7] = [
    Line::End,
    Line::PureRights,
    Line::Distincts,
    Line::CellFrames,
    Line::Equations,
    Line::Fields,
    Line::PredicateFrames,
];

/// The one rule, if it has no fault.
pub fn rule_alone(alloc: Global, at: &GoalSetting<'_>, rule: Rule) -> Result<Vec<Rule>, OutOfMemory>
    ensures { IfOk result (λ v. v.items ≡ filter (goes_at at.now) (rule ∷ [])) }
{
    let rules = alone(alloc, rule)?;
    those_that_go(alloc, at, rules)
}

/// Instances by arguments, cases of the right side, and unfolding on the left.
fn last_rules(
    alloc: Global,
    at: &GoalSetting<'_>,
    left: &Heap,
    right: &Heap,
) -> Result<Vec<Rule>, OutOfMemory>
    requires cases { (q : ℕ) → length (cases_of at.now.defs.now.list q) ≤ 65536 }
    ensures { IfOk result (λ v. v.items ≡ last_line (theory_of at.now) at.now.judgement.now left.now right.now) }
{
    let mut rules = argument_rules(alloc, left.spatial(), right.spatial())?;
    push_right_unfolds(&mut rules, alloc, at, left, right.spatial())?;
    push_unfolds(&mut rules, left.spatial())?;
    those_that_go(alloc, at, rules)
}

/// The rules of a line, with and without a fault.
fn rules_on(alloc: Global, left: &Heap, right: &Heap, line: Line) -> Result<Vec<Rule>, OutOfMemory>
    ensures { IfOk result (λ v. v.items ≡ rules_on_line left.now right.now line) }
{
    match line {
        Line::End => alone(alloc, Rule::Done),
        Line::PureRights => pure_rights(alloc, right.pure()),
        Line::Distincts => distincts(alloc, left.spatial(), right.pure()),
        Line::CellFrames => cell_frames(alloc, left.spatial(), right.spatial()),
        Line::Equations => equation_rules(alloc, right.pure()),
        Line::Fields => field_rules(alloc, left.spatial(), right.spatial()),
        Line::PredicateFrames => predicate_frames(alloc, left.spatial(), right.spatial()),
    }
}

/// The rules with one disjunct, from these lines on.
fn offers_from(
    alloc: Global,
    at: &GoalSetting<'_>,
    left: &Heap,
    right: &Heap,
    lines: &[Line],
) -> Result<Vec<Rule>, OutOfMemory>
    requires cases { (q : ℕ) → length (cases_of at.now.defs.now.list q) ≤ 65536 }
    ensures { IfOk result (λ v. v.items
        ≡ offered_from (theory_of at.now) at.now.judgement.now left.now right.now lines.now) }
{
    for line in lines {
        let rules = first_that_goes(alloc, at, rules_on(alloc, left, right, *line)?)?;
        if !rules.is_empty() {
            return Ok(rules);
        }
    }
    last_rules(alloc, at, left, right)
}

/// The rules with several disjuncts.
fn several_offers(
    alloc: Global,
    at: &GoalSetting<'_>,
    left: &Heap,
    heaps: &[Heap],
) -> Result<Vec<Rule>, OutOfMemory>
    requires few { length heaps.now ≤ 64 }
    ensures { IfOk result (λ v. v.items ≡ several_line (theory_of at.now) at.now.judgement.now left.now heaps.now) }
{
    let mut rules = choices(alloc, heaps)?;
    push_unfolds(&mut rules, left.spatial())?;
    those_that_go(alloc, at, rules)
}

/// What comes at an entailment where no link is admitted.
pub fn rules_after(
    alloc: Global,
    at: &GoalSetting<'_>,
    left: &Heap,
    heaps: &[Heap],
) -> Result<Vec<Rule>, OutOfMemory>
    requires cases { (q : ℕ) → length (cases_of at.now.defs.now.list q) ≤ 65536 }
    requires few { length heaps.now ≤ 64 }
    ensures { IfOk result (λ v. v.items ≡ entailment_after (theory_of at.now) at.now.judgement.now left.now heaps.now) }
{
    match heaps {
        [] => Ok(Vec::new(alloc)),
        [right] => offers_from(alloc, at, left, right, &LINES),
        _ => several_offers(alloc, at, left, heaps),
    }
}
