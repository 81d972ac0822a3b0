// Which rules have no fault.
ghost use Rattle.std.specs.Prelude.{◌≡◌, ◌≤◌, IfOk, length, take};
ghost use Rattle.std.specs.List.{filter};
ghost use Rattle.search_moves.specs.Places.{first_that};
ghost use Rattle.fo_search.specs.Trying.{is_applicable as is_applicable_at};
ghost use Rattle.fo_search.specs.Trying.{is_applicable_within as is_applicable_within_at};

use cyc_basics::limits::{MOST_LEFT, MOST_RIGHT};
use cyc_basics::memory::OutOfMemory;
use fo_formula::table::FoRuleError;
use fo_formula::{FoRule, FoSequent, FoTheory};
use fo_rules::premises;
use std::alloc::Global;

/// Whether the rule has no fault; its premises are made and dropped.
fn is_applicable(
    alloc: Global,
    theory: &FoTheory,
    sequent: &FoSequent,
    rule: &FoRule,
) -> Result<bool, OutOfMemory>
    requires left_fits { length sequent.now.left ≤ MOST_LEFT }
    requires right_fits { length sequent.now.right ≤ MOST_RIGHT }
    ensures { IfOk result (λ b. b ≡ is_applicable_at theory.now sequent.now rule.now) }
{
    match premises(alloc, theory, sequent, rule) {
        Ok(_) => Ok(true),
        Err(FoRuleError::Fault(_)) => Ok(false),
        Err(FoRuleError::OutOfMemory) => Err(OutOfMemory),
    }
}

/// Whether the rule has no fault and leaves at most so many premises, which are made and dropped.
pub fn is_applicable_within(
    alloc: Global,
    theory: &FoTheory,
    sequent: &FoSequent,
    rule: &FoRule,
    most: usize,
) -> Result<bool, OutOfMemory>
    requires left_fits { length sequent.now.left ≤ MOST_LEFT }
    requires right_fits { length sequent.now.right ≤ MOST_RIGHT }
    ensures { IfOk result (λ b. b ≡ is_applicable_within_at most theory.now sequent.now rule.now) }
{
    match premises(alloc, theory, sequent, rule) {
        Ok(premises) => Ok(premises.len() <= most),
        Err(FoRuleError::Fault(_)) => Ok(false),
        Err(FoRuleError::OutOfMemory) => Err(OutOfMemory),
    }
}

/// The first rules without a fault, at most so many.
fn first_that_go(
    alloc: Global,
    theory: &FoTheory,
    sequent: &FoSequent,
    mut rules: Vec<FoRule>,
    most: usize,
) -> Result<Vec<FoRule>, OutOfMemory>
    requires left_fits { length sequent.now.left ≤ MOST_LEFT }
    requires right_fits { length sequent.now.right ≤ MOST_RIGHT }
    ensures { IfOk result (λ v. v.items ≡ take most (filter (is_applicable_at theory.now sequent.now) rules.items)) }
{
    let mut kept = 0;
    for k in 0..rules.len() {
        if kept < most && is_applicable(alloc, theory, sequent, &rules[k])? {
            rules.swap(kept, k);
            kept += 1;
        }
    }
    rules.truncate(kept);
    Ok(rules)
}

/// The first rule without a fault.
pub fn first_that_goes(
    alloc: Global,
    theory: &FoTheory,
    sequent: &FoSequent,
    rules: Vec<FoRule>,
) -> Result<Vec<FoRule>, OutOfMemory>
    requires left_fits { length sequent.now.left ≤ MOST_LEFT }
    requires right_fits { length sequent.now.right ≤ MOST_RIGHT }
    ensures { IfOk result (λ v. v.items ≡ first_that (is_applicable_at theory.now sequent.now) rules.items) }
{
    first_that_go(alloc, theory, sequent, rules, 1)
}
