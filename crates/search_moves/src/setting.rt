// What is assumed, and which rules have no fault.
ghost use Rattle.std.specs.Prelude.{◌≡◌, IfOk, false, take};
ghost use Rattle.std.specs.List.{filter, list_any};
ghost use Rattle.search_moves.specs.Places.{first_that};
ghost use Rattle.search_moves.specs.Settings.{goes_at};

use crate::faults::{
    done_applies, has_room_left, has_room_right, may_choose, may_drop_right, may_frame,
    may_instantiate,
};
use cyc_basics::memory::OutOfMemory;
use goto_lang::Program;
use heap_formula::{Judgement, Rule, RuleError};
use pred_defs::Defs;
use rule_book::premises;
use std::alloc::Global;

/// A judgement, and what is assumed: the definitions and the program.
#[derive(Clone, Copy)]
pub struct GoalSetting<'a> {
    pub defs: &'a Defs,
    pub program: &'a Program,
    pub judgement: &'a Judgement,
}

/// Whether the rule has no fault.
pub fn is_applicable(alloc: Global, at: &GoalSetting<'_>, rule: &Rule) -> Result<bool, OutOfMemory>
    ensures { IfOk result (λ b. b ≡ goes_at at.now rule.now) }
{
    let judgement = at.judgement;
    match rule {
        Rule::Done => Ok(done_applies(judgement)),
        Rule::Choose(k) => Ok(may_choose(judgement, *k)),
        Rule::PureRight(k) => Ok(may_drop_right(judgement, *k)),
        Rule::Instantiate(_, _) => Ok(may_instantiate(judgement)),
        Rule::Frame(i, k) => Ok(may_frame(judgement, *i, *k)),
        Rule::Unfold(k) if has_room_left(at.defs, at.program, judgement, *k) => Ok(true),
        Rule::UnfoldRight(k, c) if has_room_right(at.defs, judgement, *k, *c) => Ok(true),
        _ => has_answer(alloc, at, rule),
    }
}

/// Whether the rule has premises, which are made and dropped.
fn has_answer(alloc: Global, at: &GoalSetting<'_>, rule: &Rule) -> Result<bool, OutOfMemory>
    ensures { IfOk result (λ b. b ≡ goes_at at.now rule.now) }
{
    match premises(alloc, at.defs, at.program, at.judgement, rule) {
        Ok(_) => Ok(true),
        Err(RuleError::Fault(_)) => Ok(false),
        Err(RuleError::OutOfMemory) => Err(OutOfMemory),
    }
}

/// The first rules without a fault, at most so many.
fn first_that_go(
    alloc: Global,
    at: &GoalSetting<'_>,
    mut rules: Vec<Rule>,
    most: usize,
) -> Result<Vec<Rule>, OutOfMemory>
    ensures { IfOk result (λ v. v.items ≡ take most (filter (goes_at at.now) rules.items)) }
{
    let mut kept = 0;
    for k in 0..rules.len() {
        if kept < most && is_applicable(alloc, at, &rules[k])? {
            rules.swap(kept, k);
            kept += 1;
        }
    }
    rules.truncate(kept);
    Ok(rules)
}

/// The rules without a fault.
pub fn those_that_go(
    alloc: Global,
    at: &GoalSetting<'_>,
    rules: Vec<Rule>,
) -> Result<Vec<Rule>, OutOfMemory>
    ensures { IfOk result (λ v. v.items ≡ filter (goes_at at.now) rules.items) }
{
    let most = rules.len();
    first_that_go(alloc, at, rules, most)
}

/// The first rule without a fault.
pub fn first_that_goes(
    alloc: Global,
    at: &GoalSetting<'_>,
    rules: Vec<Rule>,
) -> Result<Vec<Rule>, OutOfMemory>
    ensures { IfOk result (λ v. v.items ≡ first_that (goes_at at.now) rules.items) }
{
    first_that_go(alloc, at, rules, 1)
}

/// Whether one of the rules has no fault.
pub fn some_goes(alloc: Global, at: &GoalSetting<'_>, rules: &[Rule]) -> Result<bool, OutOfMemory>
    ensures { IfOk result (λ b. b ≡ list_any (goes_at at.now) rules.now) }
{
    for rule in rules {
        if is_applicable(alloc, at, rule)? {
            return Ok(true);
        }
    }
    Ok(false)
}
