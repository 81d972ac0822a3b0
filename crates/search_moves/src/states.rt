// The rules at a symbolic state of a program, line by line.
ghost use Rattle.std.specs.Prelude.{◌≡◌, ◌<◌, [], ◌∷◌, ◌++◌, IfOk, OnOk, MatchOption, Some, None, length};
ghost use Rattle.std.specs.List.{list_any};
ghost use Rattle.heap_formula.specs.Programs.{counted_from_one, program_variables};
ghost use Rattle.rule_table.specs.Tests.{equated as are_equated};
ghost use Rattle.search_moves.specs.Settings.{theory_of};
ghost use Rattle.search_moves.specs.States.{wanted_cell as wanted_by, is_stop, reaches as reaches_term};
ghost use Rattle.search_moves.specs.States.{unfolds_at as unfolds_at_term, lacks_cell, cell_unfolds, stops_that_go};
ghost use Rattle.search_moves.specs.States.{folds_if, state_rewrites as state_rewrites_of, state_after};
ghost use Rattle.heap_formula.specs.Words.{Each};
ghost use Rattle.search_moves.specs.FoldLimits.{HasFewParameters};
ghost use Rattle.search_moves.specs.Places.{first_line};

use crate::entailments::rule_alone;
use crate::equations::state_rewrites;
use crate::folds::folds;
use crate::setting::{GoalSetting, those_that_go};
use crate::ways::{came_by_exec, was_worked_on};
use cyc_basics::memory::OutOfMemory;
use derivations::tableaux::MadeNode;
use goto_lang::Program;
use heap_formula::{
    Command, Heap, Judgement, Pure, Reason, Rule, RuleError, RuleFault, Spatial, Term,
};
use rule_book::premises;
use rule_table::equated;
use std::alloc::Global;

/// The command of a line, if there is such a line.
pub fn command_at(program: &Program, line: u32) -> Option<&Command>
    ensures { MatchOption result (counted_from_one program.now line ≡ None) (λ c. counted_from_one program.now line
        ≡ Some c.now) }
{
    if line == 0 {
        return None;
    }
    program.lines().get(line as usize - 1)
}

/// The address at which the command of a line wants a cell.
fn wanted_cell(program: &Program, line: u32) -> Option<Term>
    ensures { result ≡ wanted_by (counted_from_one program.now line) }
{
    match command_at(program, line) {
        Some(Command::Load(_, t, _) | Command::Store(t, _, _) | Command::Free(t)) => Some(*t),
        _ => None,
    }
}

/// Whether the line's command is `stop`, with an end or without.
fn is_at_stop(program: &Program, line: u32) -> bool
    ensures { result ≡ is_stop (counted_from_one program.now line) }
{
    matches!(
        command_at(program, line),
        Some(Command::Stop | Command::Ends(_))
    )
}

fn one_is_equated(pures: &[Pure], term: Term, args: &[Term]) -> bool
    ensures { result ≡ list_any (λ u. are_equated pures.now u term) args.now }
{
    for arg in args {
        if equated(pures, *arg, term) {
            return true;
        }
    }
    false
}

fn reaches(pures: &[Pure], term: Term, atom: &Spatial) -> bool
    ensures { result ≡ reaches_term pures.now term atom.now }
{
    match atom {
        Spatial::Cell(_, _) => false,
        Spatial::Pred(_, args) => one_is_equated(pures, term, args.as_slice()),
    }
}

/// Appends Unfold for each predicate that may have a cell at the term.
fn push_unfolds_at(rules: &mut Vec<Rule>, state: &Heap, term: Term) -> Result<(), OutOfMemory>
    ensures { OnOk result (rules.new.items ≡ rules.old.items ++ unfolds_at_term state.now term) }
{
    for (k, atom) in state.spatial().iter().enumerate() {
        if reaches(state.pure(), term, atom) {
            rules.push(Rule::Unfold(k as u32))?;
        }
    }
    Ok(())
}

fn misses_cell(alloc: Global, at: &GoalSetting<'_>) -> Result<bool, OutOfMemory>
    ensures { IfOk result (λ b. b ≡ lacks_cell (theory_of at.now) at.now.judgement.now) }
{
    match premises(alloc, at.defs, at.program, at.judgement, &Rule::Exec) {
        Ok(_) => Ok(false),
        Err(RuleError::Fault(fault)) => Ok(matches!(fault, RuleFault::NoCell)),
        Err(RuleError::OutOfMemory) => Err(OutOfMemory),
    }
}

/// Where Exec wants a cell and there is none: appends Unfold for the predicates that may have it.
fn push_missing_unfolds(
    rules: &mut Vec<Rule>,
    alloc: Global,
    at: &GoalSetting<'_>,
    line: u32,
    state: &Heap,
) -> Result<(), OutOfMemory>
    ensures { OnOk result (rules.new.items ≡ rules.old.items
        ++ cell_unfolds (theory_of at.now) at.now.judgement.now line state.now) }
{
    if !misses_cell(alloc, at)? {
        return Ok(());
    }
    match wanted_cell(at.program, line) {
        None => Ok(()),
        Some(term) => push_unfolds_at(rules, state, term),
    }
}

/// Exec at `stop`, with an end or without.
fn stops(alloc: Global, at: &GoalSetting<'_>, line: u32) -> Result<Vec<Rule>, OutOfMemory>
    ensures { IfOk result (λ v. v.items ≡ stops_that_go (theory_of at.now) at.now.judgement.now line) }
{
    if !is_at_stop(at.program, line) {
        return Ok(Vec::new(alloc));
    }
    rule_alone(alloc, at, Rule::Exec)
}

/// What goes before links at a state, but for Absurd.
pub fn rules_before(
    alloc: Global,
    at: &GoalSetting<'_>,
    line: u32,
    state: &Heap,
) -> Result<Vec<Rule>, OutOfMemory>
    ensures { IfOk result (λ v. v.items ≡ first_line (stops_that_go (theory_of at.now) at.now.judgement.now line
        ∷ state_rewrites_of (program_variables at.now.program.now) state.now ∷ [])) }
{
    let rules = stops(alloc, at, line)?;
    if !rules.is_empty() {
        return Ok(rules);
    }
    state_rewrites(alloc, at.program.variables(), state)
}

/// The folds, where Exec stands above and the line was worked on before.
fn folds_behind_exec(
    alloc: Global,
    at: &GoalSetting<'_>,
    made: &[MadeNode<Judgement, Reason>],
    parent: u32,
    line: u32,
    state: &Heap,
) -> Result<Vec<Rule>, OutOfMemory>
    requires parameters { Each HasFewParameters at.now.defs.now.list }
    ensures { IfOk result (λ v. v.items ≡ folds_if (theory_of at.now) made.now parent line state.now) }
{
    if came_by_exec(made, parent) && was_worked_on(made, line) {
        return folds(alloc, state, at.defs.as_slice());
    }
    Ok(Vec::new(alloc))
}

/// What comes at a state, a premise of node `parent`, where no link is admitted.
pub fn rules_after(
    alloc: Global,
    at: &GoalSetting<'_>,
    made: &[MadeNode<Judgement, Reason>],
    parent: u32,
    line: u32,
    state: &Heap,
) -> Result<Vec<Rule>, OutOfMemory>
    requires parameters { Each HasFewParameters at.now.defs.now.list }
    ensures { IfOk result (λ v. v.items
        ≡ state_after (theory_of at.now) made.now parent at.now.judgement.now line state.now) }
{
    let mut rules = folds_behind_exec(alloc, at, made, parent, line, state)?;
    rules.push(Rule::Exec)?;
    push_missing_unfolds(&mut rules, alloc, at, line, state)?;
    those_that_go(alloc, at, rules)
}
