// The premises at each command.
ghost use Rattle.std.specs.Prelude.{◌≡◌, ◌≤◌, ◌<◌, ◌+◌, IfOk, length};
ghost use Rattle.heap_formula.specs.declared.atoms.Pure.TheVariants.{Eq};
ghost use Rattle.heap_formula.specs.declared.commands.Command.TheVariants.{Load, Store, New, Free, IfAny, Goto, Ends};
ghost use Rattle.heap_formula.specs.declared.judgements.Judgement.TheVariants.{Term as Runs};
ghost use Rattle.heap_formula.specs.Positions.{before, pairs_from};
ghost use Rattle.rule_table.specs.Answer.{limited, one};
ghost use Rattle.rule_table.specs.Answered.{IsAnswer};
ghost use Rattle.rule_table.specs.ExecTable.{at_line as premise_at, with_field as heap_with_field, command_answer};
ghost use Rattle.symbolic_exec.specs.Cells.{found_of};
ghost use Rattle.symbolic_exec.specs.States.{has_room_for, IsSetting, new_fields, after_assignment, branch_premises};

use crate::cells::{FoundCell, cell_at, field_at, with_field};
use crate::states::{allocated, assigned, at_line, only_at_line, with_atom};
use cyc_basics::limits::{Limits, MOST_ARGUMENTS, MOST_PURE};
use cyc_basics::memory::OutOfMemory;
use heap_formula::{
    Command, Disjuncts, Heap, Judgement, Premise, Pure, RuleError, RuleFault, Spatial, Term,
};
use rule_table::{
    are_short, is_short, numbered, one_premise, pairs_of_kept, two_premises, with_disjuncts,
};
use std::alloc::Global;

/// What premises depend on besides the command and the state: the command's line, the number of a fresh variable, and
/// the limits of the format's version.
#[derive(Clone, Copy)]
pub struct LineSetting {
    pub line: u32,
    pub fresh: u32,
    pub most: Limits,
}

fn has_room(most: Limits, a: &Heap, pure: usize, spatial: usize) -> bool
    requires few_pure { pure ≤ 1 }
    requires few_spatial { spatial ≤ 1 }
    ensures { result ≡ has_room_for most pure spatial a.now }
{
    if a.pure().len() + pure > most.pure as usize {
        return false;
    }
    a.spatial().len() + spatial <= most.spatial as usize
}

// The old value of x has the fresh number, also in the term that x gets.
fn set(alloc: Global, at: LineSetting, a: &Heap, x: u16, t: Term) -> Result<Vec<Premise>, RuleError>
    requires { IsSetting at }
    ensures { IsAnswer result
        (limited at.most (one (premise_at (at.line + 1) a.now (after_assignment x at.fresh t a.now)))) }
{
    if !has_room(at.most, a, 1, 0) {
        return Err(RuleError::Fault(RuleFault::TooManyAtoms));
    }
    let after = assigned(alloc, a, x, at.fresh, t)?;
    numbered(only_at_line(alloc, at.line + 1, a, after)?)
}

fn load(
    alloc: Global,
    at: LineSetting,
    a: &Heap,
    x: u16,
    t: Term,
    k: u8,
) -> Result<Vec<Premise>, RuleError>
    requires { IsSetting at }
    ensures { IsAnswer result (command_answer at.most at.line a.now at.fresh (Load x t k)) }
{
    let Some(cell) = cell_at(a, t) else {
        return Err(RuleError::Fault(RuleFault::NoCell));
    };
    let Some(field) = field_at(&cell.fields, k) else {
        return Err(RuleError::Fault(RuleFault::NoCell));
    };
    set(alloc, at, a, x, field)
}

fn written(alloc: Global, a: &Heap, cell: &FoundCell, k: u8, u: Term) -> Result<Heap, OutOfMemory>
    requires from_one { 0 < k }
    requires field_in { k ≤ length cell.now.fields }
    requires place_in { cell.now.place < length a.now.spatial }
    ensures { IfOk result (λ h. h ≡ heap_with_field a.now (found_of cell.now) k u) }
{
    let mut spatial = Vec::from_slice(alloc, a.spatial())?;
    spatial[cell.place] = Spatial::Cell(cell.address, with_field(&cell.fields, k, u));
    Ok(Heap::from_lists(Vec::from_slice(alloc, a.pure())?, spatial))
}

fn store(
    alloc: Global,
    at: LineSetting,
    a: &Heap,
    t: Term,
    k: u8,
    u: Term,
) -> Result<Vec<Premise>, RuleError>
    requires { IsSetting at }
    ensures { IsAnswer result (command_answer at.most at.line a.now at.fresh (Store t k u)) }
{
    let Some(cell) = cell_at(a, t) else {
        return Err(RuleError::Fault(RuleFault::NoCell));
    };
    if field_at(&cell.fields, k).is_none() {
        return Err(RuleError::Fault(RuleFault::NoCell));
    }
    if !is_short(at.most, a) {
        return Err(RuleError::Fault(RuleFault::TooManyAtoms));
    }
    let after = written(alloc, a, &cell, k, u)?;
    numbered(only_at_line(alloc, at.line + 1, a, after)?)
}

fn new(alloc: Global, at: LineSetting, a: &Heap, x: u16, k: u8) -> Result<Vec<Premise>, RuleError>
    requires setting { IsSetting at }
    requires few { k ≤ MOST_ARGUMENTS }
    ensures { IsAnswer result (command_answer at.most at.line a.now at.fresh (New x k)) }
{
    if !has_room(at.most, a, 0, 1) {
        return Err(RuleError::Fault(RuleFault::TooManyAtoms));
    }
    let after = allocated(alloc, a, x, at.fresh, k)?;
    numbered(only_at_line(alloc, at.line + 1, a, after)?)
}

fn freed_premise(
    alloc: Global,
    line: u32,
    rest: Heap,
    place: usize,
) -> Result<Vec<Premise>, OutOfMemory>
    ensures { IfOk result (λ v. v.items
        ≡ one (record { judgement = Runs line rest; pairs = pairs_from (before place) 0 rest.spatial })) }
{
    let pairs = pairs_of_kept(alloc, rest.spatial(), place)?;
    one_premise(
        alloc,
        Premise {
            judgement: Judgement::Term(line, rest),
            pairs,
        },
    )
}

fn free(alloc: Global, at: LineSetting, a: &Heap, t: Term) -> Result<Vec<Premise>, RuleError>
    requires { IsSetting at }
    ensures { IsAnswer result (command_answer at.most at.line a.now at.fresh (Free t)) }
{
    let Some(cell) = cell_at(a, t) else {
        return Err(RuleError::Fault(RuleFault::NoCell));
    };
    let rest = a.without_spatial(cell.place)?;
    if !is_short(at.most, &rest) {
        return Err(RuleError::Fault(RuleFault::TooManyAtoms));
    }
    numbered(freed_premise(alloc, at.line + 1, rest, cell.place)?)
}

fn branches(
    alloc: Global,
    at: LineSetting,
    a: &Heap,
    target: u32,
    holds: Pure,
    fails: Pure,
) -> Result<Vec<Premise>, OutOfMemory>
    requires setting { IsSetting at }
    requires room { length a.now.pure < MOST_PURE }
    ensures { IfOk result (λ v. v.items ≡ branch_premises at target a.now holds fails) }
{
    let jumps = at_line(alloc, target, a, with_atom(alloc, a, holds)?)?;
    let goes_on = at_line(alloc, at.line + 1, a, with_atom(alloc, a, fails)?)?;
    two_premises(alloc, jumps, goes_on)
}

// The target where an atom holds, the next line where the other does.
fn test(
    alloc: Global,
    at: LineSetting,
    a: &Heap,
    target: u32,
    holds: Pure,
    fails: Pure,
) -> Result<Vec<Premise>, RuleError>
    requires { IsSetting at }
    ensures { IsAnswer result (limited at.most (branch_premises at target a.now holds fails)) }
{
    if !has_room(at.most, a, 1, 0) {
        return Err(RuleError::Fault(RuleFault::TooManyAtoms));
    }
    numbered(branches(alloc, at, a, target, holds, fails)?)
}

fn goto(alloc: Global, at: LineSetting, a: &Heap, target: u32) -> Result<Vec<Premise>, RuleError>
    ensures { IsAnswer result (command_answer at.most at.line a.now at.fresh (Goto target)) }
{
    if !is_short(at.most, a) {
        return Err(RuleError::Fault(RuleFault::TooManyAtoms));
    }
    numbered(only_at_line(alloc, target, a, a.clone()?)?)
}

fn any(alloc: Global, at: LineSetting, a: &Heap, target: u32) -> Result<Vec<Premise>, RuleError>
    requires { IsSetting at }
    ensures { IsAnswer result (command_answer at.most at.line a.now at.fresh (IfAny target)) }
{
    if !is_short(at.most, a) {
        return Err(RuleError::Fault(RuleFault::TooManyAtoms));
    }
    let jumps = at_line(alloc, target, a, a.clone()?)?;
    let goes_on = at_line(alloc, at.line + 1, a, a.clone()?)?;
    numbered(two_premises(alloc, jumps, goes_on)?)
}

fn ends(
    alloc: Global,
    at: LineSetting,
    a: &Heap,
    disjuncts: &Disjuncts,
) -> Result<Vec<Premise>, RuleError>
    ensures { IsAnswer result (command_answer at.most at.line a.now at.fresh (Ends disjuncts.now)) }
{
    if !is_short(at.most, a) || !are_short(at.most, disjuncts.heaps()) {
        return Err(RuleError::Fault(RuleFault::TooManyAtoms));
    }
    numbered(one_premise(alloc, with_disjuncts(alloc, a, disjuncts)?)?)
}

/// The premises of a command at a symbolic state.
pub fn command_premises(
    alloc: Global,
    at: LineSetting,
    a: &Heap,
    command: &Command,
) -> Result<Vec<Premise>, RuleError>
    requires setting { IsSetting at }
    requires few { new_fields command.now ≤ MOST_ARGUMENTS }
    ensures { IsAnswer result (command_answer at.most at.line a.now at.fresh command.now) }
{
    match command {
        Command::Assign(x, t) => set(alloc, at, a, *x, *t),
        Command::Load(x, t, k) => load(alloc, at, a, *x, *t, *k),
        Command::Store(t, k, u) => store(alloc, at, a, *t, *k, *u),
        Command::New(x, k) => new(alloc, at, a, *x, *k),
        Command::Free(t) => free(alloc, at, a, *t),
        Command::IfEq(t, u, j) => test(alloc, at, a, *j, Pure::Eq(*t, *u), Pure::Neq(*t, *u)),
        Command::IfNeq(t, u, j) => test(alloc, at, a, *j, Pure::Neq(*t, *u), Pure::Eq(*t, *u)),
        Command::IfAny(j) => any(alloc, at, a, *j),
        Command::Goto(j) => goto(alloc, at, a, *j),
        Command::Stop => Ok(Vec::new(alloc)),
        Command::Ends(disjuncts) => ends(alloc, at, a, disjuncts),
    }
}
