// The least table of masks that rules give.
ghost use Rattle.std.specs.List.{sum_by};
ghost use Rattle.std.specs.Prelude.{◌≡◌, ℕ, ◌+◌, ◌<◌, ◌≤◌, ◌↔◌, Some, IfOk, OnOk, IsTrue, vec_len, slice_get};
ghost use Rattle.std.specs.Prelude.{slice_index, slice_set, replicate, length, nat_eq, if◌then◌else◌};
ghost use Rattle.heap_formula.specs.Words.{Each};
ghost use Rattle.model_check.specs.WideMasks.{number, HoldsMask};
ghost use Rattle.model_check.specs.Ground.{IsSolved};
ghost use Rattle.model_check.specs.declared.ground.GroundRule.{GroundRule};
ghost use Rattle.model_check.specs.Tables.{HasMask, AddsMask, AddsRule, IsDerived, IsClosed, AreClosed, HeadsFit};
ghost use Rattle.model_check.specs.Tables.{IsOld, IsFresh, AreSettled, AreBefore, AppliesRule};

use crate::ground::{GroundRule, Piece};
use crate::mask::Mask;
use crate::unions::{Row, unions};
use cyc_basics::memory::OutOfMemory;
use std::alloc::Global;

/// Adds a mask to a question's row, and notes it if it is new: the log grows as the table does.
fn add_mask(
    table: &mut Vec<Row>,
    log: &mut Vec<usize>,
    head: usize,
    mask: &Mask,
) -> Result<(), OutOfMemory>
    requires { head < vec_len table.old }
    ensures members { OnOk result (AddsMask head (number mask.now) table.old.items table.new.items) }
    ensures rows { vec_len table.new ≡ vec_len table.old }
    ensures longer { OnOk result (vec_len log.old ≤ vec_len log.new) }
    ensures same { OnOk result (vec_len log.new ≡ vec_len log.old → table.new.items ≡ table.old.items) }
    ensures counted { OnOk result (vec_len log.new + sum_by length table.old.items
        ≡ vec_len log.old + sum_by length table.new.items) }
{
    if table[head].add(mask.clone()?)? {
        log.push(head)?;
    }
    Ok(())
}

fn add_masks(
    table: &mut Vec<Row>,
    log: &mut Vec<usize>,
    head: usize,
    masks: &[Mask],
) -> Result<(), OutOfMemory>
    requires { head < vec_len table.old }
    ensures members { OnOk result (AddsRule head (λ m. HoldsMask m masks.now) table.old.items table.new.items) }
    ensures rows { vec_len table.new ≡ vec_len table.old }
    ensures longer { OnOk result (vec_len log.old ≤ vec_len log.new) }
    ensures same { OnOk result (vec_len log.new ≡ vec_len log.old → table.new.items ≡ table.old.items) }
    ensures counted { OnOk result (vec_len log.new + sum_by length table.old.items
        ≡ vec_len log.old + sum_by length table.new.items) }
{
    for mask in masks {
        add_mask(table, log, head, mask)?;
    }
    Ok(())
}

/// Adds what a rule gives from the table.
fn apply_rule(
    alloc: Global,
    table: &mut Vec<Row>,
    log: &mut Vec<usize>,
    rule: &GroundRule,
) -> Result<(), OutOfMemory>
    requires { rule.now.head < vec_len table.old }
    ensures members { OnOk result (AppliesRule rule.now table.old.items table.new.items) }
    ensures rows { vec_len table.new ≡ vec_len table.old }
    ensures longer { OnOk result (vec_len log.old ≤ vec_len log.new) }
    ensures same { OnOk result (vec_len log.new ≡ vec_len log.old → table.new.items ≡ table.old.items) }
    ensures counted { OnOk result (vec_len log.new + sum_by length table.old.items
        ≡ vec_len log.old + sum_by length table.new.items) }
{
    let masks = unions(alloc, table, rule.pieces.as_slice())?;
    let added = add_masks(table, log, rule.head, masks.as_slice());
    drop(masks);
    added
}

fn time_at(times: &[usize], i: usize) -> usize
    ensures { result ≡ slice_index times.now i }
{
    if i < times.len() { times[i] } else { 0 }
}

fn is_old(grown: &[usize], time: usize, piece: Piece) -> bool
    ensures { IsTrue result ↔ IsOld grown.now time piece }
{
    match piece {
        Piece::Here(_) => true,
        Piece::Of(question) => time_at(grown, question) <= time,
    }
}

fn are_old(grown: &[usize], time: usize, pieces: &[Piece]) -> bool
    ensures { IsTrue result ↔ Each (IsOld grown.now time) pieces.now }
{
    for piece in pieces {
        if !is_old(grown, time, *piece) {
            return false;
        }
    }
    true
}

/// Whether the rule was applied at this time, and no question that it asks has grown since.
fn is_fresh(grown: &[usize], time: usize, pieces: &[Piece]) -> bool
    ensures { IsTrue result ↔ IsFresh grown.now time pieces.now }
{
    time > 0 && are_old(grown, time, pieces)
}

/// Notes that a rule was applied before, and when its question has grown.
fn note_times(
    applied: &mut Vec<usize>,
    grown: &mut Vec<usize>,
    rule: usize,
    head: usize,
    before: usize,
    after: usize,
)
    requires rule { rule < vec_len applied.old }
    requires head { head < vec_len grown.old }
    ensures applied { applied.new.items ≡ slice_set applied.old.items rule before }
    ensures grown { grown.new.items
        ≡ (if nat_eq before after then grown.old.items else slice_set grown.old.items head after) }
{
    applied[rule] = before;
    if before != after {
        grown[head] = after;
    }
}

/// Adds what a rule gives from the table, unless it is fresh.
fn refresh_rule(
    alloc: Global,
    table: &mut Vec<Row>,
    log: &mut Vec<usize>,
    applied: &mut Vec<usize>,
    grown: &mut Vec<usize>,
    rules: &[GroundRule],
    i: usize,
) -> Result<(), OutOfMemory>
    requires within { i < length rules.now }
    requires heads { HeadsFit (vec_len table.old) rules.now }
    requires sound { IsDerived rules.now table.old.items }
    requires settled { AreSettled table.old.items grown.old.items applied.old.items rules.now }
    requires before { AreBefore applied.old.items (vec_len log.old) }
    requires clock { 0 < vec_len log.old }
    requires applied_length { vec_len applied.old ≡ length rules.now }
    requires grown_length { vec_len grown.old ≡ vec_len table.old }
    ensures sound { OnOk result (IsDerived rules.now table.new.items) }
    ensures rows { OnOk result (vec_len table.new ≡ vec_len table.old) }
    ensures longer { OnOk result (vec_len log.old ≤ vec_len log.new) }
    ensures same { OnOk result (vec_len log.new ≡ vec_len log.old → table.new.items ≡ table.old.items) }
    ensures counted { OnOk result (vec_len log.new + sum_by length table.old.items
        ≡ vec_len log.old + sum_by length table.new.items) }
    ensures closed { OnOk result (vec_len log.new ≡ vec_len log.old → (r : GroundRule)
        → slice_get rules.now i ≡ Some r → IsClosed table.new.items r) }
    ensures settled { OnOk result (AreSettled table.new.items grown.new.items applied.new.items rules.now) }
    ensures before { OnOk result (AreBefore applied.new.items (vec_len log.new)) }
    ensures applied_length { OnOk result (vec_len applied.new ≡ vec_len applied.old) }
    ensures grown_length { OnOk result (vec_len grown.new ≡ vec_len grown.old) }
{
    let rule = &rules[i];
    if is_fresh(grown, applied[i], rule.pieces.as_slice()) {
        return Ok(());
    }
    let before = log.len();
    apply_rule(alloc, table, log, rule)?;
    note_times(applied, grown, i, rule.head, before, log.len());
    Ok(())
}

/// Refreshes each rule once, the last first: a question asks those after it, as a rule.
fn refresh_rules(
    alloc: Global,
    table: &mut Vec<Row>,
    log: &mut Vec<usize>,
    applied: &mut Vec<usize>,
    grown: &mut Vec<usize>,
    rules: &[GroundRule],
) -> Result<(), OutOfMemory>
    requires heads { HeadsFit (vec_len table.old) rules.now }
    requires sound { IsDerived rules.now table.old.items }
    requires settled { AreSettled table.old.items grown.old.items applied.old.items rules.now }
    requires before { AreBefore applied.old.items (vec_len log.old) }
    requires clock { 0 < vec_len log.old }
    requires applied_length { vec_len applied.old ≡ length rules.now }
    requires grown_length { vec_len grown.old ≡ vec_len table.old }
    ensures sound { OnOk result (IsDerived rules.now table.new.items) }
    ensures rows { OnOk result (vec_len table.new ≡ vec_len table.old) }
    ensures longer { OnOk result (vec_len log.old ≤ vec_len log.new) }
    ensures counted { OnOk result (vec_len log.new + sum_by length table.old.items
        ≡ vec_len log.old + sum_by length table.new.items) }
    ensures closed { OnOk result (vec_len log.new ≡ vec_len log.old → AreClosed table.new.items rules.now) }
    ensures settled { OnOk result (AreSettled table.new.items grown.new.items applied.new.items rules.now) }
    ensures before { OnOk result (AreBefore applied.new.items (vec_len log.new)) }
    ensures applied_length { OnOk result (vec_len applied.new ≡ vec_len applied.old) }
    ensures grown_length { OnOk result (vec_len grown.new ≡ vec_len grown.old) }
{
    let count = rules.len();
    for k in 0..count {
        refresh_rule(alloc, table, log, applied, grown, rules, count - 1 - k)?;
    }
    Ok(())
}

fn empty_table(alloc: Global, count: usize) -> Result<Vec<Row>, OutOfMemory>
    ensures rows { IfOk result (λ t. vec_len t ≡ count) }
    ensures empty { IfOk result (λ t. (q m : ℕ) → HasMask t.items q m → ⊥) }
{
    let mut table = Vec::new(alloc);
    for _question in 0..count {
        table.push(Row::new(alloc))?;
    }
    Ok(table)
}

fn zeros(alloc: Global, count: usize) -> Result<Vec<usize>, OutOfMemory>
    ensures value { IfOk result (λ v. v.items ≡ replicate count 0) }
    ensures count { IfOk result (λ v. vec_len v ≡ count) }
{
    let mut times = Vec::new(alloc);
    for _i in 0..count {
        times.push(0)?;
    }
    Ok(times)
}

/// The masks that the rules derive for each question. A rule is applied again only where a question that it asks has
/// grown; times are counted in the masks that were found.
pub fn solve(alloc: Global, rules: &[GroundRule], count: usize) -> Result<Vec<Row>, OutOfMemory>
    requires { HeadsFit count rules.now }
    ensures { IfOk result (λ t. IsSolved rules.now (HasMask t.items)) }
{
    let mut table = empty_table(alloc, count)?;
    let mut grown = zeros(alloc, count)?;
    let mut applied = zeros(alloc, rules.len())?;
    let mut log = zeros(alloc, 1)?;
    let mut before = 0;
    while before < log.len() {
        before = log.len();
        refresh_rules(alloc, &mut table, &mut log, &mut applied, &mut grown, rules)?;
    }
    Ok(table)
}
