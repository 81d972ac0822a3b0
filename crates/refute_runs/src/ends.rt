// Values that are compared in a state, and whether it breaks an end.
use cyc_basics::memory::OutOfMemory;
use general_models::{CheckFault, none_satisfied};
use goto_lang::Config;
use heap_formula::{Command, Disjuncts, Heap, Pure, Term};
use pred_defs::Defs;
use std::alloc::Global;

/// The most choices of locals that are tried for a disjunct.
const MOST_CHOICES: u64 = 1_000;

/// The value of a variable or of nil; none of an existential variable.
fn value_of(config: &Config, term: Term) -> Option<u64> {
    match term {
        Term::Univ(n) => Some(config.stack.get(n)),
        Term::Nil => Some(0),
        Term::Exist(_) => None,
    }
}

/// The values of two terms, the smaller first, where they differ.
fn differing(config: &Config, left: Term, right: Term) -> Option<(u64, u64)> {
    let (a, b) = (value_of(config, left)?, value_of(config, right)?);
    if a == b {
        return None;
    }
    Some((a.min(b), a.max(b)))
}

/// The pairs of values that a disjunct needs to differ.
fn kept_apart(
    alloc: Global,
    config: &Config,
    disjunct: &Heap,
) -> Result<Vec<(u64, u64)>, OutOfMemory> {
    let mut pairs = Vec::new(alloc);
    for pure in disjunct.pure() {
        if let Pure::Neq(left, right) = pure {
            if let Some(pair) = differing(config, *left, *right) {
                pairs.push(pair)?;
            }
        }
    }
    Ok(pairs)
}

/// The pairs of values that the disjuncts need to differ.
fn compared_in(
    alloc: Global,
    config: &Config,
    ends: &Disjuncts,
) -> Result<Vec<(u64, u64)>, OutOfMemory> {
    let mut pairs = Vec::new(alloc);
    for disjunct in ends.heaps() {
        pairs.append(&mut kept_apart(alloc, config, disjunct)?)?;
    }
    Ok(pairs)
}

/// The pairs of values that differ and that the command compares: a test, or a `stop` whose end needs them to differ.
pub fn compared_at(
    alloc: Global,
    config: &Config,
    command: &Command,
) -> Result<Vec<(u64, u64)>, OutOfMemory> {
    match command {
        Command::IfEq(left, right, _) | Command::IfNeq(left, right, _) => {
            let mut pairs = Vec::new(alloc);
            if let Some(pair) = differing(config, *left, *right) {
                pairs.push(pair)?;
            }
            Ok(pairs)
        }
        Command::Ends(ends) => compared_in(alloc, config, ends),
        _ => Ok(Vec::new(alloc)),
    }
}

/// Whether it is found out that a state satisfies no disjunct of an end.
pub fn breaks(
    alloc: Global,
    defs: &Defs,
    config: &Config,
    ends: &Disjuncts,
) -> Result<bool, OutOfMemory> {
    let (stack, heap) = (&config.stack, &config.heap);
    match none_satisfied(alloc, defs, stack, heap, ends.heaps(), MOST_CHOICES) {
        Ok(none) => Ok(none),
        Err(CheckFault::TooMuch) => Ok(false),
        Err(CheckFault::OutOfMemory) => Err(OutOfMemory),
    }
}
