// What a step leaves to be shown.
ghost use Rattle.std.specs.Prelude.{◌≡◌, IfOk};
ghost use Rattle.rule_logics.specs.Rules.{premises_in};
ghost use Rattle.word_inclusions.specs.Expressions.{expression_of};
ghost use Rattle.word_inclusions.specs.Inclusions.{without, put_before, kept_star, unfolded, step as step_of};

use crate::expression::Regex;
use crate::inclusion::Inclusion;
use crate::logic::WordFault;
use cyc_basics::memory::OutOfMemory;
use logics::{Subgoal, TracePairs};
use rule_logics::{moved_pairs, push_moved};
use std::alloc::Global;

/// The first factor goes: what is left is in what is left on the right.
fn without(
    alloc: Global,
    behind: &Regex,
    right: Regex,
) -> Result<Vec<Subgoal<Inclusion>>, OutOfMemory>
    ensures { IfOk result (λ v. v.items ≡ without (expression_of behind.now) (expression_of right)) }
{
    let judgement = Inclusion::new(behind.copy(alloc)?, right);
    let pairs = TracePairs::from_vec(moved_pairs(alloc, 1, 0)?);
    let mut subgoals = Vec::new(alloc);
    subgoals.push(Subgoal { judgement, pairs })?;
    Ok(subgoals)
}

/// A factor in place of the first, along these pairs.
fn put_before(
    alloc: Global,
    factor: &Regex,
    behind: Regex,
    right: &Regex,
    pairs: Vec<(u8, u8, bool)>,
) -> Result<Subgoal<Inclusion>, OutOfMemory>
    ensures { IfOk result (λ p. p
        ≡ put_before (expression_of factor.now) (expression_of behind) (expression_of right.now) pairs.items) }
{
    let left = Regex::product(alloc, factor.copy(alloc)?, behind)?;
    let judgement = Inclusion::new(left, right.copy(alloc)?);
    let pairs = TracePairs::from_vec(pairs);
    Ok(Subgoal { judgement, pairs })
}

/// The pairs of a star that is kept behind its own expression, and progresses, and of the factors behind it.
fn kept_star(alloc: Global) -> Result<Vec<(u8, u8, bool)>, OutOfMemory>
    ensures { IfOk result (λ v. v.items ≡ kept_star) }
{
    let mut pairs = Vec::new(alloc);
    pairs.push((0, 1, true))?;
    push_moved(&mut pairs, 1, 2)?;
    Ok(pairs)
}

/// What the first factor leaves to be shown, with those behind it.
fn unfolded(
    alloc: Global,
    first: &Regex,
    behind: &Regex,
    right: &Regex,
) -> Result<Vec<Subgoal<Inclusion>>, OutOfMemory>
    ensures { IfOk result (λ v. v.items
        ≡ unfolded (expression_of first.now) (expression_of behind.now) (expression_of right.now)) }
{
    match first {
        Regex::Zero => Ok(Vec::new(alloc)),
        Regex::One => without(alloc, behind, right.copy(alloc)?),
        Regex::Letter(a) => without(alloc, behind, right.derivative(alloc, *a)?),
        Regex::Sum(e, f) => {
            let mut subgoals = Vec::new(alloc);
            let pairs = moved_pairs(alloc, 1, 1)?;
            subgoals.push(put_before(alloc, e, behind.copy(alloc)?, right, pairs)?)?;
            let pairs = moved_pairs(alloc, 1, 1)?;
            subgoals.push(put_before(alloc, f, behind.copy(alloc)?, right, pairs)?)?;
            Ok(subgoals)
        }
        Regex::Product(e, f) => {
            let others = Regex::product(alloc, f.copy(alloc)?, behind.copy(alloc)?)?;
            let pairs = moved_pairs(alloc, 1, 2)?;
            let mut subgoals = Vec::new(alloc);
            subgoals.push(put_before(alloc, e, others, right, pairs)?)?;
            Ok(subgoals)
        }
        Regex::Star(e) => {
            let others = Regex::product(alloc, first.copy(alloc)?, behind.copy(alloc)?)?;
            let pairs = kept_star(alloc)?;
            let mut subgoals = without(alloc, behind, right.copy(alloc)?)?;
            subgoals.push(put_before(alloc, e, others, right, pairs)?)?;
            Ok(subgoals)
        }
    }
}

/// What a step leaves to be shown of an inclusion: where no factor is left, that the right side has the empty word.
pub fn step(
    alloc: Global,
    left: &Regex,
    right: &Regex,
) -> Result<Result<Vec<Subgoal<Inclusion>>, WordFault>, OutOfMemory>
    ensures { IfOk result (λ r. premises_in r ≡ step_of (expression_of left.now) (expression_of right.now)) }
{
    match left {
        Regex::One if right.is_nullable() => Ok(Ok(Vec::new(alloc))),
        Regex::One => Ok(Err(WordFault::NoEmptyWord)),
        Regex::Product(e, f) => Ok(Ok(unfolded(alloc, e, f, right)?)),
        _ => Ok(Ok(unfolded(alloc, left, &Regex::One, right)?)),
    }
}
