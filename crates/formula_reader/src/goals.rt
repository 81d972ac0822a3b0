//! The first flaw of a goal and of a whole problem.

ghost use Rattle.std.specs.Prelude.{◌≡◌, ◌+◌, ◌<◌, ◌^◌, map};
ghost use Rattle.cyc_lex.specs.declared.fault.IllFault.TheVariants.{NoLine};
ghost use Rattle.heap_reader.specs.Flaws.{IsWalk};
ghost use Rattle.problem_syntax.specs.Numbered.{heap_of, goal_of, problem_of, Entailment, From};
ghost use Rattle.formula_reader.specs.Spans.{goal_span, problem_span};
ghost use Rattle.formula_reader.specs.Flaws.{headings, goal_flaw, problem_flaw as first_flaw};

use crate::terms::{Scope, Variables};
use crate::walk::definitions;
use cyc_basics::limits::Limits;
use cyc_lex::{IllFault, What};
use heap_reader::ends::walk_ends;
use heap_reader::lines::walk_lines;
use heap_reader::{Flaw, Heads, ill, walk_heap, walk_heaps};
use problem_syntax::numbering::{NumberedGoal, NumberedHeap, NumberedProblem};

fn entailment(
    heads: &Heads<'_>,
    most: Limits,
    count: usize,
    at: usize,
    antecedent: &NumberedHeap<'_>,
    disjuncts: &[NumberedHeap<'_>],
) -> Result<usize, Flaw>
    requires { at + goal_span (Entailment (heap_of antecedent.now) (map heap_of disjuncts.now)) < 2 ^ 64 }
    ensures { IsWalk result
        (goal_flaw most heads.now count at (Entailment (heap_of antecedent.now) (map heap_of disjuncts.now)))
        (at + goal_span (Entailment (heap_of antecedent.now) (map heap_of disjuncts.now))) }
{
    let right = walk_heap(heads, &Scope::Goal, most, at + 1, antecedent)?;
    walk_heaps(heads, &Scope::Goal, most, What::Disjuncts, right, disjuncts)
}

fn state(
    heads: &Heads<'_>,
    most: Limits,
    count: usize,
    at: usize,
    line: u32,
    heap: &NumberedHeap<'_>,
) -> Result<usize, Flaw>
    requires { at + goal_span (From line (heap_of heap.now)) < 2 ^ 64 }
    ensures { IsWalk result (goal_flaw most heads.now count at (From line (heap_of heap.now)))
        (at + goal_span (From line (heap_of heap.now))) }
{
    if line == 0 || line as usize > count {
        return Err(ill(IllFault::NoLine, at + 2));
    }
    walk_heap(heads, &Scope::Goal, most, at + 4, heap)
}

/// The goal of a program with so many lines.
fn goal(
    heads: &Heads<'_>,
    most: Limits,
    count: usize,
    at: usize,
    tree: &NumberedGoal<'_>,
) -> Result<usize, Flaw>
    requires { at + goal_span (goal_of tree.now) < 2 ^ 64 }
    ensures { IsWalk result (goal_flaw most heads.now count at (goal_of tree.now)) (at + goal_span (goal_of tree.now)) }
{
    match tree {
        NumberedGoal::Entailment(antecedent, disjuncts) => {
            entailment(heads, most, count, at, antecedent, disjuncts)
        }
        NumberedGoal::From(line, heap) => state(heads, most, count, at, *line, heap),
    }
}

fn walk(heads: &Heads<'_>, tree: &NumberedProblem<'_>) -> Result<usize, Flaw>
    requires known { heads.now ≡ headings (problem_of tree.now).definitions }
    requires fits { problem_span (problem_of tree.now) < 2 ^ 64 }
    ensures { IsWalk result (first_flaw (problem_of tree.now)) (problem_span (problem_of tree.now)) }
{
    let most = tree.version.limits();
    let lines = definitions(heads, most, 4, &tree.definitions)?;
    let ends = walk_lines(&Variables, most, lines, &tree.lines)?;
    let at = walk_ends(heads, &Scope::End, most, &tree.lines, ends, &tree.ends)?;
    goal(heads, most, tree.lines.len(), at, &tree.goal)
}

/// The first flaw of a problem, by its token.
pub fn problem_flaw(heads: &Heads<'_>, tree: &NumberedProblem<'_>) -> Option<Flaw>
    requires known { heads.now ≡ headings (problem_of tree.now).definitions }
    requires fits { problem_span (problem_of tree.now) < 2 ^ 64 }
    ensures { result ≡ first_flaw (problem_of tree.now) }
{
    walk(heads, tree).err()
}
