//! The names of a problem's goal.

ghost use Rattle.std.specs.Prelude.{◌≡◌, ◌++◌, map, IfOk};
ghost use Rattle.problem_syntax.specs.Trees.{goal_of, problem_of};
ghost use Rattle.problem_syntax.specs.Occurrences.{goal_names as names_of_goal};
ghost use Rattle.problem_syntax.specs.Numbering.{universals};
ghost use Rattle.problem_syntax.specs.NameViews.{name_of};
ghost use Rattle.problem_syntax.specs.ByNumber.{IsByNumber};

use crate::names::ends::with_ends;
use crate::names::heaps::{with_disjuncts, with_heap};
use crate::names::names::{ProblemName, first_names};
use crate::names::programs::lines_names;
use crate::{GoalTree, ProblemTree};
use cyc_basics::memory::OutOfMemory;
use std::alloc::Global;

/// The names with those of a goal's universal variables after them.
fn with_goal<'a>(
    alloc: Global,
    names: Vec<ProblemName<'a>>,
    goal: &GoalTree<'a>,
) -> Result<Vec<ProblemName<'a>>, OutOfMemory>
    ensures { IfOk result (λ v. map name_of v.items
        ≡ map name_of names.entry.items ++ names_of_goal (goal_of goal.now)) }
{
    match goal {
        GoalTree::Entailment(antecedent, disjuncts) => {
            with_disjuncts(alloc, with_heap(names, antecedent)?, disjuncts)
        }
        GoalTree::From(_, state) => with_heap(names, state),
    }
}

/// The names of the program's variables and of the goal's, each once, in the order of first occurrence.
fn universal_names<'a>(
    alloc: Global,
    tree: &ProblemTree<'a>,
) -> Result<Vec<ProblemName<'a>>, OutOfMemory>
    ensures { IfOk result (λ v. map name_of v.items ≡ universals (problem_of tree.now)) }
{
    let program = with_ends(alloc, lines_names(alloc, &tree.lines)?, &tree.ends)?;
    let uses = with_goal(alloc, program, &tree.goal)?;
    first_names(alloc, &uses)
}

/// The names of the universal variables of a problem's goal, its program's variables first: entry n is the name of `$n`
/// in the goal that is read of the problem. A name with a prime is one that the antecedent has so.
pub fn goal_names<'a>(
    alloc: Global,
    tree: &ProblemTree<'a>,
) -> Result<Vec<ProblemName<'a>>, OutOfMemory>
    ensures names { IfOk result (λ v. map name_of v.items ≡ universals (problem_of tree.now)) }
    ensures numbers { IfOk result (λ v. IsByNumber (universals (problem_of tree.now)) (map name_of v.items)) }
{
    universal_names(alloc, tree)
}
