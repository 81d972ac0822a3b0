//! Goals and whole problems with numbers in place of names.

ghost use Rattle.std.specs.Prelude.{◌≡◌, ◌++◌, map, IfOk};
ghost use Rattle.problem_syntax.specs.Trees as named;
ghost use Rattle.problem_syntax.specs.Names.{firsts};
ghost use Rattle.problem_syntax.specs.Occurrences.{program_names, goal_names as names_of_goal};
ghost use Rattle.problem_syntax.specs.Numbered.{end_of, goal_of, problem_of};
ghost use Rattle.problem_syntax.specs.Numbering.{line as line_number, end as end_number, goal as goal_number, numbered};
ghost use Rattle.problem_syntax.specs.Views.{name_of, names_of};

use crate::numbering::definitions::definitions;
use crate::numbering::disjuncts::{disjuncts, with_disjunct_names};
use crate::numbering::ends::{ends, with_ends_names};
use crate::numbering::heaps::heap;
use crate::numbering::names::{NameUse, Names, first_names};
use crate::numbering::occurrences::{lines_names, with_heap_names};
use crate::numbering::programs::lines;
use crate::numbering::scope::Scope;
use crate::numbering::tree::{NumberedEnd, NumberedGoal, NumberedProblem};
use crate::{GoalTree, ProblemTree};
use cyc_basics::memory::OutOfMemory;
use std::alloc::Global;

/// The names with those of a goal's universal variables after them.
fn with_goal_names<'a>(
    alloc: Global,
    names: Vec<NameUse<'a>>,
    goal: &GoalTree<'a>,
) -> Result<Vec<NameUse<'a>>, OutOfMemory>
    ensures { IfOk result (λ v. map name_of v.items
        ≡ map name_of names.entry.items ++ names_of_goal (named.goal_of goal.now)) }
{
    match goal {
        GoalTree::Entailment(antecedent, disjuncts) => {
            with_disjunct_names(alloc, with_heap_names(names, antecedent)?, disjuncts)
        }
        GoalTree::From(_, state) => with_heap_names(names, state),
    }
}

fn goal<'a>(
    alloc: Global,
    universals: &Names<'a>,
    tree: &GoalTree<'a>,
) -> Result<NumberedGoal<'a>, OutOfMemory>
    ensures { IfOk result (λ g. goal_of g ≡ goal_number (names_of universals.now) (named.goal_of tree.now)) }
{
    match tree {
        GoalTree::Entailment(antecedent, trees) => {
            let antecedent = heap(alloc, &Scope::Antecedent(universals), antecedent)?;
            let disjuncts = disjuncts(alloc, universals, trees)?;
            Ok(NumberedGoal::Entailment(antecedent, disjuncts))
        }
        GoalTree::From(line, state) => {
            let state = heap(alloc, &Scope::Antecedent(universals), state)?;
            Ok(NumberedGoal::From(*line, state))
        }
    }
}

/// The goal, whose universal variables are numbered after the names that are used before it.
fn goal_behind<'a>(
    alloc: Global,
    uses: Vec<NameUse<'a>>,
    tree: &GoalTree<'a>,
) -> Result<NumberedGoal<'a>, OutOfMemory>
    ensures { IfOk result (λ g. goal_of g
        ≡ goal_number (firsts (map name_of uses.entry.items ++ names_of_goal (named.goal_of tree.now)))
        (named.goal_of tree.now)) }
{
    let universals = first_names(alloc, &with_goal_names(alloc, uses, tree)?)?;
    goal(alloc, &universals, tree)
}

/// The lines and the ends of a program.
type Program<'a> = (
    Vec<heap_syntax::lines::LineTree<usize>>,
    Vec<NumberedEnd<'a>>,
);

/// The names of the program.
fn names_of_program<'a>(
    alloc: Global,
    tree: &ProblemTree<'a>,
) -> Result<Vec<NameUse<'a>>, OutOfMemory>
    ensures { IfOk result (λ v. map name_of v.items ≡ program_names (named.problem_of tree.now)) }
{
    with_ends_names(alloc, lines_names(alloc, &tree.lines)?, &tree.ends)
}

fn program<'a>(
    alloc: Global,
    variables: &Names<'a>,
    tree: &ProblemTree<'a>,
) -> Result<Program<'a>, OutOfMemory>
    ensures lines { IfOk result (λ r. r.0.items
        ≡ map (line_number (names_of variables.now)) (named.problem_of tree.now).lines) }
    ensures ends { IfOk result (λ r. map end_of r.1.items
        ≡ map (end_number (names_of variables.now)) (named.problem_of tree.now).ends) }
{
    let lines = lines(alloc, variables, &tree.lines)?;
    let ends = ends(alloc, variables, &tree.ends)?;
    Ok((lines, ends))
}

/// The program, and the goal.
fn program_and_goal<'a>(
    alloc: Global,
    tree: &ProblemTree<'a>,
) -> Result<(Program<'a>, NumberedGoal<'a>), OutOfMemory>
    ensures lines { IfOk result (λ r. r.0.0.items ≡ (numbered (named.problem_of tree.now)).lines) }
    ensures ends { IfOk result (λ r. map end_of r.0.1.items ≡ (numbered (named.problem_of tree.now)).ends) }
    ensures goal { IfOk result (λ r. goal_of r.1 ≡ (numbered (named.problem_of tree.now)).goal) }
{
    let uses = names_of_program(alloc, tree)?;
    let variables = first_names(alloc, &uses)?;
    let program = program(alloc, &variables, tree)?;
    let goal = goal_behind(alloc, uses, &tree.goal)?;
    Ok((program, goal))
}

/// The problem with numbers in place of its names. In a case a name is a parameter if it is one, and else a local, with
/// a number of its own in this case. The variables of the program are numbered over its lines and then over its ends,
/// the other universal variables of the goal after them, those of the antecedent first, and existential variables in
/// each disjunct.
pub fn number_problem<'a>(
    alloc: Global,
    tree: &ProblemTree<'a>,
) -> Result<NumberedProblem<'a>, OutOfMemory>
    ensures { IfOk result (λ p. problem_of p ≡ numbered (named.problem_of tree.now)) }
{
    let definitions = definitions(alloc, &tree.definitions)?;
    let ((lines, ends), goal) = program_and_goal(alloc, tree)?;
    Ok(NumberedProblem {
        version: tree.version,
        definitions,
        lines,
        ends,
        goal,
    })
}
