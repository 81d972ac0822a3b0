//! Values of problems without a flaw.

ghost use Rattle.std.specs.Prelude.{◌≡◌, ◌≤◌, length, map, IfOk};
ghost use Rattle.heap_formula.specs.Words.{Each};
ghost use Rattle.problem_syntax.specs.Numbered.{definition_of, goal_of};
ghost use Rattle.formula_reader.specs.Small.{IsSmallDefinition, IsSmallGoal};
ghost use Rattle.formula_reader.specs.Values.{definition_value as value_of_definition, goal_value};

use crate::terms::Scope;
use cyc_basics::limits::{MOST_LOCALS, MOST_PREDICATES};
use cyc_basics::memory::OutOfMemory;
use heap_formula::{Def, Judgement};
use heap_reader::{Heads, definition_value, entailment_value, heap_value};
use problem_syntax::numbering::{NumberedDefinition, NumberedGoal};
use std::alloc::Global;

fn definition(
    alloc: Global,
    heads: &Heads<'_>,
    tree: &NumberedDefinition<'_>,
) -> Result<Def, OutOfMemory>
    requires small { IsSmallDefinition (definition_of tree.now) }
    requires few { length heads.now ≤ MOST_PREDICATES }
    ensures { IfOk result (λ d. d ≡ value_of_definition heads.now (definition_of tree.now)) }
{
    let arity = tree.parameters.len();
    let scope = Scope::Case {
        arity,
        locals: MOST_LOCALS,
    };
    definition_value(alloc, heads, &scope, tree.name, arity as u32, &tree.cases)
}

/// The definitions of a problem.
pub fn definitions(
    alloc: Global,
    heads: &Heads<'_>,
    trees: &[NumberedDefinition<'_>],
) -> Result<Vec<Def>, OutOfMemory>
    requires small { Each IsSmallDefinition (map definition_of trees.now) }
    requires few { length heads.now ≤ MOST_PREDICATES }
    ensures value { IfOk result (λ v. v.items ≡ map (value_of_definition heads.now) (map definition_of trees.now)) }
    ensures size { IfOk result (λ v. length v.items ≡ length trees.now) }
{
    let mut made = Vec::with_capacity(alloc, trees.len())?;
    for tree in trees {
        made.push(definition(alloc, heads, tree)?)?;
    }
    Ok(made)
}

/// The goal of a problem.
pub fn goal(
    alloc: Global,
    heads: &Heads<'_>,
    tree: &NumberedGoal<'_>,
) -> Result<Judgement, OutOfMemory>
    requires small { IsSmallGoal (goal_of tree.now) }
    requires few { length heads.now ≤ MOST_PREDICATES }
    ensures { IfOk result (λ j. j ≡ goal_value heads.now (goal_of tree.now)) }
{
    match tree {
        NumberedGoal::Entailment(antecedent, disjuncts) => {
            entailment_value(alloc, heads, &Scope::Goal, antecedent, disjuncts)
        }
        NumberedGoal::From(line, state) => {
            Ok(Judgement::Term(*line, heap_value(alloc, heads, &Scope::Goal, state)?))
        }
    }
}
