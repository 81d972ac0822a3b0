//! Problems as values.

ghost use Rattle.std.specs.Prelude.{◌≡◌, ◌↔◌, None, Some, true, length, IsOk, IfOk, IfErr};
ghost use Rattle.std.specs.List.{list_all};
ghost use Rattle.heap_formula.specs.Judgements.{antecedent};
ghost use Rattle.pred_defs.specs.Faults.{closed_fault};
ghost use Rattle.heap_syntax.specs.Versions.{limits};
ghost use Rattle.heap_reader.specs.Small.{is_short_heap};
ghost use Rattle.formula_reader.specs.Within.{IsProblemWithin};
ghost use Rattle.formula_reader.specs.Problems.{goal_heaps, goal_fault, has_line};
ghost use Rattle.rule_table.specs.Tests.{is_universal_heap};

use goto_lang::Program;
use heap_formula::Judgement;
use heap_syntax::Version;
use pred_defs::Defs;

/// What is to be proved: definitions, a program, and a goal over them, in a version of the format. They are within the
/// limits of the version, whatever they were made of: lists are as long and numbers as great as a text may have them,
/// each predicate that is used is defined, with this number of arguments, and has a free name of its own, no
/// existential variable stands in the goal's antecedent, and the goal's line, if it has one, is one of the program's.
/// An end of the program is within them as a succedent is.
#[derive(Drop)]
pub struct Problem {
    pub version: Version,
    pub defs: Defs,
    pub program: Program,
    pub goal: Judgement,
    pub ghost limit: { defs.most ≡ limits version },
    pub ghost within: { ∥ IsProblemWithin version defs.most defs.list program goal ∥₁ },
    pub ghost closed: { closed_fault defs.list ≡ None },
    pub ghost known: { goal_fault defs.list goal ≡ None },
    pub ghost universal: { is_universal_heap (antecedent goal) ≡ true },
    pub ghost short: { list_all (is_short_heap (limits version)) (goal_heaps goal) ≡ true },
    pub ghost line: { has_line (length program) goal ≡ true },
}
