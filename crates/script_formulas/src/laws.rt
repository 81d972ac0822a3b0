//! Laws of scripts and of the goals that they become. Each function is a law, and does nothing.

ghost use Rattle.std.specs.Prelude.{ℕ, List};
ghost use Rattle.heap_formula.specs.declared.commands.Command.{Command};
ghost use Rattle.heap_formula.specs.declared.judgements.Judgement.{Judgement};
ghost use Rattle.heap_formula.specs.Cells.{Cells};
ghost use Rattle.heap_formula.specs.Definitions.{Definition};
ghost use Rattle.heap_formula.specs.Judgements.{JudgementHolds, Concludes, antecedent};
ghost use Rattle.heap_formula.specs.Meaning.{Satisfies};
ghost use Rattle.heap_formula.specs.Values.{Stack};
ghost use Rattle.script_formulas.specs.declared.goals.question.Question.{Question};
ghost use Rattle.script_formulas.specs.declared.script.Script.{Script};
ghost use Rattle.script_formulas.specs.Defining.{IsGoalOf};
ghost use Rattle.script_formulas.specs.Meaning.{IsSatisfiable};

/// A goal that asks what a script does, and holds, shows that no heap satisfies the script, whatever sorts it has.
pub fn goals_hold_of_unsatisfiable_scripts()
    ensures { (script : Script) (question : Question) (ds : List Definition) (goal : Judgement) (used : List ℕ)
        (lines : List Command) → IsGoalOf script question ds goal used → JudgementHolds ds lines goal
        → ¬ IsSatisfiable script }
{}

/// What satisfies the antecedent of such a goal, and is not as the goal says, shows that the script can be satisfied.
pub fn goals_fail_of_satisfiable_scripts()
    ensures { (script : Script) (question : Question) (ds : List Definition) (goal : Judgement) (used : List ℕ)
        (lines : List Command) → IsGoalOf script question ds goal used → (s : Stack) (h : Cells)
        → Satisfies ds s h (antecedent goal) → ¬ Concludes ds lines goal s h → IsSatisfiable script }
{}
