// A law of the answers. The function does nothing.
ghost use Rattle.heap_formula.specs.Judgements.{JudgementHolds};
ghost use Rattle.formula_reader.specs.declared.problem.Problem.{Problem};
ghost use Rattle.command_answers.specs.Answers.{IsPossible};

/// A goal whose antecedent nothing satisfies holds: where `sat` answers `unsatisfiable`, whatever the goal says on the
/// right, or of its program.
pub fn impossible_antecedents_entail()
    ensures { (problem : Problem) → ¬ IsPossible problem
        → JudgementHolds problem.defs.list problem.program problem.goal }
{}
