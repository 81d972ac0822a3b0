// Laws of the answers. Each function is a law, and does nothing.
ghost use Rattle.std.specs.Prelude.{◌≡◌, ◌≤◌, ℕ, List, Some, length, slice_get};
ghost use Rattle.heap_formula.specs.declared.commands.Command.{Command};
ghost use Rattle.heap_formula.specs.Judgements.{JudgementHolds};
ghost use Rattle.formula_reader.specs.declared.problem.Problem.{Problem};
ghost use Rattle.rule_book.specs.Graphs.{Node};
ghost use Rattle.proof_file.specs.declared.file.ProofFile.{ProofFile};
ghost use Rattle.logics.specs.declared.verdict.Verdict.TheVariants.{Accepted};
ghost use Rattle.proof_check.specs.Verdicts.{IsVerdict};
ghost use Rattle.cyc_runs.specs.declared.endings.Status.{Status};
ghost use Rattle.cyc_runs.specs.Runs.{input_limit};
ghost use Rattle.command_answers.specs.ModelAnswers.{IsModelled, holds_text};
ghost use Rattle.command_answers.specs.DisproveAnswers.{IsDisproved, IsRefuted};

/// A goal for which a counter-model is found does not hold, whatever the program.
pub fn refuted_goals_do_not_hold()
    ensures { (n : ℕ) (problem : Problem) (lines : List Command) → IsRefuted n problem
        → ¬ JudgementHolds problem.defs.list lines problem.goal }
{}

/// No proof file over the problem's definitions whose first node has such a goal is accepted by a check.
pub fn refuted_goals_have_no_proof()
    ensures { (n : ℕ) (problem : Problem) (file : ProofFile) (root : Node) → IsRefuted n problem
        → file.defs.list ≡ problem.defs.list → slice_get file.nodes 0 ≡ Some root
        → root.judgement ≡ problem.goal → ¬ IsVerdict file Accepted }
{}

/// What is written for a counter-model is a model file whose stack and heap satisfy its formula, as `model` answers.
pub fn written_models_hold()
    ensures { (n : ℕ) (input : List ℕ) (bytes : List ℕ) → IsDisproved n input Status.Success bytes
        → length bytes ≤ input_limit → IsModelled bytes Status.Success holds_text }
{}

/// An input has one answer: one status and one text.
pub fn inputs_have_one_answer()
    ensures { (n : ℕ) (input : List ℕ) (s t : Status) (xs ys : List ℕ)
        → IsDisproved n input s xs → IsDisproved n input t ys → (s ≡ t) × (xs ≡ ys) }
{}
