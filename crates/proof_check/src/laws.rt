// The laws of correct files. The functions do nothing.
ghost use Rattle.std.specs.Prelude.{◌≡◌, ℕ, List, Some, slice_get};
ghost use Rattle.heap_formula.specs.Definitions.{Definition, HasFewCases};
ghost use Rattle.heap_formula.specs.Judgements.{JudgementHolds};
ghost use Rattle.heap_formula.specs.declared.commands.Command.{Command};
ghost use Rattle.rule_table.specs.Soundness.{IsCommand};
ghost use Rattle.trace_pairs.specs.Lasso.{AllProgress};
ghost use Rattle.buchi_inclusion.specs.Answers.{HasAtMost};
ghost use Rattle.heap_formula.specs.Words.{Each};
ghost use Rattle.proof_file.specs.declared.file.ProofFile.{ProofFile};
ghost use Rattle.proof_check.specs.Widened.{IsWidened};
ghost use Rattle.proof_file.specs.Upgrades.{IsUpgrade};
ghost use Rattle.cyc_basics.specs.declared.limits.Limits.{Limits};
ghost use Rattle.logics.specs.declared.verdict.Verdict.TheVariants.{Accepted};
ghost use Rattle.proof_check.specs.Files.{Node, graph_of, AreReadable, AreRight, HasSmallHeaps};
ghost use Rattle.proof_check.specs.Verdicts.{Verdict, file_graph, state_limit, IsCorrect, IsVerdict};

/// Where every node is right and every lasso progresses, the judgement of node 0 holds.
pub fn correct_files_hold()
    ensures { (most : Limits) (ds : List Definition) (lines : List Command) (nodes : List Node) (root : Node)
        → Each IsCommand lines → Each HasFewCases ds → HasSmallHeaps nodes → AreReadable nodes
        → AreRight most ds lines nodes → slice_get nodes 0 ≡ Some root → AllProgress (graph_of most ds lines nodes)
        → JudgementHolds ds lines root.judgement }
{}

/// Of a correct file with few states no check can say anything but that it is accepted.
pub fn correct_files_are_accepted()
    ensures { (f : ProofFile) (v : Verdict) → IsVerdict f v → IsCorrect f → HasAtMost (file_graph f) state_limit
        → v ≡ Accepted }
{}

/// A file is correct exactly where the same as a file of a version that allows as much is, and then both have one trace
/// graph, so as many product states.
pub fn wider_files_are_as_correct()
    ensures correct { (f g : ProofFile) → IsWidened f g → IsCorrect f → IsCorrect g }
    ensures before { (f g : ProofFile) → IsWidened f g → IsCorrect g → IsCorrect f }
    ensures graph { (f g : ProofFile) → IsWidened f g → IsCorrect f → file_graph g ≡ file_graph f }
{}

/// So is its upgrade.
pub fn upgraded_files_are_as_correct()
    ensures correct { (f g : ProofFile) → IsUpgrade f g → IsCorrect f → IsCorrect g }
    ensures before { (f g : ProofFile) → IsUpgrade f g → IsCorrect g → IsCorrect f }
    ensures graph { (f g : ProofFile) → IsUpgrade f g → IsCorrect f → file_graph g ≡ file_graph f }
{}
