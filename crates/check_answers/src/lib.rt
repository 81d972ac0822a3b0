//! The answers of the command `check`; and the top call of the checker alone: a source of bytes in, one line and a
//! status out.
#![tactic(auto)]

ghost use Rattle.std.specs.Prelude.{◌≡◌, ◌≢◌, ◌+◌, ◌≤◌, ◌⊎◌, ℕ, List, length, true, Some, Ok};
ghost use Rattle.buchi_inclusion.specs.Answers.{HasAtMost};
ghost use Rattle.proof_file.specs.declared.file.ProofFile.{ProofFile};
ghost use Rattle.proof_file.specs.Reading.{IsRead};
ghost use Rattle.proof_check.specs.Verdicts.{IsCorrect, RootHolds, file_graph, state_limit};
ghost use Rattle.cyc_io.specs.Causes.{Rose};
ghost use Rattle.cyc_io.specs.Bytes.{CameAtMost};
ghost use Rattle.cyc_runs.specs.Endings.{is_answer};
ghost use Rattle.cyc_runs.specs.Runs.{IsAnswerOf, IsReadThrough, WroteAnswer, WrotePart, input_limit};
ghost use Rattle.check_answers.specs.Answers.{IsAnswer, IsChecked, ToldFileOf};

mod program;
mod verdicts;

use cyc_io::{Sink, Source};
pub use cyc_runs::Status;
use cyc_runs::{fixed_answer, give_made, run_in_pieces};
pub use program::run_program;
use std::alloc::Global;
use verdicts::Checker;
pub use verdicts::links_of;

/// Does what the command `check` does: reads the source in pieces to its end, as a proof file, and writes the line of
/// the verdict or of the input's first fault.
pub fn check_input<S: Source, K: Sink>(alloc: Global, src: &mut S, out: &mut K) -> Status
    // The text of the answer to the bytes that the source told was written, whole.
    ensures answered { is_answer result ≡ true
        → WroteAnswer (IsAnswerOf IsChecked) (S.left src.old) (K.written out.old) (K.written out.new) result }
    ensures through { is_answer result ≡ true → IsReadThrough (S.left src.old) (S.left src.new) }
    // However it ends, it reads no further than it needs to know that the input is too long.
    ensures taken { CameAtMost (S.left src.old) (S.left src.new) (input_limit + 1) }
    ensures read_fault { result ≡ Status.ReadFault → Rose (S.faults src.old) (S.faults src.new) × (out.new ≡ out.old) }
    ensures before_fault { result ≡ Status.ReadFault → CameAtMost (S.left src.old) (S.left src.new) input_limit }
    ensures write_fault { result ≡ Status.WriteFault → Rose (K.faults out.old) (K.faults out.new)
        × WrotePart (IsAnswerOf IsChecked) (S.left src.old) (K.written out.old) (K.written out.new) }
    // Neither a failed read nor a failed write ends so.
    ensures memory { result ≡ Status.OutOfMemory → (out.new ≡ out.old) × (S.faults src.new ≡ S.faults src.old) }
    // After a failed read or write no answer is given.
    ensures no_faults { is_answer result ≡ true
        → (S.faults src.new ≡ S.faults src.old) × (K.faults out.new ≡ K.faults out.old) }
    ensures counted { (S.faults src.old ≤ S.faults src.new) × (K.faults out.old ≤ K.faults out.new) }
{
    run_in_pieces(alloc, Checker::new(alloc), src, out)
}

/// Checks the proof file that the source holds, if there are no words beyond the program's name; any word gives the
/// usage. The whole line is made before its first byte is written.
pub fn run<S: Source, K: Sink>(alloc: Global, words: &[String], src: &mut S, out: &mut K) -> Status
    // The line of the answer to the words and to the bytes that the source told was written, whole.
    ensures answered { is_answer result ≡ true
        → WroteAnswer (IsAnswer (length words.now)) (S.left src.old) (K.written out.old) (K.written out.new) result }
    // Where the words have this answer for the told bytes, it comes, unless a read or a write fails.
    ensures exact { (input : List ℕ) (status : Status) (text : List ℕ) → S.left src.old ≡ Some input
        → IsAnswer (length words.now) input status text
        → ¬ Rose (S.faults src.old) (S.faults src.new) → ¬ Rose (K.faults out.old) (K.faults out.new)
        → (result ≡ status) ⊎ (result ≡ Status.OutOfMemory) }
    // What was checked with success is true.
    ensures headline { result ≡ Status.Success → ToldFileOf RootHolds (S.left src.old) }
    // What was refused is not correct.
    ensures refusal { result ≡ Status.Refused → ToldFileOf (λ file. ¬ IsCorrect file) (S.left src.old) }
    // A correct file with few states is accepted.
    ensures accepts { (input : List ℕ) (file : ProofFile) → length words.now ≡ 0
        → S.left src.old ≡ Some input → length input ≤ input_limit → IsRead input (Ok file)
        → IsCorrect file → HasAtMost (file_graph file) state_limit
        → ¬ Rose (S.faults src.old) (S.faults src.new) → ¬ Rose (K.faults out.old) (K.faults out.new)
        → (result ≡ Status.Success) ⊎ (result ≡ Status.OutOfMemory) }
    ensures through { is_answer result ≡ true → length words.now ≡ 0 → IsReadThrough (S.left src.old) (S.left src.new) }
    ensures taken { CameAtMost (S.left src.old) (S.left src.new) (input_limit + 1) }
    ensures read_fault { result ≡ Status.ReadFault → Rose (S.faults src.old) (S.faults src.new) × (out.new ≡ out.old) }
    ensures before_fault { result ≡ Status.ReadFault → CameAtMost (S.left src.old) (S.left src.new) input_limit }
    ensures write_fault { result ≡ Status.WriteFault → Rose (K.faults out.old) (K.faults out.new)
        × WrotePart (IsAnswer (length words.now)) (S.left src.old) (K.written out.old) (K.written out.new) }
    ensures memory { result ≡ Status.OutOfMemory → (out.new ≡ out.old) × (S.faults src.new ≡ S.faults src.old) }
    ensures no_faults { is_answer result ≡ true
        → (S.faults src.new ≡ S.faults src.old) × (K.faults out.new ≡ K.faults out.old) }
    ensures counted { (S.faults src.old ≤ S.faults src.new) × (K.faults out.old ≤ K.faults out.new) }
    // Words leave the source as it was.
    ensures unread { length words.now ≢ 0 → src.new ≡ src.old }
{
    match words {
        [] => check_input(alloc, src, out),
        _ => give_made(fixed_answer(alloc, Status::Usage, "usage: check\n"), out),
    }
}
