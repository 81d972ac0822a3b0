//! The top call of `solve`: words and a source of bytes in, one word, a certificate and a status out. Does a problem's
//! goal hold? The answer is a proof, a counter-model, or a run that shows that the program does not halt; or that
//! nothing is known. A script of the field's competition becomes a problem first. A question for a frame is answered by
//! a problem that says what is left, and its proof; or by a model of the antecedent no part of which is what was asked
//! for.
#![tactic(auto)]

ghost use Rattle.std.specs.Prelude.{◌≡◌, ◌+◌, ◌≤◌, ◌⊎◌, ℕ, List, Some, None, IsSome, map, string_bytes, true, false};
ghost use Rattle.cyc_io.specs.Bytes.{CameAtMost};
ghost use Rattle.cyc_io.specs.Causes.{Rose};
ghost use Rattle.cyc_runs.specs.Endings.{is_answer};
ghost use Rattle.cyc_runs.specs.Runs.{IsReadThrough, WroteAnswer, WrotePart, input_limit};
ghost use Rattle.solve_top.specs.Answers.{EndAlike, IsAnswer};
ghost use Rattle.script_answers.specs.Begins.{is_script_text};
ghost use Rattle.solve_top.specs.Words.{effort_of as effort_by};
ghost use Rattle.solve_top.specs.Written.{WroteHolds, WroteFails};

mod answering;
mod answers;
pub mod explanations;
mod findings;
mod frameless;
mod inputs;
mod notes;
mod possibilities;
mod program;
mod questions;
mod scripts;
mod words;

use answering::Solver;
use cyc_io::{Sink, Source};
pub use cyc_runs::Status;
use cyc_runs::{fixed_answer, give_made, run_over};
pub use program::run_program;
use std::alloc::Global;
use words::effort_of;

/// The line for words that have no meaning.
const USAGE: &str = "usage: solve [--effort N]\n";

/// Answers the problem, the run or the script that the source holds, with the effort that the words ask for. The first
/// line has one word, or says why the input cannot be read; notes and a certificate follow. The whole text is made
/// before its first byte is written.
pub fn run<S: Source, K: Sink>(alloc: Global, words: &[String], src: &mut S, out: &mut K) -> Status
    // The text of the answer to the words and to the bytes that the source told was written, whole.
    ensures answered { is_answer result ≡ true → WroteAnswer (IsAnswer (map string_bytes words.now))
        (S.left src.old) (K.written out.old) (K.written out.new) result }
    // Where the words have this answer for the told bytes, the run ends so, unless a read or a write fails; but of a
    // problem no more is said than that it is answered, and that no two answers contradict each other; and of a script
    // nothing.
    ensures exact { (input : List ℕ) (status : Status) (text : List ℕ) → S.left src.old ≡ Some input
        → IsAnswer (map string_bytes words.now) input status text → is_script_text input ≡ false
        → ¬ Rose (S.faults src.old) (S.faults src.new) → ¬ Rose (K.faults out.old) (K.faults out.new)
        → EndAlike result status ⊎ (result ≡ Status.OutOfMemory) }
    // The goal of the problem holds, and what was written shows it; or the run is as its file tells; or a script became
    // a problem that asks what it does, and what was written shows whether something satisfies the script; or a frame
    // was asked for, and what was written shows one, or nothing satisfies the antecedent.
    ensures headline { result ≡ Status.Success
        → WroteHolds (S.left src.old) (K.written out.old) (K.written out.new) }
    // The goal of the problem does not hold, and what was written shows it; or the run is not as its file tells; or the
    // same of a script; or a frame was asked for, and what was written shows that there is none.
    ensures refutation { result ≡ Status.Refused
        → WroteFails (S.left src.old) (K.written out.old) (K.written out.new) }
    ensures through { is_answer result ≡ true → IsSome (effort_by (map string_bytes words.now))
        → IsReadThrough (S.left src.old) (S.left src.new) }
    // However it ends, it reads no further than it needs to know that the input is too long.
    ensures taken { CameAtMost (S.left src.old) (S.left src.new) (input_limit + 1) }
    ensures read_fault { result ≡ Status.ReadFault → Rose (S.faults src.old) (S.faults src.new) × (out.new ≡ out.old) }
    ensures before_fault { result ≡ Status.ReadFault → CameAtMost (S.left src.old) (S.left src.new) input_limit }
    ensures write_fault { result ≡ Status.WriteFault → Rose (K.faults out.old) (K.faults out.new)
        × WrotePart (IsAnswer (map string_bytes words.now)) (S.left src.old) (K.written out.old) (K.written out.new) }
    // Neither a failed read nor a failed write ends so.
    ensures memory { result ≡ Status.OutOfMemory → (out.new ≡ out.old) × (S.faults src.new ≡ S.faults src.old) }
    // After a failed read or write no answer is given.
    ensures no_faults { is_answer result ≡ true
        → (S.faults src.new ≡ S.faults src.old) × (K.faults out.new ≡ K.faults out.old) }
    ensures counted { (S.faults src.old ≤ S.faults src.new) × (K.faults out.old ≤ K.faults out.new) }
    // Words without a meaning leave the source as it was.
    ensures unread { effort_by (map string_bytes words.now) ≡ None → src.new ≡ src.old }
{
    match effort_of(words) {
        Some(effort) => run_over(alloc, &Solver { effort }, src, out),
        None => give_made(fixed_answer(alloc, Status::Usage, USAGE), out),
    }
}
