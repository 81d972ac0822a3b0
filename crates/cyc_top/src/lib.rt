//! The top call: words and a source of bytes in, one line and a status out.
#![tactic(auto)]

ghost use Rattle.std.specs.Prelude.{◌≡◌, ◌+◌, ◌≤◌, ℕ, List, length, map, string_bytes, true, false, Some, Ok, ◌⊎◌};
ghost use Rattle.heap_formula.specs.declared.proof_rules.Reason.{Reason};
ghost use Rattle.derivations.specs.System.{IsFound, search_of};
ghost use Rattle.formula_reader.specs.declared.problem.Problem.{Problem};
ghost use Rattle.formula_reader.specs.Reading as problems;
ghost use Rattle.buchi_inclusion.specs.Answers.{HasAtMost};
ghost use Rattle.proof_file.specs.declared.file.ProofFile.{ProofFile};
ghost use Rattle.proof_file.specs.Reading as files;
ghost use Rattle.proof_check.specs.Verdicts.{file_graph, state_limit, IsCorrect};
ghost use Rattle.proof_search.specs.Outcomes.{search_for};
ghost use Rattle.fo_formula.specs.declared.nodes.FoFile.{FoFile};
ghost use Rattle.fo_formula.specs.declared.nodes.FoReason.{FoReason};
ghost use Rattle.fo_file.specs.declared.values.problem.FoProblem.{FoProblem};
ghost use Rattle.fo_search.specs.Outcomes as first_order_searches;
ghost use Rattle.fo_file.specs.Reading as first_order;
ghost use Rattle.fo_logic.specs.Verdicts as first_order_verdicts;
ghost use Rattle.cyc_io.specs.Bytes.{CameAtMost};
ghost use Rattle.cyc_io.specs.Causes.{Rose};
ghost use Rattle.cyc_words.specs.Words.{IsInRange, meaning_of, reads_input};
ghost use Rattle.cyc_words.specs.declared.tasks.Task.TheVariants.{Check, Prove, Ring, Upgrade, Disprove};
ghost use Rattle.cyc_words.specs.declared.tasks.Task.TheVariants.{FirstOrderProve, FirstOrderCheck};
ghost use Rattle.cyc_runs.specs.Endings.{is_answer};
ghost use Rattle.cyc_runs.specs.Runs.{IsReadThrough, input_limit};
ghost use Rattle.cyc_top.specs.Answers.{IsAnswer, IsHeadline, IsRefusal, IsUnrefuted, WroteAnswer};
ghost use Rattle.cyc_top.specs.Answers.{WroteFirstOrderProof, WroteModel, WrotePart, WroteProof, WroteUpgrade};
ghost use Rattle.cyc_top.specs.Answers.{derivation_limit};

mod laws;
mod program;
mod rings;
mod searches;
mod upgrades;

use check_answers::check_input;
use command_answers::disprove::Disprover;
use command_answers::first_order::{FirstOrderChecker, FirstOrderProver};
use command_answers::model::ModelChecker;
use command_answers::sat::Satisfier;
use cyc_io::{Sink, Source};
pub use cyc_runs::Status;
use cyc_runs::{fixed_answer, give_made, run_over};
use cyc_words::{Task, USAGE, task_of};
pub use laws::{an_input_has_one_answer, limits_are_these};
pub use program::run_program;
use rings::answer_to_ring;
use searches::Prover;
use std::alloc::Global;
use upgrades::Upgrader;

// Does what a task asks for, or says which words have a meaning.
fn run_task<S: Source, K: Sink>(
    alloc: Global,
    task: Option<Task>,
    src: &mut S,
    out: &mut K,
) -> Status
    requires { IsInRange task }
    ensures answered { is_answer result ≡ true
        → WroteAnswer task (S.left src.old) (K.written out.old) (K.written out.new) result }
    ensures through { is_answer result ≡ true → reads_input task ≡ true
        → IsReadThrough (S.left src.old) (S.left src.new) }
    ensures taken { CameAtMost (S.left src.old) (S.left src.new) (input_limit + 1) }
    ensures read_fault { result ≡ Status.ReadFault → Rose (S.faults src.old) (S.faults src.new) × (out.new ≡ out.old) }
    ensures before_fault { result ≡ Status.ReadFault → CameAtMost (S.left src.old) (S.left src.new) input_limit }
    // Only a task that needs its input reads.
    ensures asked { result ≡ Status.ReadFault → reads_input task ≡ true }
    ensures write_fault { result ≡ Status.WriteFault → Rose (K.faults out.old) (K.faults out.new)
        × WrotePart task (S.left src.old) (K.written out.old) (K.written out.new) }
    ensures memory { result ≡ Status.OutOfMemory → (out.new ≡ out.old) × (S.faults src.new ≡ S.faults src.old) }
    ensures no_faults { is_answer result ≡ true
        → (S.faults src.new ≡ S.faults src.old) × (K.faults out.new ≡ K.faults out.old) }
    ensures counted { (S.faults src.old ≤ S.faults src.new) × (K.faults out.old ≤ K.faults out.new) }
    ensures unread { reads_input task ≡ false → src.new ≡ src.old }
{
    match task {
        Some(Task::Check) => check_input(alloc, src, out),
        Some(Task::Prove(depth)) => run_over(alloc, &Prover::new(depth), src, out),
        Some(Task::Upgrade) => run_over(alloc, &Upgrader, src, out),
        Some(Task::Sat) => run_over(alloc, &Satisfier, src, out),
        Some(Task::Model) => run_over(alloc, &ModelChecker, src, out),
        Some(Task::Disprove(cells)) => run_over(alloc, &Disprover::new(cells), src, out),
        Some(Task::FirstOrderProve(depth)) => {
            run_over(alloc, &FirstOrderProver::new(depth), src, out)
        }
        Some(Task::FirstOrderCheck) => run_over(alloc, &FirstOrderChecker, src, out),
        Some(Task::Ring(k)) => give_made(answer_to_ring(alloc, k), out),
        None => give_made(fixed_answer(alloc, Status::Usage, USAGE), out),
    }
}

/// Does what the words of the command line, the program's name not among them, ask for: writes one
/// line and says how it ended. The whole line is made before its first byte is written.
pub fn run<S: Source, K: Sink>(alloc: Global, words: &[String], src: &mut S, out: &mut K) -> Status
    // The line of the answer to the words and to the bytes that the source told was written, whole.
    ensures answered { is_answer result ≡ true
        → WroteAnswer (meaning_of (map string_bytes words.now)) (S.left src.old)
        (K.written out.old) (K.written out.new) result }
    // Where the words have this answer for the told bytes, it comes, unless a read or a write fails.
    ensures exact { (input : List ℕ) (status : Status) (text : List ℕ) → S.left src.old ≡ Some input
        → IsAnswer (meaning_of (map string_bytes words.now)) input status text
        → ¬ Rose (S.faults src.old) (S.faults src.new) → ¬ Rose (K.faults out.old) (K.faults out.new)
        → (result ≡ status) ⊎ (result ≡ Status.OutOfMemory) }
    // What was checked with success is true.
    ensures headline { result ≡ Status.Success → IsHeadline (meaning_of (map string_bytes words.now)) (S.left src.old) }
    // What was refused is not so: a proof, the satisfiability of an antecedent, or the truth of a formula.
    ensures refusal { result ≡ Status.Refused → IsRefusal (meaning_of (map string_bytes words.now)) (S.left src.old) }
    // A correct file with few states is accepted.
    ensures accepts { (input : List ℕ) (file : ProofFile) → meaning_of (map string_bytes words.now) ≡ Some Check
        → S.left src.old ≡ Some input → length input ≤ input_limit → files.IsRead input (Ok file)
        → IsCorrect file → HasAtMost (file_graph file) state_limit
        → ¬ Rose (S.faults src.old) (S.faults src.new) → ¬ Rose (K.faults out.old) (K.faults out.new)
        → (result ≡ Status.Success) ⊎ (result ≡ Status.OutOfMemory) }
    // So is a correct first-order proof.
    ensures accepts_first_order { (input : List ℕ) (file : FoFile)
        → meaning_of (map string_bytes words.now) ≡ Some FirstOrderCheck
        → S.left src.old ≡ Some input → length input ≤ input_limit → first_order.IsRead input (Ok file)
        → first_order_verdicts.IsCorrect file → HasAtMost (first_order_verdicts.file_graph file) state_limit
        → ¬ Rose (S.faults src.old) (S.faults src.new) → ¬ Rose (K.faults out.old) (K.faults out.new)
        → (result ≡ Status.Success) ⊎ (result ≡ Status.OutOfMemory) }
    // A search that finds within its limits ends with success.
    ensures complete { (depth : ℕ) (input : List ℕ) (problem : Problem) (d : List Reason)
        → meaning_of (map string_bytes words.now) ≡ Some (Prove depth)
        → S.left src.old ≡ Some input → length input ≤ input_limit → problems.IsRead input (Ok problem)
        → search_of (search_for problem) derivation_limit depth ≡ IsFound d
        → ¬ Rose (S.faults src.old) (S.faults src.new) → ¬ Rose (K.faults out.old) (K.faults out.new)
        → (result ≡ Status.Success) ⊎ (result ≡ Status.OutOfMemory) }
    // So does a search in first-order logic.
    ensures complete_first_order { (depth : ℕ) (input : List ℕ) (problem : FoProblem) (d : List FoReason)
        → meaning_of (map string_bytes words.now) ≡ Some (FirstOrderProve depth)
        → S.left src.old ≡ Some input → length input ≤ input_limit → first_order.IsReadProblem input (Ok problem)
        → search_of (first_order_searches.search_for problem) derivation_limit depth ≡ IsFound d
        → ¬ Rose (S.faults src.old) (S.faults src.new) → ¬ Rose (K.faults out.old) (K.faults out.new)
        → (result ≡ Status.Success) ⊎ (result ≡ Status.OutOfMemory) }
    // What prove writes, check accepts.
    ensures proof { (depth : ℕ) → meaning_of (map string_bytes words.now) ≡ Some (Prove depth)
        → result ≡ Status.Success → WroteProof (K.written out.old) (K.written out.new) }
    // What fo writes, fo-check accepts.
    ensures first_order_proof { (depth : ℕ) → meaning_of (map string_bytes words.now) ≡ Some (FirstOrderProve depth)
        → result ≡ Status.Success → WroteFirstOrderProof (K.written out.old) (K.written out.new) }
    // A file is upgraded, correct or not.
    ensures upgrades { (input : List ℕ) (file : ProofFile) → meaning_of (map string_bytes words.now) ≡ Some Upgrade
        → S.left src.old ≡ Some input → length input ≤ input_limit → files.IsRead input (Ok file)
        → ¬ Rose (S.faults src.old) (S.faults src.new) → ¬ Rose (K.faults out.old) (K.faults out.new)
        → (result ≡ Status.Success) ⊎ (result ≡ Status.OutOfMemory) }
    // What upgrade writes, check accepts where it accepts the input.
    ensures upgraded { meaning_of (map string_bytes words.now) ≡ Some Upgrade → result ≡ Status.Success
        → WroteUpgrade (S.left src.old) (K.written out.old) (K.written out.new) }
    // What disprove writes, model answers with success: stack and heap satisfy the antecedent.
    ensures refuted { (cells : ℕ) → meaning_of (map string_bytes words.now) ≡ Some (Disprove cells)
        → result ≡ Status.Success → WroteModel (K.written out.old) (K.written out.new) }
    // Where disprove finds none of the size, there is none.
    ensures unrefuted { (cells : ℕ) → meaning_of (map string_bytes words.now) ≡ Some (Disprove cells)
        → result ≡ Status.NotFound → IsUnrefuted cells (S.left src.old) }
    // A ring's proof is right, so that there is no refusal.
    ensures ring { (k : ℕ) → meaning_of (map string_bytes words.now) ≡ Some (Ring k)
        → (result ≡ Status.Success) ⊎ ((result ≡ Status.WriteFault) ⊎ (result ≡ Status.OutOfMemory)) }
    // A task that needs its input was answered at the input's end, or after one byte more than may come.
    ensures through { is_answer result ≡ true → reads_input (meaning_of (map string_bytes words.now)) ≡ true
        → IsReadThrough (S.left src.old) (S.left src.new) }
    // However it ends, it reads no further than it needs to know that the input is too long.
    ensures taken { CameAtMost (S.left src.old) (S.left src.new) (input_limit + 1) }
    ensures read_fault { result ≡ Status.ReadFault → Rose (S.faults src.old) (S.faults src.new) × (out.new ≡ out.old) }
    ensures before_fault { result ≡ Status.ReadFault → CameAtMost (S.left src.old) (S.left src.new) input_limit }
    ensures write_fault { result ≡ Status.WriteFault → Rose (K.faults out.old) (K.faults out.new)
        × WrotePart (meaning_of (map string_bytes words.now)) (S.left src.old) (K.written out.old) (K.written out.new) }
    // Neither a failed read nor a failed write ends so.
    ensures memory { result ≡ Status.OutOfMemory → (out.new ≡ out.old) × (S.faults src.new ≡ S.faults src.old) }
    // After a failed read or write no answer is given.
    ensures no_faults { is_answer result ≡ true
        → (S.faults src.new ≡ S.faults src.old) × (K.faults out.new ≡ K.faults out.old) }
    ensures counted { (S.faults src.old ≤ S.faults src.new) × (K.faults out.old ≤ K.faults out.new) }
    // A task that needs no input leaves the source as it was.
    ensures unread { reads_input (meaning_of (map string_bytes words.now)) ≡ false → src.new ≡ src.old }
{
    match task_of(alloc, words) {
        Ok(task) => run_task(alloc, task, src, out),
        Err(_) => Status::OutOfMemory,
    }
}
