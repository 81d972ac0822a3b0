//! A run of a program that answers its whole input: bytes in, one text and a status out.
#![tactic(auto)]

ghost use Rattle.std.specs.Prelude.{◌≡◌, ◌≢◌, ◌+◌, ◌≤◌, ℕ, List, length, IfOk, OnOk, true};
ghost use Rattle.std.specs.Io.KnownBytes.{Appends};
ghost use Rattle.cyc_io.specs.Bytes.{AppendsProperPrefix, CameAtMost};
ghost use Rattle.cyc_io.specs.Causes.{Rose};
ghost use Rattle.cyc_runs.specs.Endings.{is_answer};
ghost use Rattle.cyc_runs.specs.Runs.{IsAnswerOf, IsReadThrough, WroteAnswer, WrotePart, input_limit};

mod answers;
mod endings;
mod exits;
mod faults;
mod inputs;
mod pieces;
pub mod texts;

pub use answers::{Answer, fixed_answer};
pub use cyc_basics::memory::OutOfMemory;
use cyc_io::{Sink, Source, write_all};
pub use endings::Status;
pub use exits::exit_code;
pub use faults::answer_to_fault;
use inputs::WholeInput;
use pieces::answer_in_pieces;
pub use pieces::{INPUT_LIMIT, NoAnswer, PIECE_LIMIT, PiecewiseTool, Turn, feed_piece};
use std::alloc::Global;

/// What a program does with an input that has come whole.
pub trait Tool {
    ghost use Rattle.cyc_runs.specs.declared.endings.Status.{Status};

    /// This input is answered with this status and this text.
    ghost answers: { Self → List ℕ → Status → List ℕ → Type 0 };

    /// The answer to an input within the limit.
    fn answer(&self, alloc: Global, input: &[u8]) -> Result<Answer, OutOfMemory>
        requires { length input.now ≤ input_limit }
        ensures answered { IfOk result (λ a. answers self.now input.now a.status a.text.items) }
        ensures ending { IfOk result (λ a. is_answer a.status ≡ true) };
}

/// Writes an answer, whole unless a write fails, and says how the run ends.
pub fn give<K: Sink>(answer: Answer, out: &mut K) -> Status
    requires { is_answer answer.status ≡ true }
    ensures whole { is_answer result ≡ true
        → (result ≡ answer.status) × Appends (K.written out.old) (K.written out.new) answer.text.items }
    ensures part { result ≡ Status.WriteFault → Rose (K.faults out.old) (K.faults out.new)
        × AppendsProperPrefix (K.written out.old) (K.written out.new) answer.text.items }
    ensures no_faults { is_answer result ≡ true → K.faults out.new ≡ K.faults out.old }
    ensures counted { K.faults out.old ≤ K.faults out.new }
    ensures read_fault { result ≢ Status.ReadFault }
    ensures memory { result ≢ Status.OutOfMemory }
{
    match write_all(out, answer.text.as_slice()) {
        Ok(()) => answer.status,
        Err(_) => Status::WriteFault,
    }
}

/// Writes an answer on which no input bears, if memory sufficed to make it, and says how the run ends.
pub fn give_made<K: Sink>(made: Result<Answer, OutOfMemory>, out: &mut K) -> Status
    requires { IfOk made (λ a. is_answer a.status ≡ true) }
    ensures whole { (status : Status) (text : List ℕ)
        → IfOk made (λ a. (a.status ≡ status) × (a.text.items ≡ text)) → is_answer result ≡ true
        → (result ≡ status) × Appends (K.written out.old) (K.written out.new) text }
    ensures part { (status : Status) (text : List ℕ)
        → IfOk made (λ a. (a.status ≡ status) × (a.text.items ≡ text))
        → result ≡ Status.WriteFault → AppendsProperPrefix (K.written out.old) (K.written out.new) text }
    ensures cause { result ≡ Status.WriteFault → Rose (K.faults out.old) (K.faults out.new) }
    ensures read_fault { result ≢ Status.ReadFault }
    ensures memory { result ≡ Status.OutOfMemory → out.new ≡ out.old }
    ensures wanting { OnOk made (result ≢ Status.OutOfMemory) }
    ensures no_faults { is_answer result ≡ true → K.faults out.new ≡ K.faults out.old }
    ensures counted { K.faults out.old ≤ K.faults out.new }
{
    match made {
        Ok(answer) => give(answer, out),
        Err(_) => Status::OutOfMemory,
    }
}

/// Reads the source to its end, or to one byte past the greatest input, and writes the tool's answer. The whole text
/// is made before its first byte is written.
pub fn run_over<T: Tool, S: Source, K: Sink>(
    alloc: Global,
    tool: &T,
    src: &mut S,
    out: &mut K,
) -> Status
    // The text of the answer to the bytes that the source told was written, whole.
    ensures answered { is_answer result ≡ true
        → WroteAnswer (IsAnswerOf (T.answers tool.now)) (S.left src.old)
        (K.written out.old) (K.written out.new) result }
    ensures through { is_answer result ≡ true → IsReadThrough (S.left src.old) (S.left src.new) }
    ensures read_fault { result ≡ Status.ReadFault → Rose (S.faults src.old) (S.faults src.new) × (out.new ≡ out.old) }
    // A read fails, if one does, before a byte past the limit has come.
    ensures before_fault { result ≡ Status.ReadFault → CameAtMost (S.left src.old) (S.left src.new) input_limit }
    // However the run ends, at most one byte past the limit is taken.
    ensures taken { CameAtMost (S.left src.old) (S.left src.new) (input_limit + 1) }
    ensures write_fault { result ≡ Status.WriteFault → Rose (K.faults out.old) (K.faults out.new)
        × WrotePart (IsAnswerOf (T.answers tool.now)) (S.left src.old) (K.written out.old) (K.written out.new) }
    // Neither a failed read nor a failed write ends so.
    ensures memory { result ≡ Status.OutOfMemory → (out.new ≡ out.old) × (S.faults src.new ≡ S.faults src.old) }
    // After a failed read or write no answer is given.
    ensures no_faults { is_answer result ≡ true
        → (S.faults src.new ≡ S.faults src.old) × (K.faults out.new ≡ K.faults out.old) }
    ensures counted { (S.faults src.old ≤ S.faults src.new) × (K.faults out.old ≤ K.faults out.new) }
{
    let whole = WholeInput {
        tool,
        bytes: Vec::new(alloc),
    };
    run_in_pieces(alloc, whole, src, out)
}

/// Does what `run_over` does for a tool that is fed the input in pieces. A tool that runs out of memory ends the run at
/// once.
pub fn run_in_pieces<T: PiecewiseTool + Drop, S: Source, K: Sink>(
    alloc: Global,
    tool: T,
    src: &mut S,
    out: &mut K,
) -> Status
    requires { T.fed tool ≡ 0 }
    // The text of the answer to the bytes that the source told was written, whole.
    ensures answered { is_answer result ≡ true
        → WroteAnswer (IsAnswerOf (T.answers tool)) (S.left src.old) (K.written out.old) (K.written out.new) result }
    ensures through { is_answer result ≡ true → IsReadThrough (S.left src.old) (S.left src.new) }
    ensures read_fault { result ≡ Status.ReadFault → Rose (S.faults src.old) (S.faults src.new) × (out.new ≡ out.old) }
    // A read fails, if one does, before a byte past the limit has come.
    ensures before_fault { result ≡ Status.ReadFault → CameAtMost (S.left src.old) (S.left src.new) input_limit }
    // However the run ends, at most one byte past the limit is taken.
    ensures taken { CameAtMost (S.left src.old) (S.left src.new) (input_limit + 1) }
    ensures write_fault { result ≡ Status.WriteFault → Rose (K.faults out.old) (K.faults out.new)
        × WrotePart (IsAnswerOf (T.answers tool)) (S.left src.old) (K.written out.old) (K.written out.new) }
    // Neither a failed read nor a failed write ends so.
    ensures memory { result ≡ Status.OutOfMemory → (out.new ≡ out.old) × (S.faults src.new ≡ S.faults src.old) }
    // After a failed read or write no answer is given.
    ensures no_faults { is_answer result ≡ true
        → (S.faults src.new ≡ S.faults src.old) × (K.faults out.new ≡ K.faults out.old) }
    ensures counted { (S.faults src.old ≤ S.faults src.new) × (K.faults out.old ≤ K.faults out.new) }
{
    match answer_in_pieces(alloc, tool, src) {
        Ok(answer) => give(answer, out),
        Err(NoAnswer::ReadFault) => Status::ReadFault,
        Err(NoAnswer::OutOfMemory) => Status::OutOfMemory,
    }
}
