// The program `words`.
ghost use Rattle.std.specs.Prelude.{◌≡◌, true, IfOk};
ghost use Rattle.std.specs.Process.{exit_status};
ghost use Rattle.cyc_io.specs.Causes.{Rose};
ghost use Rattle.cyc_runs.specs.Endings.{is_answer};
ghost use Rattle.cyc_runs.specs.Runs.{IsAnswerOf, WroteAnswer};
ghost use Rattle.rule_logics.specs.declared.texts.program.Task.{Task};
ghost use Rattle.rule_logics.specs.Tasks.{IsReading, IsSearchable};
ghost use Rattle.word_inclusions.specs.Tasks.{IsAnswer, Succeeded};

use crate::WordInclusions;
use crate::texts::text::WordTexts;
use cyc_io::{Sink, Source};
use cyc_runs::Status;
use rule_logics::OutOfMemory;
use rule_logics::texts::Task;
use std::alloc::Global;
use std::process::ExitCode;

/// Does what the task says: reads the source to its end and writes the answer, or writes the usage.
pub fn run<S: Source, K: Sink>(alloc: Global, task: Task, src: &mut S, out: &mut K) -> Status
    requires { IsSearchable task }
    // The text of the answer to the bytes that the source told was written, whole.
    ensures answered { is_answer result ≡ true → IsReading task
        → WroteAnswer (IsAnswerOf (IsAnswer task)) (S.left src.old) (K.written out.old) (K.written out.new) result }
    // Success of `check`: the bytes spell a proof of an inclusion. Of `prove`: they spell an inclusion, and what was
    // written is a proof of it that `check` accepts.
    ensures headline { result ≡ Status.Success
        → Succeeded task (S.left src.old) (K.written out.old) (K.written out.new) }
    ensures read_fault { result ≡ Status.ReadFault → Rose (S.faults src.old) (S.faults src.new) × (out.new ≡ out.old) }
    ensures write_fault { result ≡ Status.WriteFault → Rose (K.faults out.old) (K.faults out.new) }
    ensures memory { result ≡ Status.OutOfMemory → out.new ≡ out.old }
{
    rule_logics::texts::run(alloc, &WordInclusions, &WordTexts, task, src, out)
}

/// All that `main` does but for its calls to the host: a run, and the number of its status.
pub fn run_program<S: Source, K: Sink>(
    alloc: Global,
    words: Result<Vec<String>, OutOfMemory>,
    src: &mut S,
    out: &mut K,
) -> ExitCode
    ensures { IfOk words (λ w. exit_status result ≡ 0
        → (task : Task) × Succeeded task (S.left src.old) (K.written out.old) (K.written out.new)) }
{
    rule_logics::texts::run_program(alloc, &WordInclusions, &WordTexts, words, src, out)
}
