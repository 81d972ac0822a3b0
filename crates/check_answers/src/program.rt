// What the program does but for its calls to the host.
ghost use Rattle.std.specs.Prelude.{◌≡◌, ◌⊎◌, ℕ, List, length, IfOk, IsErr, Some};
ghost use Rattle.std.specs.Process.{exit_status};
ghost use Rattle.proof_check.specs.Verdicts.{IsCorrect, RootHolds};
ghost use Rattle.cyc_io.specs.Causes.{Rose};
ghost use Rattle.cyc_runs.specs.declared.endings.Status.{Status};
ghost use Rattle.cyc_runs.specs.Endings.{status_code};
ghost use Rattle.cyc_runs.specs.Exits.{EndedBy, Wrote};
ghost use Rattle.check_answers.specs.Answers.{IsAnswer, ToldFileOf};

use crate::run;
use cyc_basics::memory::OutOfMemory;
use cyc_io::{Sink, Source};
use cyc_runs::exit_code;
use std::alloc::Global;
use std::process::ExitCode;

/// What `main` does with the words of its command line, where memory held them, and with standard input and output: a
/// run, and the number of its status.
pub fn run_program<S: Source, K: Sink>(
    alloc: Global,
    words: Result<Vec<String>, OutOfMemory>,
    src: &mut S,
    out: &mut K,
) -> ExitCode
    // The number, 0 to 9, is that of a status that fits what was written.
    ensures ended { EndedBy words (λ w ending. Wrote (IsAnswer (length w.items))
        (S.left src.old) (K.written out.old) (K.written out.new) ending) (exit_status result) }
    // 0: what was checked is true.
    ensures headline { exit_status result ≡ 0 → ToldFileOf RootHolds (S.left src.old) }
    // 1: what was refused is not correct.
    ensures refusal { exit_status result ≡ 1 → ToldFileOf (λ file. ¬ IsCorrect file) (S.left src.old) }
    // Where the words have this answer for the told bytes, the number is its status's, or 9, unless a read or a write
    // fails.
    ensures exact { IfOk words (λ w. (input : List ℕ) (status : Status) (text : List ℕ) → S.left src.old ≡ Some input
        → IsAnswer (length w.items) input status text
        → ¬ Rose (S.faults src.old) (S.faults src.new) → ¬ Rose (K.faults out.old) (K.faults out.new)
        → (exit_status result ≡ status_code status) ⊎ (exit_status result ≡ 9)) }
    // Without words nothing is read, and nothing written.
    ensures no_words { IsErr words → (src.new ≡ src.old) × (out.new ≡ out.old) }
{
    let ended = match words {
        Ok(words) => Ok(run(alloc, words.as_slice(), src, out)),
        Err(OutOfMemory) => Err(OutOfMemory),
    };
    exit_code(ended)
}
