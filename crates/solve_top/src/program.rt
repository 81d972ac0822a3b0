// What the program does but for its calls to the host.
ghost use Rattle.std.specs.Prelude.{◌≡◌, map, string_bytes, IsErr};
ghost use Rattle.std.specs.Process.{exit_status};
ghost use Rattle.cyc_runs.specs.Exits.{EndedBy, Wrote};
ghost use Rattle.solve_top.specs.Answers.{IsAnswer};
ghost use Rattle.solve_top.specs.Written.{WroteHolds, WroteFails};

use crate::run;
use cyc_basics::memory::OutOfMemory;
use cyc_io::{Sink, Source};
use cyc_runs::exit_code;
use std::alloc::Global;
use std::process::ExitCode;

/// What `main` does with the words of its command line, where memory held them, and with standard input and output: a
/// run, and the number of its status.
pub fn run_program<S: Source, K: Sink>(
    alloc: Global,
    words: Result<Vec<String>, OutOfMemory>,
    src: &mut S,
    out: &mut K,
) -> ExitCode
    // The number, 0 to 9, is that of a status that fits what was written.
    ensures ended { EndedBy words (λ w ending. Wrote (IsAnswer (map string_bytes w.items))
        (S.left src.old) (K.written out.old) (K.written out.new) ending) (exit_status result) }
    // 0: the goal holds, and what was written shows it; or the run is as its file tells.
    ensures headline { exit_status result ≡ 0 → WroteHolds (S.left src.old) (K.written out.old) (K.written out.new) }
    // 1: the goal does not hold, and what was written shows it; or the run is not as its file tells.
    ensures refutation { exit_status result ≡ 1 → WroteFails (S.left src.old) (K.written out.old) (K.written out.new) }
    // Without words nothing is read, and nothing written.
    ensures no_words { IsErr words → (src.new ≡ src.old) × (out.new ≡ out.old) }
{
    let ended = match words {
        Ok(words) => Ok(run(alloc, words.as_slice(), src, out)),
        Err(OutOfMemory) => Err(OutOfMemory),
    };
    exit_code(ended)
}
