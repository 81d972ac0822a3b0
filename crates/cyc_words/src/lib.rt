//! Which words of a command line have a meaning, read with `clap`.
#![tactic(auto)]

ghost use Rattle.std.specs.Prelude.{◌≡◌, ◌∷◌, map, string_bytes, codes, IfOk, is_some};
ghost use Rattle.cyc_words.specs.Words.{IsInRange, is_taken, meaning_of};

mod command;
mod meaning;
mod tasks;

pub use cyc_basics::memory::OutOfMemory;
use meaning::task_of_line;
use std::alloc::Global;
pub use tasks::{Task, USAGE};

// The line that clap reads: the program's name and the words.
fn line_of<'a>(alloc: Global, words: &'a [String]) -> Result<Vec<&'a str>, OutOfMemory>
    ensures { IfOk result (λ line. map (λ s. s.now) line.items ≡ codes "cyclist" ∷ map string_bytes words.now) }
{
    let mut line = Vec::new(alloc);
    line.push("cyclist")?;
    for word in words {
        line.push(word.as_str())?;
    }
    Ok(line)
}

/// What the words after the program's name ask for, or `None` where they have no meaning. A call for
/// help has none, and nothing is printed. Numbers are read as `clap` reads them: a plus sign or zeros
/// may stand in front.
pub fn task_of(alloc: Global, words: &[String]) -> Result<Option<Task>, OutOfMemory>
    ensures meaning { IfOk result (λ task. task ≡ meaning_of (map string_bytes words.now)) }
    // The words have a meaning exactly where clap takes them and they name a subcommand.
    ensures taken { IfOk result (λ task. is_some task ≡ is_taken (map string_bytes words.now)) }
    ensures range { IfOk result IsInRange }
{
    let line = line_of(alloc, words)?;
    task_of_line(alloc, line.as_slice())
}
