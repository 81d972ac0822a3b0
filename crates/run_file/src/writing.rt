// Writing a run file, which is read again as it was.
ghost use Rattle.std.specs.Prelude.{◌≡◌, ℕ, List, Result, Ok, IfOk};
ghost use Rattle.cyc_lex.specs.declared.fault.ReadFault.{ReadFault};
ghost use Rattle.run_file.specs.declared.file.RunFile.{RunFile as TheRun};
ghost use Rattle.run_file.specs.Written.{text_of_run};
ghost use Rattle.run_file.specs.Reading.{AreSame, IsRead, Reads, IsReadAgain};

use crate::file::RunFile;
use crate::trees::run_tree;
use crate::write_runs::write_tree;
use cyc_basics::memory::OutOfMemory;
use std::alloc::Global;

/// The text of a run in the written form: its tokens, the cells of the heap by ascending addresses, with one space
/// between neighbours but where the format has none, and a line feed after each `;`.
pub fn write_run(alloc: Global, run: &RunFile) -> Result<Vec<u8>, OutOfMemory>
    ensures text { IfOk result (λ bytes. bytes.items
        ≡ text_of_run run.now.version run.now.defs.list run.now.program run.now.line run.now.precondition
        run.now.stack run.now.heap run.now.picks.items run.now.outcome) }
    ensures spells { IfOk result (λ bytes. IsRead bytes.items (Ok run.now)) }
{
    let tree = run_tree(alloc, run)?;
    write_tree(alloc, &tree)
}

/// Whatever is read of a run's text is that run, unless memory runs out. The function does nothing.
pub fn written_runs_are_read_again()
    ensures { (r : TheRun) (bytes : List ℕ) (answer : Result TheRun ReadFault)
        → bytes ≡ text_of_run r.version r.defs.list r.program r.line r.precondition r.stack r.heap r.picks.items
        r.outcome
        → Reads bytes answer → IsReadAgain r answer }
{}

/// Bytes spell at most one run. The function does nothing.
pub fn bytes_spell_one_run()
    ensures { (bytes : List ℕ) (r s : TheRun) → IsRead bytes (Ok r) → IsRead bytes (Ok s) → AreSame r s }
{}
