// Reading a run file: its tokens, its tree, the first flaw of the tree, and its value.
ghost use Rattle.std.specs.Prelude.{◌≡◌, ◌-◌, ◌<◌, ◌^◌, None, length, map, IfOk};
ghost use Rattle.cyc_lex.specs.Word.{EndsOnce, word_of};
ghost use Rattle.heap_reader.specs.DefinitionFlaws.{headings};
ghost use Rattle.run_file.specs.Grammar.{run};
ghost use Rattle.run_file.specs.Trees.{run_of};
ghost use Rattle.run_file.specs.Flaws.{run_flaw as first_flaw};
ghost use Rattle.run_file.specs.Reading.{IsRunOf, ReadsFrom, Reads};

use crate::file::RunFile;
use crate::read_runs::read_tree;
use crate::tree::RunTree;
use crate::values::{cells, picks, wide_numbers};
use crate::walk::run_flaw;
use cyc_basics::memory::OutOfMemory;
use cyc_lex::{ReadFault, Tokens, tokens};
use goto_lang::Stack;
use heap_reader::definitions::{Scope, heads};
use heap_reader::{Heads, flaw_fault, heap_value};
use proof_file::front_values;
use std::alloc::Global;

/// The run that a tree without a flaw says.
fn run_of_tree(alloc: Global, heads: &Heads<'_>, tree: &RunTree<'_>) -> Result<RunFile, OutOfMemory>
    requires known { heads.now ≡ headings (run_of tree.now).definitions }
    requires fits { run.fits (run_of tree.now) }
    requires right { first_flaw (run_of tree.now) ≡ None }
    ensures { IfOk result (IsRunOf (run_of tree.now)) }
{
    let front = front_values(
        alloc,
        heads,
        tree.version.format(),
        &tree.definitions,
        &tree.lines,
        &tree.ends,
    )?;
    let precondition = heap_value(alloc, heads, &Scope::Outside, &tree.precondition)?;
    let stack = Stack::from_vec(wide_numbers(alloc, &tree.stack)?);
    let heap = cells(alloc, &tree.cells)?;
    let picks = picks(alloc, &tree.picks)?;
    let outcome = tree.outcome.clone()?;
    Ok(RunFile {
        version: tree.version,
        defs: front.defs,
        program: front.program,
        line: tree.line,
        precondition,
        stack,
        heap,
        picks,
        outcome,
    })
}

fn read_tokens(alloc: Global, tokens: &Tokens<'_>) -> Result<RunFile, ReadFault>
    requires few { length tokens.now < 2 ^ 32 }
    requires words { EndsOnce (map word_of tokens.now) }
    ensures { ReadsFrom tokens.now result }
{
    let tree = read_tree(alloc, tokens)?;
    let heads = heads(alloc, &tree.definitions)?;
    if let Some(flaw) = run_flaw(&heads, &tree) {
        return Err(flaw_fault(tokens, flaw));
    }
    Ok(run_of_tree(alloc, &heads, &tree)?)
}

/// The run that the bytes spell, or the first fault of the text: of its tokens, then of its grammar, then of what it
/// says, each at the first place where it stands.
pub fn read_run(alloc: Global, bytes: &[u8]) -> Result<RunFile, ReadFault>
    requires { length bytes.now < 2 ^ 32 - 1 }
    ensures { Reads bytes.now result }
{
    let tokens = tokens(alloc, bytes)?;
    read_tokens(alloc, &tokens)
}
