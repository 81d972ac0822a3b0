// Runs as values.
ghost use Rattle.std.specs.Prelude.{◌≡◌, ◌<◌, ◌≤◌, None, length, true};
ghost use Rattle.model_file.specs.Versions.{model_limits};
ghost use Rattle.rule_table.specs.Tests.{is_universal_heap};
ghost use Rattle.proof_file.specs.Readable.{are_universal_commands};
ghost use Rattle.run_file.specs.Grammar.{run};
ghost use Rattle.run_file.specs.Flaws.{run_flaw};
ghost use Rattle.run_file.specs.Fits.{run-fit};
ghost use Rattle.run_file.specs.Written.{tree_of};

use crate::tree::Outcome;
use general_models::runs::Pick;
use goto_lang::{Cells, Program, Stack};
use heap_formula::Heap;
use model_file::ModelVersion;
use pred_defs::Defs;

/// A run file: its version, definitions, a program and a claim of termination, that from this line the program halts
/// given the precondition; a stack, a heap, what is picked in order at each `new` and each `if *`, and how the run from
/// there ends. Whether it ends so is not said. The value of `$n` in the precondition is entry n of the stack, 0 past
/// its end. The line is one of the program's, and no existential variable stands in the program and in the
/// precondition. The file has a text: its tree, in which the cells of the heap ascend, fits the grammar, and has no
/// flaw.
#[derive(Drop)]
pub struct RunFile {
    pub version: ModelVersion,
    pub defs: Defs,
    pub program: Program,
    pub line: u32,
    pub precondition: Heap,
    pub stack: Stack,
    pub heap: Cells,
    pub picks: Vec<Pick>,
    pub outcome: Outcome,
    ghost limit: { defs.most ≡ model_limits version },
    ghost from_one: { 0 < line },
    ghost to_last: { line ≤ length program },
    ghost universal: { are_universal_commands program ≡ true },
    ghost state: { is_universal_heap precondition ≡ true },
    ghost fits: { run.fits (tree_of version defs.list program line precondition stack heap picks.items outcome) } by { run-fit _ },
    ghost flawless: { run_flaw (tree_of version defs.list program line precondition stack heap picks.items outcome) ≡ None },
}
