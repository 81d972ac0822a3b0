// Models as values.
ghost use Rattle.std.specs.Prelude.{◌≡◌, None};
ghost use Rattle.model_file.specs.Grammar.{model};
ghost use Rattle.model_file.specs.Flaws.{model_flaw};
ghost use Rattle.model_file.specs.Fits.{model-fit};
ghost use Rattle.model_file.specs.Versions.{model_limits};
ghost use Rattle.model_file.specs.Written.{tree_of};

use crate::version::ModelVersion;
use goto_lang::{Cells, Stack};
use heap_formula::Heap;
use pred_defs::Defs;

/// A model file: its version, definitions, a stack, a heap, and a formula of which is asked whether they satisfy it.
/// The value of `$n` in the formula is entry n of the stack, 0 past its end. The file has a text: its tree, in which
/// the cells ascend, fits the grammar, and has no flaw.
#[derive(Drop)]
pub struct Model {
    pub version: ModelVersion,
    pub defs: Defs,
    pub stack: Stack,
    pub heap: Cells,
    pub ask: Heap,
    ghost limit: { defs.most ≡ model_limits version },
    ghost fits: { model.fits (tree_of version defs.list stack heap ask) } by { model-fit (tree_of version defs.list stack heap ask) },
    ghost flawless: { model_flaw (tree_of version defs.list stack heap ask) ≡ None },
}
