// Reading a model file: its tokens, its tree, the first flaw of the tree, and its value.
ghost use Rattle.std.specs.Prelude.{◌≡◌, ◌-◌, ◌<◌, ◌^◌, None, length, map, IfOk};
ghost use Rattle.cyc_lex.specs.Word.{EndsOnce, word_of};
ghost use Rattle.heap_reader.specs.DefinitionFlaws.{headings};
ghost use Rattle.model_file.specs.Grammar.{model};
ghost use Rattle.model_file.specs.Trees.{model_of};
ghost use Rattle.model_file.specs.Flaws.{model_flaw as first_flaw};
ghost use Rattle.model_file.specs.Reading.{IsModelOf, ReadsFrom, Reads};

use crate::cell_values::{cells, wide_numbers};
use crate::file::Model;
use crate::syntax::{ModelTree, read_tree};
use crate::walk::model_flaw;
use cyc_basics::memory::OutOfMemory;
use cyc_lex::{ReadFault, Tokens, tokens};
use goto_lang::Stack;
use heap_reader::definitions::{Scope, definition_values, heads};
use heap_reader::{Heads, flaw_fault, heap_value};
use pred_defs::Defs;
use std::alloc::Global;

/// The model that a tree without a flaw says.
fn model_of_tree(
    alloc: Global,
    heads: &Heads<'_>,
    tree: &ModelTree<'_>,
) -> Result<Model, OutOfMemory>
    requires known { heads.now ≡ headings (model_of tree.now).definitions }
    requires fits { model.fits (model_of tree.now) }
    requires right { first_flaw (model_of tree.now) ≡ None }
    ensures { IfOk result (IsModelOf (model_of tree.now)) }
{
    let definitions = definition_values(alloc, heads, &tree.definitions)?;
    let defs = Defs::from_vec(alloc, tree.version.limits(), definitions);
    let stack = Stack::from_vec(wide_numbers(alloc, &tree.stack)?);
    let heap = cells(alloc, &tree.cells)?;
    let ask = heap_value(alloc, heads, &Scope::Outside, &tree.ask)?;
    Ok(Model {
        version: tree.version,
        defs,
        stack,
        heap,
        ask,
    })
}

fn read_tokens(alloc: Global, tokens: &Tokens<'_>) -> Result<Model, ReadFault>
    requires few { length tokens.now < 2 ^ 32 }
    requires words { EndsOnce (map word_of tokens.now) }
    ensures { ReadsFrom tokens.now result }
{
    let tree = read_tree(alloc, tokens)?;
    let heads = heads(alloc, &tree.definitions)?;
    if let Some(flaw) = model_flaw(&heads, &tree) {
        return Err(flaw_fault(tokens, flaw));
    }
    Ok(model_of_tree(alloc, &heads, &tree)?)
}

/// The model that the bytes spell, or the first fault of the text: of its tokens, then of its grammar, then of what it
/// says, each at the first place where it stands.
pub fn read_model(alloc: Global, bytes: &[u8]) -> Result<Model, ReadFault>
    requires { length bytes.now < 2 ^ 32 - 1 }
    ensures { Reads bytes.now result }
{
    let tokens = tokens(alloc, bytes)?;
    read_tokens(alloc, &tokens)
}
