//! Reading whole model files.

ghost use Rattle.std.specs.Prelude.{◌≡◌, ◌<◌, ◌^◌, true, length, map};
ghost use Rattle.cyc_lex.specs.Word.{word_of, EndsOnce};
ghost use Rattle.cyc_grammar.specs.Syntax.{read_whole};
ghost use Rattle.cyc_grammar.specs.Classes.{are_tokens};
ghost use Rattle.cyc_grammar.specs.Faults.{Reads, IsRead};
ghost use Rattle.cyc_grammar.specs.Giving.{Gives, words};
ghost use Rattle.heap_syntax.specs.DefinitionTrees.{heap_of};
ghost use Rattle.model_file.specs.Grammar.{question, state, body, model};
ghost use Rattle.model_file.specs.Trees.{Model, cell_of, model_of};

use crate::syntax::cell_list::cells;
use crate::syntax::numbers::values;
use crate::syntax::tree::{CellTree, ModelTree};
use crate::version::read_model_version;
use cyc_grammar::{Cursor, Refusal, read_fault};
use cyc_lex::{ReadFault, Token, Tokens};
use heap_syntax::definitions::{HeapTree, definitions, heap};
use std::alloc::Global;

/// The values of the stack and the cells of the heap.
#[tactic(auto, unfolding(crate::specs::Grammar::state))]
fn state(alloc: Global, cursor: &mut Cursor<'_, '_>) -> Result<(Vec<u32>, Vec<CellTree>), Refusal>
    ensures { Gives (λ x. ((x.0.items, map cell_of x.1.items), cursor.new)) result (state.read cursor.old) }
{
    cursor.keyword("stack")?;
    let stack = values(alloc, cursor)?;
    cursor.keyword("heap")?;
    let cells = cells(alloc, cursor)?;
    Ok((stack, cells))
}

/// The asked formula.
#[tactic(auto, unfolding(crate::specs::Grammar::question))]
fn question<'a>(alloc: Global, cursor: &mut Cursor<'_, 'a>) -> Result<HeapTree<'a>, Refusal>
    ensures { Gives (λ x. (heap_of x, cursor.new)) result (question.read cursor.old) }
{
    cursor.keyword("ask")?;
    let ask = heap(alloc, false, cursor)?;
    cursor.symbol(";")?;
    cursor.keyword("end")?;
    Ok(ask)
}

#[tactic(auto, unfolding(crate::specs::Grammar::body))]
fn body<'a>(alloc: Global, cursor: &mut Cursor<'_, 'a>) -> Result<ModelTree<'a>, Refusal>
    ensures { Gives (λ x. (model_of x, cursor.new)) result (body.read cursor.old) }
{
    cursor.keyword("cyclist")?;
    cursor.keyword("model")?;
    let version = read_model_version(cursor)?;
    cursor.symbol(";")?;
    let definitions = definitions(alloc, cursor)?;
    let (stack, cells) = state(alloc, cursor)?;
    let ask = question(alloc, cursor)?;
    cursor.symbol(";")?;
    Ok(ModelTree {
        version,
        definitions,
        stack,
        cells,
        ask,
    })
}

#[tactic(auto, unfolding(crate::specs::Grammar::model))]
fn whole_model<'a>(alloc: Global, tokens: &[Token<'a>]) -> Result<ModelTree<'a>, Refusal>
    requires { are_tokens (words tokens.now) ≡ true }
    ensures { Gives model_of result (read_whole model (words tokens.now)) }
{
    let mut cursor = Cursor::new(tokens);
    let tree = body(alloc, &mut cursor)?;
    cursor.end()?;
    if cursor.left() > 0 {
        return Err(Refusal::Dead(cursor.left()));
    }
    Ok(tree)
}

/// The tree that the tokens spell, or the place of the first token that, with all before it, begins no model file.
pub fn read_tree<'a>(alloc: Global, tokens: &Tokens<'a>) -> Result<ModelTree<'a>, ReadFault>
    requires few { length tokens.now < 2 ^ 32 }
    requires words { EndsOnce (map word_of tokens.now) }
    // What is read is spelled so; a fault stands at the first dead token.
    ensures exact { Reads model model_of tokens.now result }
    // What is spelled so is read, unless memory runs out.
    ensures again { (t : Model) → model.fits t → map word_of tokens.now ≡ model.words t → IsRead model_of t result }
{
    match whole_model(alloc, tokens.as_slice()) {
        Ok(tree) => Ok(tree),
        Err(refusal) => Err(read_fault(tokens, refusal)),
    }
}
