// Reading one part of a text.
ghost use Rattle.std.specs.Prelude.{◌≡◌, ◌<◌, ◌^◌, false, length, map, drop};
ghost use Rattle.cyc_lex.specs.Word.{EndsOnce, word_of};
ghost use Rattle.heap_syntax.specs.DefinitionGrammar.{terms, heap, definition};
ghost use Rattle.heap_reader.specs.Items.{IsReadPart, IsHeapItem, IsDefinitionItem};

use crate::items::items::{Item, definition_item, heap_item};
use cyc_grammar::{Cursor, read_fault};
use cyc_lex::{ReadFault, Tokens};
use heap_formula::{Def, Heap};
use heap_syntax::definitions::{DefinitionTree, HeapTree, definition, heap};
use pred_defs::Defs;
use std::alloc::Global;

/// What is left of the tokens from a place on.
fn cursor_at<'s, 'a>(tokens: &'s Tokens<'a>, place: usize) -> Cursor<'s, 'a>
    requires words { EndsOnce (map word_of tokens.now) }
    requires there { place < length tokens.now }
    ensures { result ≡ drop place (map word_of tokens.now) }
{
    Cursor::new(&tokens.as_slice()[place..])
}

/// The heap that begins at a token, outside cases, and the place after it; or the token with which no heap goes on.
pub fn read_heap<'a>(
    alloc: Global,
    tokens: &Tokens<'a>,
    place: usize,
    defs: &Defs,
) -> Result<(usize, Item<Heap, HeapTree<'a>>), ReadFault>
    requires few { length tokens.now < 2 ^ 32 }
    requires words { EndsOnce (map word_of tokens.now) }
    requires there { place < length tokens.now }
    ensures { IsReadPart (heap (terms false)) (IsHeapItem defs.now place) tokens.now place result }
{
    let mut cursor = cursor_at(tokens, place);
    let tree = match heap(alloc, false, &mut cursor) {
        Ok(tree) => tree,
        Err(refusal) => return Err(read_fault(tokens, refusal)),
    };
    let behind = tokens.as_slice().len() - cursor.left();
    let item = heap_item(alloc, place, tree, defs)?;
    Ok((behind, item))
}

/// The definition that begins at a token and the place after it; or the token with which no definition goes on.
pub fn read_pred<'a>(
    alloc: Global,
    tokens: &Tokens<'a>,
    place: usize,
    defs: &Defs,
) -> Result<(usize, Item<Def, DefinitionTree<'a>>), ReadFault>
    requires few { length tokens.now < 2 ^ 32 }
    requires words { EndsOnce (map word_of tokens.now) }
    requires there { place < length tokens.now }
    ensures { IsReadPart definition (IsDefinitionItem defs.now place) tokens.now place result }
{
    let mut cursor = cursor_at(tokens, place);
    let tree = match definition(alloc, &mut cursor) {
        Ok(tree) => tree,
        Err(refusal) => return Err(read_fault(tokens, refusal)),
    };
    let behind = tokens.as_slice().len() - cursor.left();
    let item = definition_item(alloc, place, tree, defs)?;
    Ok((behind, item))
}
