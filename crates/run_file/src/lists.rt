//! Lists with commas between their items, and a symbol after the last.

ghost use Rattle.std.specs.Prelude.{◌≡◌, map, OnOk};
ghost use Rattle.cyc_lex.specs.Writing.{write_all};
ghost use Rattle.cyc_grammar.specs.Syntax.{Syntax, many, after, is_one, or_empty, words_many, fits_many};
ghost use Rattle.cyc_grammar.specs.Classes.{symbol};
ghost use Rattle.cyc_grammar.specs.Giving.{Gives, with_front};
ghost use Rattle.heap_syntax.specs.Words.{comma, semicolon};
ghost use Rattle.heap_syntax.specs.Grammar.{listed as list_of};

use cyc_basics::memory::OutOfMemory;
use cyc_grammar::{Cursor, Refusal};
use cyc_lex::WordWriter;
use std::alloc::Global;

/// A kind of items: their grammar, how one is read and how one is written.
pub trait Item {
    /// An item.
    type Tree: Drop;

    /// An item without where it lies in memory.
    ghost Value: { Type 0 };

    /// What a contract sees of an item.
    ghost seen: { Self.Tree → Value };

    /// Some item.
    ghost some: { Self → Value };

    /// The grammar of the items.
    ghost syntax: { Self → Syntax Value };

    /// Reads an item.
    fn read_item(&self, alloc: Global, cursor: &mut Cursor<'_, '_>) -> Result<Self::Tree, Refusal>
        ensures { Gives (λ x. (seen x, cursor.new)) result ((syntax self.now).read cursor.old) };

    /// Writes an item.
    fn write_item(&self, tree: &Self::Tree, writer: &mut WordWriter) -> Result<(), OutOfMemory>
        requires { (syntax self.now).fits (seen tree.now) }
        ensures { OnOk result (writer.new ≡ write_all writer.old ((syntax self.now).words (seen tree.now))) };
}

/// Reads the items after some.
fn more_listed<I: Item>(
    alloc: Global,
    item: &I,
    mut items: Vec<I::Tree>,
    cursor: &mut Cursor<'_, '_>,
) -> Result<Vec<I::Tree>, Refusal>
    ensures { Gives (λ x. (map I.seen x.items, cursor.new)) result
        (with_front (map I.seen items.items)
        ((many (is_one comma) (after comma (I.syntax item.now))).read cursor.old)) }
{
    for _ in 0..cursor.left() {
        if !cursor.is_symbol_next(",") {
            return Ok(items);
        }
        cursor.symbol(",")?;
        items.push(item.read_item(alloc, cursor)?)?;
    }
    if cursor.is_symbol_next(",") {
        return Err(Refusal::Dead(cursor.left()));
    }
    Ok(items)
}

/// Reads one item or more, and the symbol after the last.
#[tactic(auto, unfolding(heap_syntax::specs::Grammar::listed))]
pub fn listed<I: Item>(
    alloc: Global,
    behind: &str,
    item: &I,
    cursor: &mut Cursor<'_, '_>,
) -> Result<Vec<I::Tree>, Refusal>
    ensures { Gives (λ x. (map I.seen x.items, cursor.new)) result
        ((list_of (I.some item.now) comma (symbol behind.now) (I.syntax item.now)).read cursor.old) }
{
    let mut items = Vec::new(alloc);
    items.push(item.read_item(alloc, cursor)?)?;
    let items = more_listed(alloc, item, items, cursor)?;
    cursor.symbol(behind)?;
    Ok(items)
}

/// Reads items, of which there may be none, and the semicolon.
pub fn listed_or_none<I: Item>(
    alloc: Global,
    item: &I,
    cursor: &mut Cursor<'_, '_>,
) -> Result<Vec<I::Tree>, Refusal>
    ensures { Gives (λ x. (map I.seen x.items, cursor.new)) result
        ((or_empty semicolon (list_of (I.some item.now) comma semicolon (I.syntax item.now))).read cursor.old) }
{
    if cursor.is_symbol_next(";") {
        cursor.symbol(";")?;
        return Ok(Vec::new(alloc));
    }
    listed(alloc, ";", item, cursor)
}

fn write_more_listed<I: Item>(
    item: &I,
    trees: &[I::Tree],
    writer: &mut WordWriter,
) -> Result<(), OutOfMemory>
    requires { fits_many (after comma (I.syntax item.now)) (map I.seen trees.now) }
    ensures { OnOk result (writer.new
        ≡ write_all writer.old (words_many (after comma (I.syntax item.now)) (map I.seen trees.now))) }
{
    for tree in trees {
        writer.symbol(",")?;
        item.write_item(tree, writer)?;
    }
    Ok(())
}

/// Writes one item or more, and the symbol after the last.
#[tactic(auto, using(cyc_lex::proofs::WritingLaws::write_all_on), unfolding(heap_syntax::specs::Grammar::listed, cyc_lex::specs::Writing::write_all))]
pub fn write_listed<I: Item>(
    behind: &str,
    item: &I,
    trees: &[I::Tree],
    writer: &mut WordWriter,
) -> Result<(), OutOfMemory>
    requires { (list_of (I.some item.now) comma (symbol behind.now) (I.syntax item.now)).fits (map I.seen trees.now) }
    ensures { OnOk result (writer.new
        ≡ write_all writer.old ((list_of (I.some item.now) comma (symbol behind.now) (I.syntax item.now)).words
        (map I.seen trees.now))) }
{
    match trees {
        [] => unreachable!(),
        [first, others @ ..] => {
            item.write_item(first, writer)?;
            write_more_listed(item, others, writer)?;
            writer.symbol(behind)
        }
    }
}

/// Writes items, of which there may be none, and the semicolon.
#[tactic(auto, unfolding(cyc_lex::specs::Writing::write_all))]
pub fn write_listed_or_none<I: Item>(
    item: &I,
    trees: &[I::Tree],
    writer: &mut WordWriter,
) -> Result<(), OutOfMemory>
    requires { (or_empty semicolon (list_of (I.some item.now) comma semicolon (I.syntax item.now))).fits
        (map I.seen trees.now) }
    ensures { OnOk result (writer.new
        ≡ write_all writer.old ((or_empty semicolon
        (list_of (I.some item.now) comma semicolon (I.syntax item.now))).words (map I.seen trees.now))) }
{
    match trees {
        [] => writer.symbol(";"),
        _ => write_listed(";", item, trees, writer),
    }
}
