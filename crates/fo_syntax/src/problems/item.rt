//! Lists of items of any kind: with a word between neighbours, or each with its own first word.

ghost use Rattle.std.specs.Prelude.{◌≡◌, map, OnOk};
ghost use Rattle.cyc_lex.specs.Writing.{write_all};
ghost use Rattle.cyc_grammar.specs.Syntax.{Syntax, many, after, is_one, read_many, words_many, fits_many};
ghost use Rattle.cyc_grammar.specs.Classes.{keyword};
ghost use Rattle.cyc_grammar.specs.Giving.{Gives, with_front};
ghost use Rattle.heap_syntax.specs.Words.{marked};
ghost use Rattle.fo_syntax.specs.Lists.{list_of};

use cyc_basics::memory::OutOfMemory;
use cyc_grammar::{Cursor, Refusal};
use cyc_lex::WordWriter;
use heap_syntax::Mark;
use std::alloc::Global;

/// A kind of items: their grammar, how one is read and how one is written.
pub trait Item<'a> {
    /// An item.
    type Tree: Drop;

    /// An item without where it lies in memory.
    ghost Value: { Type 0 };

    /// What a contract sees of an item.
    ghost seen: { Self.Tree → Value };

    /// The grammar of the items.
    ghost syntax: { Self → Syntax Value };

    /// Reads an item.
    fn read_item(&self, alloc: Global, cursor: &mut Cursor<'_, 'a>) -> Result<Self::Tree, Refusal>
        ensures { Gives (λ x. (seen x, cursor.new)) result ((syntax self.now).read cursor.old) };

    /// Writes an item.
    fn write_item(
        &self,
        alloc: Global,
        tree: &Self::Tree,
        writer: &mut WordWriter,
    ) -> Result<(), OutOfMemory>
        requires { (syntax self.now).fits (seen tree.now) }
        ensures { OnOk result (writer.new ≡ write_all writer.old ((syntax self.now).words (seen tree.now))) };
}

/// Reads the items after some, at most so many.
fn more_listed<'a, I: Item<'a>>(
    alloc: Global,
    most: usize,
    between: &Mark<'_>,
    item: &I,
    mut items: Vec<I::Tree>,
    cursor: &mut Cursor<'_, 'a>,
) -> Result<Vec<I::Tree>, Refusal>
    ensures { Gives (λ x. (map I.seen x.items, cursor.new)) result
        (with_front (map I.seen items.items)
        (read_many (is_one (marked between.now)) (after (marked between.now) (I.syntax item.now)) most cursor.old)) }
{
    for _ in 0..most {
        if !between.is_next(cursor) {
            return Ok(items);
        }
        between.take(cursor)?;
        items.push(item.read_item(alloc, cursor)?)?;
    }
    if between.is_next(cursor) {
        return Err(Refusal::Dead(cursor.left()));
    }
    Ok(items)
}

/// Reads one item or more, with a word between neighbours.
pub fn listed<'a, I: Item<'a>>(
    alloc: Global,
    between: &Mark<'_>,
    item: &I,
    cursor: &mut Cursor<'_, 'a>,
) -> Result<Vec<I::Tree>, Refusal>
    ensures { Gives (λ x. (map I.seen x.items, cursor.new)) result
        ((list_of (marked between.now) (I.syntax item.now)).read cursor.old) }
{
    let most = cursor.left();
    let mut items = Vec::new(alloc);
    items.push(item.read_item(alloc, cursor)?)?;
    more_listed(alloc, most, between, item, items, cursor)
}

/// Reads the items after some, as long as this word is next.
pub fn more_statements<'a, I: Item<'a>>(
    alloc: Global,
    word: &str,
    item: &I,
    mut items: Vec<I::Tree>,
    cursor: &mut Cursor<'_, 'a>,
) -> Result<Vec<I::Tree>, Refusal>
    ensures { Gives (λ x. (map I.seen x.items, cursor.new)) result
        (with_front (map I.seen items.items) ((many (is_one (keyword word.now)) (I.syntax item.now)).read cursor.old)) }
{
    for _ in 0..cursor.left() {
        if !cursor.is_keyword_next(word) {
            return Ok(items);
        }
        items.push(item.read_item(alloc, cursor)?)?;
    }
    if cursor.is_keyword_next(word) {
        return Err(Refusal::Dead(cursor.left()));
    }
    Ok(items)
}

fn write_more_listed<'a, I: Item<'a>>(
    alloc: Global,
    between: &Mark<'_>,
    item: &I,
    trees: &[I::Tree],
    writer: &mut WordWriter,
) -> Result<(), OutOfMemory>
    requires { fits_many (after (marked between.now) (I.syntax item.now)) (map I.seen trees.now) }
    ensures { OnOk result (writer.new
        ≡ write_all writer.old (words_many (after (marked between.now) (I.syntax item.now)) (map I.seen trees.now))) }
{
    for tree in trees {
        between.write(writer)?;
        item.write_item(alloc, tree, writer)?;
    }
    Ok(())
}

/// Writes one item or more, with a word between neighbours.
pub fn write_listed<'a, I: Item<'a>>(
    alloc: Global,
    between: &Mark<'_>,
    item: &I,
    trees: &[I::Tree],
    writer: &mut WordWriter,
) -> Result<(), OutOfMemory>
    requires { (list_of (marked between.now) (I.syntax item.now)).fits (map I.seen trees.now) }
    ensures { OnOk result (writer.new
        ≡ write_all writer.old ((list_of (marked between.now) (I.syntax item.now)).words (map I.seen trees.now))) }
{
    match trees {
        [] => unreachable!(),
        [first, others @ ..] => {
            item.write_item(alloc, first, writer)?;
            write_more_listed(alloc, between, item, others, writer)
        }
    }
}

/// Writes items one after the other.
pub fn write_statements<'a, I: Item<'a>>(
    alloc: Global,
    item: &I,
    trees: &[I::Tree],
    writer: &mut WordWriter,
) -> Result<(), OutOfMemory>
    requires { fits_many (I.syntax item.now) (map I.seen trees.now) }
    ensures { OnOk result (writer.new ≡ write_all writer.old (words_many (I.syntax item.now) (map I.seen trees.now))) }
{
    for tree in trees {
        item.write_item(alloc, tree, writer)?;
    }
    Ok(())
}
