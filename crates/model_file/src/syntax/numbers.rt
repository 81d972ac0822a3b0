//! Lists of numbers with commas between them.

ghost use Rattle.std.specs.Prelude.{◌≡◌, [], OnOk};
ghost use Rattle.cyc_lex.specs.Writing.{write_all};
ghost use Rattle.cyc_grammar.specs.Syntax.{many, one, after, is_one, words_many};
ghost use Rattle.cyc_grammar.specs.Classes.{symbol, number};
ghost use Rattle.cyc_grammar.specs.Giving.{Gives, with_front};
ghost use Rattle.heap_syntax.specs.Words.{comma};
ghost use Rattle.model_file.specs.Grammar.{numbers, values};

use cyc_basics::memory::OutOfMemory;
use cyc_grammar::{Cursor, Refusal};
use cyc_lex::WordWriter;
use std::alloc::Global;

/// Reads the numbers after some.
fn more_numbers(mut items: Vec<u32>, cursor: &mut Cursor<'_, '_>) -> Result<Vec<u32>, Refusal>
    ensures { Gives (λ x. (x.items, cursor.new)) result
        (with_front items.items ((many (is_one comma) (after comma (one number))).read cursor.old)) }
{
    for _ in 0..cursor.left() {
        if !cursor.is_symbol_next(",") {
            return Ok(items);
        }
        cursor.symbol(",")?;
        items.push(cursor.number()?)?;
    }
    if cursor.is_symbol_next(",") {
        return Err(Refusal::Dead(cursor.left()));
    }
    Ok(items)
}

/// Reads one number or more, and the symbol after the last.
#[tactic(auto, unfolding(crate::specs::Grammar::numbers, heap_syntax::specs::Grammar::listed))]
pub fn numbers(
    alloc: Global,
    behind: &str,
    cursor: &mut Cursor<'_, '_>,
) -> Result<Vec<u32>, Refusal>
    ensures { Gives (λ x. (x.items, cursor.new)) result ((numbers (symbol behind.now)).read cursor.old) }
{
    let mut items = Vec::new(alloc);
    items.push(cursor.number()?)?;
    let items = more_numbers(items, cursor)?;
    cursor.symbol(behind)?;
    Ok(items)
}

/// Reads the values of the stack, of which there may be none, and the semicolon.
#[tactic(auto, unfolding(crate::specs::Grammar::values))]
pub fn values(alloc: Global, cursor: &mut Cursor<'_, '_>) -> Result<Vec<u32>, Refusal>
    ensures { Gives (λ x. (x.items, cursor.new)) result (values.read cursor.old) }
{
    if cursor.is_symbol_next(";") {
        cursor.symbol(";")?;
        return Ok(Vec::new(alloc));
    }
    numbers(alloc, ";", cursor)
}

fn write_more_numbers(trees: &[u32], writer: &mut WordWriter) -> Result<(), OutOfMemory>
    ensures { OnOk result (writer.new ≡ write_all writer.old (words_many (after comma (one number)) trees.now)) }
{
    for tree in trees {
        writer.symbol(",")?;
        writer.number(*tree)?;
    }
    Ok(())
}

/// Writes one number or more, and the symbol after the last.
#[tactic(auto, using(cyc_lex::proofs::WritingLaws::write_all_on), unfolding(crate::specs::Grammar::numbers, heap_syntax::specs::Grammar::listed, cyc_lex::specs::Writing::write_all))]
pub fn write_numbers(
    behind: &str,
    trees: &[u32],
    writer: &mut WordWriter,
) -> Result<(), OutOfMemory>
    requires { (numbers (symbol behind.now)).fits trees.now }
    ensures { OnOk result (writer.new ≡ write_all writer.old ((numbers (symbol behind.now)).words trees.now)) }
{
    match trees {
        [] => unreachable!(),
        [first, others @ ..] => {
            writer.number(*first)?;
            write_more_numbers(others, writer)?;
            writer.symbol(behind)
        }
    }
}

/// Writes the values of the stack and the semicolon.
#[tactic(auto, unfolding(crate::specs::Grammar::values, cyc_lex::specs::Writing::write_all))]
pub fn write_values(trees: &[u32], writer: &mut WordWriter) -> Result<(), OutOfMemory>
    requires { values.fits trees.now }
    ensures { OnOk result (writer.new ≡ write_all writer.old (values.words trees.now)) }
{
    match trees {
        [] => writer.symbol(";"),
        _ => write_numbers(";", trees, writer),
    }
}
