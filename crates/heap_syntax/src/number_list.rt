//! Numbers without a word between them, in brackets, and as premises.

ghost use Rattle.cyc_grammar.specs.Giving.{Gives, with_front};
ghost use Rattle.heap_syntax.specs.Numbers.{numbers, bracketed, two_numbers, premises};

use cyc_grammar::{Cursor, Refusal};
use std::alloc::Global;

/// Reads the numbers after some.
#[tactic(auto, unfolding(crate::specs::Numbers::numbers))]
fn more_numbers(mut items: Vec<u32>, cursor: &mut Cursor<'_, '_>) -> Result<Vec<u32>, Refusal>
    ensures { Gives (λ x. (x.items, cursor.new)) result (with_front items.items (numbers.read cursor.old)) }
{
    for _ in 0..cursor.left() {
        if !cursor.is_number_next() {
            return Ok(items);
        }
        items.push(cursor.number()?)?;
    }
    if cursor.is_number_next() {
        return Err(Refusal::Dead(cursor.left()));
    }
    Ok(items)
}

fn numbers(alloc: Global, cursor: &mut Cursor<'_, '_>) -> Result<Vec<u32>, Refusal>
    ensures { Gives (λ x. (x.items, cursor.new)) result (numbers.read cursor.old) }
{
    more_numbers(Vec::new(alloc), cursor)
}

/// Reads numbers in brackets.
#[tactic(auto, unfolding(crate::specs::Numbers::bracketed))]
pub fn bracketed(alloc: Global, cursor: &mut Cursor<'_, '_>) -> Result<Vec<u32>, Refusal>
    ensures { Gives (λ x. (x.items, cursor.new)) result (bracketed.read cursor.old) }
{
    cursor.symbol("[")?;
    let items = numbers(alloc, cursor)?;
    cursor.symbol("]")?;
    Ok(items)
}

/// Reads two numbers.
#[tactic(auto, unfolding(crate::specs::Numbers::two_numbers))]
pub fn two_numbers(cursor: &mut Cursor<'_, '_>) -> Result<(u32, u32), Refusal>
    ensures { Gives (λ x. ((x.0, x.1), cursor.new)) result (two_numbers.read cursor.old) }
{
    let first = cursor.number()?;
    let second = cursor.number()?;
    Ok((first, second))
}

/// Reads the premises of a node, and the `;` after them.
#[tactic(auto, unfolding(crate::specs::Numbers::premises))]
pub fn premises(alloc: Global, cursor: &mut Cursor<'_, '_>) -> Result<Vec<u32>, Refusal>
    ensures { Gives (λ x. (x.items, cursor.new)) result (premises.read cursor.old) }
{
    let mut items = Vec::new(alloc);
    if cursor.is_keyword_next("to") {
        cursor.keyword("to")?;
        items.push(cursor.number()?)?;
        let items = more_numbers(items, cursor)?;
        cursor.symbol(";")?;
        return Ok(items);
    }
    cursor.symbol(";")?;
    Ok(items)
}
