//! Reading variables, names and brackets from the front of a list of tokens.

ghost use Rattle.std.specs.Prelude.{◌<◌, map};
ghost use Rattle.cyc_grammar.specs.Giving.{Gives};
ghost use Rattle.fo_syntax.specs.Trees.{sign_of};
ghost use Rattle.fo_syntax.specs.Seen.{mark_seen};
ghost use Rattle.fo_syntax.specs.Grammar.{leaf, named, head, first_mark, next_mark, marks, mark};
ghost use Rattle.fo_syntax.specs.Grammar as grammar;

use crate::terms::bracket::{Awaited, Mark};
use crate::terms::tree::SignTree;
use crate::terms::word::{free_name, is_free_name_next};
use cyc_grammar::{Cursor, Refusal};
use std::alloc::Global;

/// Reads a variable, or a local where those may stand.
#[tactic(auto, unfolding(crate::specs::Grammar::leaf))]
pub fn leaf<'a>(locals: bool, cursor: &mut Cursor<'_, 'a>) -> Result<SignTree<'a>, Refusal>
    ensures { Gives (λ x. (sign_of x, cursor.new)) result ((leaf locals).read cursor.old) }
{
    if !locals || cursor.is_symbol_next("$") {
        cursor.symbol("$")?;
        return Ok(SignTree::Variable(cursor.number()?));
    }
    cursor.symbol("?")?;
    Ok(SignTree::Local(cursor.number()?))
}

/// Reads a name and its opening bracket.
#[tactic(auto, unfolding(crate::specs::Grammar::named))]
pub fn named<'a>(cursor: &mut Cursor<'_, 'a>) -> Result<&'a str, Refusal>
    ensures { Gives (λ x. (x.now, cursor.new)) result (named.read cursor.old) }
{
    let name = free_name(cursor)?;
    cursor.symbol("(")?;
    Ok(name)
}

#[tactic(auto, unfolding(crate::specs::Grammar::head))]
fn head<'a>(locals: bool, cursor: &mut Cursor<'_, 'a>) -> Result<Mark<'a>, Refusal>
    ensures { Gives (λ x. (mark_seen x, cursor.new)) result ((head locals).read cursor.old) }
{
    if is_free_name_next(cursor) {
        return Ok(Mark::Opening(named(cursor)?));
    }
    Ok(Mark::Leaf(leaf(locals, cursor)?))
}

#[tactic(auto, unfolding(crate::specs::Grammar::first_mark))]
fn first_mark<'a>(locals: bool, cursor: &mut Cursor<'_, 'a>) -> Result<Mark<'a>, Refusal>
    ensures { Gives (λ x. (mark_seen x, cursor.new)) result ((first_mark locals).read cursor.old) }
{
    if cursor.is_symbol_next(")") {
        cursor.symbol(")")?;
        return Ok(Mark::Closing);
    }
    head(locals, cursor)
}

#[tactic(auto, unfolding(crate::specs::Grammar::next_mark))]
fn next_mark<'a>(locals: bool, cursor: &mut Cursor<'_, 'a>) -> Result<Mark<'a>, Refusal>
    ensures { Gives (λ x. (mark_seen x, cursor.new)) result ((next_mark locals).read cursor.old) }
{
    if cursor.is_symbol_next(")") {
        cursor.symbol(")")?;
        return Ok(Mark::Closing);
    }
    cursor.symbol(",")?;
    head(locals, cursor)
}

fn mark<'a>(
    locals: bool,
    awaited: Awaited,
    cursor: &mut Cursor<'_, 'a>,
) -> Result<Mark<'a>, Refusal>
    ensures { Gives (λ x. (mark_seen x, cursor.new)) result ((mark locals awaited).read cursor.old) }
{
    match awaited {
        Awaited::First(_) => first_mark(locals, cursor),
        Awaited::Next(_) | Awaited::Nothing => next_mark(locals, cursor),
    }
}

/// Reads what stands after the opening bracket of an application, its closing bracket too.
#[tactic(auto, unfolding(crate::specs::Grammar::marks))]
pub fn marks<'a>(
    alloc: Global,
    locals: bool,
    cursor: &mut Cursor<'_, 'a>,
) -> Result<Vec<Mark<'a>>, Refusal>
    ensures { Gives (λ x. (map mark_seen x.items, cursor.new)) result ((marks locals).read cursor.old) }
{
    let mut items: Vec<Mark<'a>> = Vec::new(alloc);
    let mut awaited = Awaited::First(0);
    for _ in 0..cursor.left() {
        if let Awaited::Nothing = awaited {
            return Ok(items);
        }
        let item = mark(locals, awaited, cursor)?;
        items.push(item)?;
        awaited = awaited.behind(item);
    }
    match awaited {
        Awaited::Nothing => Ok(items),
        _ => Err(Refusal::Dead(cursor.left())),
    }
}
