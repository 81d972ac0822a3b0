//! Reading definitions.

ghost use Rattle.std.specs.Prelude.{map};
ghost use Rattle.cyc_grammar.specs.Syntax.{one};
ghost use Rattle.cyc_grammar.specs.Giving.{Gives, with_front};
ghost use Rattle.heap_syntax.specs.Words.{comma, free_name};
ghost use Rattle.heap_syntax.specs.Grammar.{more_listed};
ghost use Rattle.problem_syntax.specs.Grammar.{parameters, cases, definition, definitions};
ghost use Rattle.problem_syntax.specs.Trees.{text_of, heap_of, definition_of};

use crate::form::NameForm;
use crate::tree::{DefinitionTree, HeapTree};
use cyc_grammar::{Cursor, Refusal};
use heap_syntax::{Mark, free_name, heaps};
use std::alloc::Global;

/// Reads the names after some.
fn more_names<'a>(
    mut items: Vec<&'a str>,
    cursor: &mut Cursor<'_, 'a>,
) -> Result<Vec<&'a str>, Refusal>
    ensures { Gives (λ x. (map text_of x.items, cursor.new)) result
        (with_front (map text_of items.entry.items) ((more_listed comma (one free_name)).read cursor.old)) }
{
    for _ in 0..cursor.left() {
        if !cursor.is_symbol_next(",") {
            return Ok(items);
        }
        cursor.symbol(",")?;
        items.push(free_name(cursor)?)?;
    }
    if cursor.is_symbol_next(",") {
        return Err(Refusal::Dead(cursor.left()));
    }
    Ok(items)
}

#[tactic(auto, unfolding(crate::specs::Grammar::parameters, heap_syntax::specs::Grammar::listed))]
fn parameters<'a>(alloc: Global, cursor: &mut Cursor<'_, 'a>) -> Result<Vec<&'a str>, Refusal>
    ensures { Gives (λ x. (map text_of x.items, cursor.new)) result (parameters.read cursor.old) }
{
    let mut items = Vec::new(alloc);
    if cursor.is_symbol_next(")") {
        cursor.symbol(")")?;
        return Ok(items);
    }
    items.push(free_name(cursor)?)?;
    let items = more_names(items, cursor)?;
    cursor.symbol(")")?;
    Ok(items)
}

#[tactic(auto, unfolding(crate::specs::Grammar::cases))]
fn cases<'a>(alloc: Global, cursor: &mut Cursor<'_, 'a>) -> Result<Vec<HeapTree<'a>>, Refusal>
    ensures { Gives (λ x. (map heap_of x.items, cursor.new)) result (cases.read cursor.old) }
{
    heaps(
        alloc,
        &NameForm { primed: false },
        &Mark::Symbol("|"),
        &Mark::Symbol("}"),
        cursor,
    )
}

#[tactic(auto, unfolding(crate::specs::Grammar::definition))]
fn definition<'a>(alloc: Global, cursor: &mut Cursor<'_, 'a>) -> Result<DefinitionTree<'a>, Refusal>
    ensures { Gives (λ x. (definition_of x, cursor.new)) result (definition.read cursor.old) }
{
    cursor.keyword("pred")?;
    let name = free_name(cursor)?;
    cursor.symbol("(")?;
    let parameters = parameters(alloc, cursor)?;
    cursor.symbol("{")?;
    let cases = cases(alloc, cursor)?;
    cursor.symbol(";")?;
    Ok(DefinitionTree {
        name,
        parameters,
        cases,
    })
}

/// Reads the definitions after some.
#[tactic(auto, unfolding(crate::specs::Grammar::definitions))]
fn more_definitions<'a>(
    alloc: Global,
    mut items: Vec<DefinitionTree<'a>>,
    cursor: &mut Cursor<'_, 'a>,
) -> Result<Vec<DefinitionTree<'a>>, Refusal>
    ensures { Gives (λ x. (map definition_of x.items, cursor.new)) result
        (with_front (map definition_of items.entry.items) (definitions.read cursor.old)) }
{
    for _ in 0..cursor.left() {
        if !cursor.is_keyword_next("pred") {
            return Ok(items);
        }
        items.push(definition(alloc, cursor)?)?;
    }
    if cursor.is_keyword_next("pred") {
        return Err(Refusal::Dead(cursor.left()));
    }
    Ok(items)
}

pub fn definitions<'a>(
    alloc: Global,
    cursor: &mut Cursor<'_, 'a>,
) -> Result<Vec<DefinitionTree<'a>>, Refusal>
    ensures { Gives (λ x. (map definition_of x.items, cursor.new)) result (definitions.read cursor.old) }
{
    more_definitions(alloc, Vec::new(alloc), cursor)
}
