//! Reading the definitions of predicates.

ghost use Rattle.std.specs.Prelude.{map};
ghost use Rattle.cyc_grammar.specs.Giving.{Gives, with_front};
ghost use Rattle.heap_syntax.specs.DefinitionGrammar.{cases, kept_cases, definition, kept_definition, definitions};
ghost use Rattle.heap_syntax.specs.DefinitionTrees.{heap_of, definition_of};

use crate::definitions::term_heaps::kept_heaps;
use crate::definitions::tree::{DefinitionTree, HeapTree};
use crate::{Keep, Mark, free_name};
use cyc_grammar::{Cursor, Refusal};
use std::alloc::Global;

#[tactic(auto, unfolding(crate::specs::DefinitionGrammar::kept_cases))]
fn kept_cases<'a>(
    alloc: Global,
    keep: Keep,
    cursor: &mut Cursor<'_, 'a>,
) -> Result<Vec<HeapTree<'a>>, Refusal>
    ensures { Gives (λ x. (map heap_of x.items, cursor.new)) result ((kept_cases keep).read cursor.old) }
{
    kept_heaps(alloc, keep, &Mark::Symbol("|"), &Mark::Symbol("}"), cursor)
}

/// Reads the definition of a predicate; so much is kept of its cases and of their lists.
#[tactic(auto, unfolding(crate::specs::DefinitionGrammar::kept_definition))]
pub fn kept_definition<'a>(
    alloc: Global,
    keep: Keep,
    cursor: &mut Cursor<'_, 'a>,
) -> Result<DefinitionTree<'a>, Refusal>
    ensures { Gives (λ x. (definition_of x, cursor.new)) result ((kept_definition keep).read cursor.old) }
{
    cursor.keyword("pred")?;
    let name = free_name(cursor)?;
    cursor.symbol("(")?;
    let arity = cursor.number()?;
    cursor.symbol(")")?;
    cursor.symbol("{")?;
    let cases = kept_cases(alloc, keep, cursor)?;
    cursor.symbol(";")?;
    Ok(DefinitionTree { name, arity, cases })
}

/// Reads the definition of a predicate.
#[tactic(auto, unfolding(crate::specs::DefinitionGrammar::definition, crate::specs::DefinitionGrammar::kept_definition, crate::specs::DefinitionGrammar::cases, crate::specs::DefinitionGrammar::kept_cases, crate::specs::Grammar::heap, crate::specs::Grammar::kept_heap, crate::specs::Grammar::pures, crate::specs::Grammar::pures1, crate::specs::Grammar::kept_pures, crate::specs::Grammar::listed, crate::specs::Grammar::kept_listed, crate::specs::Grammar::spatials, crate::specs::Grammar::spatials1, crate::specs::Grammar::kept_spatials))]
pub fn definition<'a>(
    alloc: Global,
    cursor: &mut Cursor<'_, 'a>,
) -> Result<DefinitionTree<'a>, Refusal>
    ensures { Gives (λ x. (definition_of x, cursor.new)) result (definition.read cursor.old) }
{
    kept_definition(alloc, Keep::All, cursor)
}

/// Reads the definitions after some.
#[tactic(auto, unfolding(crate::specs::DefinitionGrammar::definitions))]
fn more_definitions<'a>(
    alloc: Global,
    mut items: Vec<DefinitionTree<'a>>,
    cursor: &mut Cursor<'_, 'a>,
) -> Result<Vec<DefinitionTree<'a>>, Refusal>
    ensures { Gives (λ x. (map definition_of x.items, cursor.new)) result
        (with_front (map definition_of items.entry.items) (definitions.read cursor.old)) }
{
    for _ in 0..cursor.left() {
        if !cursor.is_keyword_next("pred") {
            return Ok(items);
        }
        items.push(definition(alloc, cursor)?)?;
    }
    if cursor.is_keyword_next("pred") {
        return Err(Refusal::Dead(cursor.left()));
    }
    Ok(items)
}

/// Reads definitions, of which there may be none.
pub fn definitions<'a>(
    alloc: Global,
    cursor: &mut Cursor<'_, 'a>,
) -> Result<Vec<DefinitionTree<'a>>, Refusal>
    ensures { Gives (λ x. (map definition_of x.items, cursor.new)) result (definitions.read cursor.old) }
{
    more_definitions(alloc, Vec::new(alloc), cursor)
}
