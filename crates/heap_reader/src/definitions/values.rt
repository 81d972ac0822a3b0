// Values of definitions that fit them.
ghost use Rattle.std.specs.Prelude.{◌≡◌, ◌≤◌, length, map, IfOk};
ghost use Rattle.heap_formula.specs.Words.{Each};
ghost use Rattle.heap_syntax.specs.DefinitionTrees.{definition_of};
ghost use Rattle.heap_reader.specs.DefinitionSmall.{IsSmallDefinition};
ghost use Rattle.heap_reader.specs.DefinitionValues.{definition_value as value_of_definition};

use crate::definitions::scope::Scope;
use crate::{Heads, definition_value};
use cyc_basics::limits::{MOST_LOCALS, MOST_PREDICATES};
use cyc_basics::memory::OutOfMemory;
use heap_formula::Def;
use heap_syntax::definitions::DefinitionTree;
use std::alloc::Global;

fn definition(
    alloc: Global,
    heads: &Heads<'_>,
    tree: &DefinitionTree<'_>,
) -> Result<Def, OutOfMemory>
    requires small { IsSmallDefinition (definition_of tree.now) }
    requires few { length heads.now ≤ MOST_PREDICATES }
    ensures { IfOk result (λ d. d ≡ value_of_definition heads.now (definition_of tree.now)) }
{
    let scope = Scope::Case {
        arity: tree.arity,
        locals: MOST_LOCALS,
    };
    definition_value(alloc, heads, &scope, tree.name, tree.arity, &tree.cases)
}

/// The definitions that trees say, in order.
pub fn definition_values(
    alloc: Global,
    heads: &Heads<'_>,
    trees: &[DefinitionTree<'_>],
) -> Result<Vec<Def>, OutOfMemory>
    requires small { Each IsSmallDefinition (map definition_of trees.now) }
    requires few { length heads.now ≤ MOST_PREDICATES }
    ensures value { IfOk result (λ v. v.items ≡ map (value_of_definition heads.now) (map definition_of trees.now)) }
    ensures size { IfOk result (λ v. length v.items ≡ length trees.now) }
{
    let mut made = Vec::with_capacity(alloc, trees.len())?;
    for tree in trees {
        made.push(definition(alloc, heads, tree)?)?;
    }
    Ok(made)
}
