// A walk over definitions in the order of their tokens, up to the first flaw. Each function is given the number of the
// part's first token and gives that of the token after it and the one that follows every part of its kind. `most` are
// the limits of the version.
ghost use Rattle.std.specs.Prelude.{◌+◌, ◌<◌, ◌≤◌, ◌^◌, length, map};
ghost use Rattle.cyc_lex.specs.declared.fault.What.TheVariants.{Cases};
ghost use Rattle.heap_syntax.specs.DefinitionTrees.{heap_of, definition_of};
ghost use Rattle.heap_reader.specs.Spans.{total, heap_span};
ghost use Rattle.heap_reader.specs.Flaws.{listed_flaw, heaps_flaw, IsName, IsWalk};
ghost use Rattle.heap_reader.specs.DefinitionSpans.{term_span, definition_span};
ghost use Rattle.heap_reader.specs.DefinitionFlaws.{term_flaw, head_flaw, definition_flaw};
ghost use Rattle.heap_reader.specs.declared.definitions.scope.Scope.TheVariants.{Case};

use crate::definitions::scope::Scope;
use crate::{Flaw, Heads, ill, over, walk_heaps};
use cyc_basics::limits::{Limits, MOST_PREDICATES};
use cyc_lex::{IllFault, What};
use heap_syntax::definitions::{DefinitionTree, HeapTree};

fn definition_head(
    heads: &Heads<'_>,
    most: Limits,
    n: usize,
    at: usize,
    tree: &DefinitionTree<'_>,
) -> Result<(), Flaw>
    requires there { n ≤ length heads.now }
    requires fits { at + 3 < 2 ^ 64 }
    ensures { IsName result (head_flaw most heads.now n at (definition_of tree.now)) }
{
    if n >= MOST_PREDICATES {
        return Err(over(What::Predicates, at));
    }
    if heads.has_among(n, tree.name) {
        return Err(ill(IllFault::Duplicate, at + 1));
    }
    if tree.arity > most.arguments {
        return Err(over(What::Arguments, at + 3));
    }
    Ok(())
}

fn cases(
    heads: &Heads<'_>,
    most: Limits,
    arity: u32,
    at: usize,
    trees: &[HeapTree<'_>],
) -> Result<usize, Flaw>
    requires { at + total (heap_span term_span) (map heap_of trees.now) < 2 ^ 64 }
    ensures { IsWalk result
        (heaps_flaw (term_flaw (Case arity most.locals)) term_span most heads.now Cases at (map heap_of trees.now))
        (at + total
        (heap_span term_span) (map heap_of trees.now)) }
{
    let scope = Scope::Case {
        arity,
        locals: most.locals,
    };
    walk_heaps(heads, &scope, most, What::Cases, at, trees)
}

fn definition(
    heads: &Heads<'_>,
    most: Limits,
    n: usize,
    at: usize,
    tree: &DefinitionTree<'_>,
) -> Result<usize, Flaw>
    requires there { n ≤ length heads.now }
    requires fits { at + definition_span (definition_of tree.now) < 2 ^ 64 }
    ensures { IsWalk result
        (definition_flaw most heads.now n at (definition_of tree.now)) (at + definition_span (definition_of tree.now)) }
{
    definition_head(heads, most, n, at, tree)?;
    let behind = cases(heads, most, tree.arity, at + 6, &tree.cases)?;
    Ok(behind + 1)
}

/// Goes over the definitions of a text, the first of which begins at a token, up to the first flaw, and gives the token
/// after them. The heads are those of the definitions; `most` are the limits of the version.
pub fn walk_definitions(
    heads: &Heads<'_>,
    most: Limits,
    at: usize,
    trees: &[DefinitionTree<'_>],
) -> Result<usize, Flaw>
    requires there { length trees.now ≤ length heads.now }
    requires fits { at + total definition_span (map definition_of trees.now) < 2 ^ 64 }
    ensures { IsWalk result
        (listed_flaw (definition_flaw most heads.now) definition_span 0 at
        (map definition_of trees.now)) (at + total definition_span (map definition_of trees.now)) }
{
    let mut next = at;
    for (n, tree) in trees.iter().enumerate() {
        next = definition(heads, most, n, next, tree)?;
    }
    Ok(next)
}
