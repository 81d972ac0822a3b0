// What a part of a text is, as far as the definitions so far tell.
ghost use Rattle.std.specs.Prelude.{◌≡◌, ◌+◌, ◌<◌, ◌^◌, ◌++◌, ◌∷◌, [], length, map, IfOk};
ghost use Rattle.heap_reader.specs.Spans.{heap_span};
ghost use Rattle.heap_reader.specs.Trees.{defined_headings};
ghost use Rattle.heap_reader.specs.DefinitionSpans.{term_span, definition_span};
ghost use Rattle.heap_reader.specs.Flaws.{IsName};
ghost use Rattle.heap_reader.specs.DefinitionFlaws.{definition_flaw};
ghost use Rattle.heap_syntax.specs.DefinitionTrees.{heap_of, definition_of};
ghost use Rattle.heap_reader.specs.Items.{is_unknown, IsHeapItem, IsDefinitionItem};

use crate::definitions::{Scope, walk_definitions};
use crate::{
    Flaw, Head, Heads, Item as FlawItem, definition_value, heads_of, heap_value, ill, over,
    walk_heap,
};
use cyc_basics::limits::{Limits, MOST_PREDICATES};
use cyc_basics::memory::OutOfMemory;
use cyc_lex::{IllFault, What};
use heap_formula::{Def, Heap};
use heap_syntax::definitions::{DefinitionTree, HeapTree};
use pred_defs::Defs;
use std::alloc::Global;
use std::slice;

/// What a part of a text is, as far as the definitions so far tell. A predicate that they do not have may be defined
/// after the part.
#[derive(Drop)]
pub enum Item<V, T> {
    /// The part has no flaw, and says this.
    Value(V),
    /// Its first flaw.
    Flawed(Flaw),
    /// Its first flaw, unless a definition to come has the predicate's name; what it is then is found in the tree.
    Open(T, Flaw),
}

/// Whether a definition to come may mend the flaw.
fn is_open(flaw: Flaw) -> bool
    ensures { result ≡ is_unknown flaw.item }
{
    match flaw.item {
        FlawItem::Ill(fault) => matches!(fault, IllFault::Unknown),
        FlawItem::Over(_) => false,
    }
}

/// The heap that begins at a token.
pub fn heap_item<'a>(
    alloc: Global,
    at: usize,
    tree: HeapTree<'a>,
    defs: &Defs,
) -> Result<Item<Heap, HeapTree<'a>>, OutOfMemory>
    requires { at + heap_span term_span (heap_of tree) < 2 ^ 64 }
    ensures { IfOk result (λ item. IsHeapItem defs.now at (heap_of tree.entry) item) }
{
    let heads = Heads::new(alloc, heads_of(alloc, defs.as_slice())?)?;
    match walk_heap(&heads, &Scope::Outside, defs.most(), at, &tree) {
        Ok(_) => Ok(Item::Value(heap_value(alloc, &heads, &Scope::Outside, &tree)?)),
        Err(flaw) if is_open(flaw) => Ok(Item::Open(tree, flaw)),
        Err(flaw) => Ok(Item::Flawed(flaw)),
    }
}

/// Goes over the definition before which n stand, up to its first flaw.
fn walk_definition(
    heads: &Heads<'_>,
    most: Limits,
    n: usize,
    at: usize,
    tree: &DefinitionTree<'_>,
) -> Result<(), Flaw>
    requires there { n < length heads.now }
    requires fits { at + definition_span (definition_of tree.now) < 2 ^ 64 }
    ensures { IsName result (definition_flaw most heads.now n at (definition_of tree.now)) }
{
    if n >= MOST_PREDICATES {
        return Err(over(What::Predicates, at));
    }
    if heads.has_among(n, tree.name) {
        return Err(ill(IllFault::Duplicate, at + 1));
    }
    walk_definitions(heads, most, at, slice::from_ref(tree))?;
    Ok(())
}

/// What uses of the predicates and of one more are compared with.
fn heads_with<'a>(
    alloc: Global,
    defs: &'a [Def],
    name: &'a str,
    arity: u32,
) -> Result<Heads<'a>, OutOfMemory>
    ensures { IfOk result (λ h. h ≡ defined_headings defs.now ++ record { name = name.now; arity = arity } ∷ []) }
{
    let mut list = heads_of(alloc, defs)?;
    list.push(Head { name, arity })?;
    Heads::new(alloc, list)
}

/// The definition that begins at a token, after those so far.
pub fn definition_item<'a>(
    alloc: Global,
    at: usize,
    tree: DefinitionTree<'a>,
    defs: &Defs,
) -> Result<Item<Def, DefinitionTree<'a>>, OutOfMemory>
    requires { at + definition_span (definition_of tree) < 2 ^ 64 }
    ensures { IfOk result (λ item. IsDefinitionItem defs.now at (definition_of tree.entry) item) }
{
    let most = defs.most();
    let so_far = defs.as_slice();
    let heads = heads_with(alloc, so_far, tree.name, tree.arity)?;
    match walk_definition(&heads, most, so_far.len(), at, &tree) {
        Ok(()) => {
            let (name, arity) = (tree.name, tree.arity);
            let scope = Scope::Case {
                arity,
                locals: most.locals,
            };
            let value = definition_value(alloc, &heads, &scope, name, arity, &tree.cases)?;
            Ok(Item::Value(value))
        }
        Err(flaw) if is_open(flaw) => Ok(Item::Open(tree, flaw)),
        Err(flaw) => Ok(Item::Flawed(flaw)),
    }
}
