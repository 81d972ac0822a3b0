// The heads of definitions.
ghost use Rattle.std.specs.Prelude.{◌≡◌, map, IfOk};
ghost use Rattle.heap_syntax.specs.DefinitionTrees.{definition_of};
ghost use Rattle.heap_reader.specs.DefinitionFlaws.{headings};

use crate::{Head, Heads};
use cyc_basics::memory::OutOfMemory;
use heap_syntax::definitions::DefinitionTree;
use std::alloc::Global;

/// What uses of the predicates are compared with.
pub fn heads<'a>(alloc: Global, defs: &[DefinitionTree<'a>]) -> Result<Heads<'a>, OutOfMemory>
    ensures { IfOk result (λ h. h ≡ headings (map definition_of defs.now)) }
{
    let mut heads = Vec::with_capacity(alloc, defs.len())?;
    for def in defs {
        heads.push(Head {
            name: def.name,
            arity: def.arity,
        })?;
    }
    Heads::new(alloc, heads)
}
