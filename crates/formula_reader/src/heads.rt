//! The heads of a problem's definitions.

ghost use Rattle.std.specs.Prelude.{◌≡◌, ◌<◌, ◌^◌, map, IfOk};
ghost use Rattle.problem_syntax.specs.Numbered.{definition_of};
ghost use Rattle.formula_reader.specs.Spans.{definitions_span};
ghost use Rattle.formula_reader.specs.Flaws.{headings};

use cyc_basics::memory::OutOfMemory;
use heap_reader::{Head, Heads};
use problem_syntax::numbering::NumberedDefinition;
use std::alloc::Global;

/// What uses of the predicates are compared with.
pub fn heads<'a>(alloc: Global, trees: &[NumberedDefinition<'a>]) -> Result<Heads<'a>, OutOfMemory>
    requires { definitions_span (map definition_of trees.now) < 2 ^ 32 }
    ensures { IfOk result (λ h. h ≡ headings (map definition_of trees.now)) }
{
    let mut heads = Vec::with_capacity(alloc, trees.len())?;
    for tree in trees {
        heads.push(Head {
            name: tree.name,
            arity: tree.parameters.len() as u32,
        })?;
    }
    Heads::new(alloc, heads)
}
