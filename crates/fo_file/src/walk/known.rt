//! The names that a text gives, as terms and atoms are compared with them.

ghost use Rattle.std.specs.Prelude.{◌≡◌, map, IfOk};
ghost use Rattle.fo_syntax.specs.ProblemTrees.{constructor_of, definition_of};
ghost use Rattle.fo_file.specs.Flaws.{constructor_heads as constructors_of, predicate_heads as predicates_of};

use cyc_basics::memory::OutOfMemory;
use fo_syntax::problems::{ConstructorTree, DefinitionTree};
use heap_reader::{Head, Heads};
use std::alloc::Global;

/// The constructors and the predicates of a text, with their numbers of arguments.
#[derive(Drop)]
pub struct Names<'a> {
    pub constructors: Heads<'a>,
    pub predicates: Heads<'a>,
}

fn constructor_heads<'a>(
    alloc: Global,
    trees: &[ConstructorTree<'a>],
) -> Result<Heads<'a>, OutOfMemory>
    ensures { IfOk result (λ h. h ≡ constructors_of (map constructor_of trees.now)) }
{
    let mut heads = Vec::with_capacity(alloc, trees.len())?;
    for tree in trees {
        heads.push(Head {
            name: tree.name,
            arity: tree.arguments,
        })?;
    }
    Heads::new(alloc, heads)
}

fn predicate_heads<'a>(
    alloc: Global,
    trees: &[DefinitionTree<'a>],
) -> Result<Heads<'a>, OutOfMemory>
    ensures { IfOk result (λ h. h ≡ predicates_of (map definition_of trees.now)) }
{
    let mut heads = Vec::with_capacity(alloc, trees.len())?;
    for tree in trees {
        heads.push(Head {
            name: tree.name,
            arity: tree.arity,
        })?;
    }
    Heads::new(alloc, heads)
}

impl<'a> Names<'a> {
    /// The names of a text's constructors and predicates, made ready to be found.
    pub fn new(
        alloc: Global,
        constructors: &[ConstructorTree<'a>],
        definitions: &[DefinitionTree<'a>],
    ) -> Result<Names<'a>, OutOfMemory>
        ensures constructors { IfOk result (λ n. n.constructors
            ≡ constructors_of (map constructor_of constructors.now)) }
        ensures predicates { IfOk result (λ n. n.predicates ≡ predicates_of (map definition_of definitions.now)) }
    {
        let constructors = constructor_heads(alloc, constructors)?;
        let predicates = predicate_heads(alloc, definitions)?;
        Ok(Names {
            constructors,
            predicates,
        })
    }
}
