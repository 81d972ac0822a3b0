//! Disjuncts with numbers in place of names, and their names.

ghost use Rattle.std.specs.Prelude.{◌≡◌, ◌++◌, map, IfOk};
ghost use Rattle.std.specs.List.{flat_map};
ghost use Rattle.problem_syntax.specs.Trees as named;
ghost use Rattle.problem_syntax.specs.Occurrences.{plain_names};
ghost use Rattle.problem_syntax.specs.Numbered.{heap_of};
ghost use Rattle.problem_syntax.specs.Numbering.{disjunct as disjunct_number};
ghost use Rattle.problem_syntax.specs.Views.{name_of, names_of};

use crate::HeapTree;
use crate::numbering::heaps::heap;
use crate::numbering::names::{NameUse, Names, first_names};
use crate::numbering::occurrences::{heap_names, primed_names, with_plain_names};
use crate::numbering::scope::Scope;
use crate::numbering::tree::NumberedHeap;
use cyc_basics::memory::OutOfMemory;
use std::alloc::Global;

/// The names with the plain ones of these heaps after them.
pub fn with_disjunct_names<'a>(
    alloc: Global,
    mut names: Vec<NameUse<'a>>,
    trees: &[HeapTree<'a>],
) -> Result<Vec<NameUse<'a>>, OutOfMemory>
    ensures { IfOk result (λ v. map name_of v.items
        ≡ map name_of names.entry.items ++ flat_map plain_names (map named.heap_of trees.now)) }
{
    for tree in trees {
        names = with_plain_names(names, &heap_names(alloc, tree)?)?;
    }
    Ok(names)
}

#[tactic(auto, unfolding(crate::specs::Numbering::disjunct))]
fn disjunct<'a>(
    alloc: Global,
    universals: &Names<'a>,
    tree: &HeapTree<'a>,
) -> Result<NumberedHeap<'a>, OutOfMemory>
    ensures { IfOk result (λ h. heap_of h ≡ disjunct_number (names_of universals.now) (named.heap_of tree.now)) }
{
    let uses = heap_names(alloc, tree)?;
    let existentials = first_names(alloc, &primed_names(alloc, &uses)?)?;
    heap(alloc, &Scope::Disjunct(universals, &existentials), tree)
}

/// Disjuncts whose universal variables are numbered as these.
pub fn disjuncts<'a>(
    alloc: Global,
    universals: &Names<'a>,
    trees: &[HeapTree<'a>],
) -> Result<Vec<NumberedHeap<'a>>, OutOfMemory>
    ensures { IfOk result (λ v. map heap_of v.items
        ≡ map (disjunct_number (names_of universals.now)) (map named.heap_of trees.now)) }
{
    let mut heaps = Vec::with_capacity(alloc, trees.len())?;
    for tree in trees {
        heaps.push(disjunct(alloc, universals, tree)?)?;
    }
    Ok(heaps)
}
