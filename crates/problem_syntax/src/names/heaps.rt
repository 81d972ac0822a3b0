//! The names of heaps, in the order of the text.

ghost use Rattle.std.specs.Prelude.{◌≡◌, ◌++◌, map, filter, not, IfOk};
ghost use Rattle.std.specs.List.{flat_map};
ghost use Rattle.heap_syntax.specs.Trees.{pure_of, spatial_of};
ghost use Rattle.problem_syntax.specs.Trees.{named_of, heap_of};
ghost use Rattle.problem_syntax.specs.Occurrences.{term_names as names_of_term, pure_names as names_of_pure};
ghost use Rattle.problem_syntax.specs.Occurrences.{spatial_names as names_of_spatial, heap_names as names_of_heap};
ghost use Rattle.problem_syntax.specs.Occurrences.{plain_names as names_of_disjunct};
ghost use Rattle.problem_syntax.specs.NameViews.{name_of};

use crate::names::names::ProblemName;
use crate::{HeapTree, NameTree};
use cyc_basics::memory::OutOfMemory;
use heap_syntax::{PureTree, SpatialTree};
use std::alloc::Global;

/// The names with a term's name after them, if it has one; the functions below do the same for larger parts.
fn with_term<'a>(
    mut names: Vec<ProblemName<'a>>,
    term: NameTree<'a>,
) -> Result<Vec<ProblemName<'a>>, OutOfMemory>
    ensures { IfOk result (λ v. map name_of v.items
        ≡ map name_of names.entry.items ++ names_of_term (named_of term.entry)) }
{
    let name = match term {
        NameTree::Nil => return Ok(names),
        NameTree::Plain(text) => ProblemName {
            text,
            primed: false,
        },
        NameTree::Primed(text) => ProblemName { text, primed: true },
    };
    names.push(name)?;
    Ok(names)
}

fn with_terms<'a>(
    mut names: Vec<ProblemName<'a>>,
    terms: &[NameTree<'a>],
) -> Result<Vec<ProblemName<'a>>, OutOfMemory>
    ensures { IfOk result (λ v. map name_of v.items
        ≡ map name_of names.entry.items ++ flat_map names_of_term (map named_of terms.now)) }
{
    for term in terms {
        names = with_term(names, *term)?;
    }
    Ok(names)
}

fn with_pure_atoms<'a>(
    mut names: Vec<ProblemName<'a>>,
    atoms: &[PureTree<NameTree<'a>>],
) -> Result<Vec<ProblemName<'a>>, OutOfMemory>
    ensures { IfOk result (λ v. map name_of v.items
        ≡ map name_of names.entry.items ++ flat_map names_of_pure (map (pure_of named_of) atoms.now)) }
{
    for atom in atoms {
        let left = with_term(names, atom.left)?;
        names = with_term(left, atom.right)?;
    }
    Ok(names)
}

fn with_spatial_atom<'a>(
    names: Vec<ProblemName<'a>>,
    atom: &SpatialTree<'a, NameTree<'a>>,
) -> Result<Vec<ProblemName<'a>>, OutOfMemory>
    ensures { IfOk result (λ v. map name_of v.items
        ≡ map name_of names.entry.items ++ names_of_spatial (spatial_of named_of atom.now)) }
{
    match atom {
        SpatialTree::Cell(address, fields) => with_terms(with_term(names, *address)?, fields),
        SpatialTree::Predicate(_, arguments) => with_terms(names, arguments),
    }
}

fn with_spatial_atoms<'a>(
    mut names: Vec<ProblemName<'a>>,
    atoms: &[SpatialTree<'a, NameTree<'a>>],
) -> Result<Vec<ProblemName<'a>>, OutOfMemory>
    ensures { IfOk result (λ v. map name_of v.items
        ≡ map name_of names.entry.items ++ flat_map names_of_spatial (map (spatial_of named_of) atoms.now)) }
{
    for atom in atoms {
        names = with_spatial_atom(names, atom)?;
    }
    Ok(names)
}

/// The names with those of a heap after them.
pub fn with_heap<'a>(
    names: Vec<ProblemName<'a>>,
    heap: &HeapTree<'a>,
) -> Result<Vec<ProblemName<'a>>, OutOfMemory>
    ensures { IfOk result (λ v. map name_of v.items
        ≡ map name_of names.entry.items ++ names_of_heap (heap_of heap.now)) }
{
    with_spatial_atoms(with_pure_atoms(names, &heap.pure)?, &heap.spatial)
}

/// The names with those of others after them that have no prime.
fn with_plain<'a>(
    mut names: Vec<ProblemName<'a>>,
    uses: &[ProblemName<'a>],
) -> Result<Vec<ProblemName<'a>>, OutOfMemory>
    ensures { IfOk result (λ v. map name_of v.items
        ≡ map name_of names.entry.items ++ filter (λ n. not n.primed) (map name_of uses.now)) }
{
    for name in uses {
        if !name.primed {
            names.push(*name)?;
        }
    }
    Ok(names)
}

/// The names with those of disjuncts after them that have no prime.
pub fn with_disjuncts<'a>(
    alloc: Global,
    mut names: Vec<ProblemName<'a>>,
    disjuncts: &[HeapTree<'a>],
) -> Result<Vec<ProblemName<'a>>, OutOfMemory>
    ensures { IfOk result (λ v. map name_of v.items
        ≡ map name_of names.entry.items ++ flat_map names_of_disjunct (map heap_of disjuncts.now)) }
{
    for disjunct in disjuncts {
        names = with_plain(names, &with_heap(Vec::new(alloc), disjunct)?)?;
    }
    Ok(names)
}
