//! Ends of programs with numbers in place of names, and their names.

ghost use Rattle.std.specs.Prelude.{◌≡◌, ◌++◌, map, IfOk};
ghost use Rattle.std.specs.List.{flat_map};
ghost use Rattle.problem_syntax.specs.Trees as named;
ghost use Rattle.problem_syntax.specs.Occurrences.{end_names as names_of_end};
ghost use Rattle.problem_syntax.specs.Numbered.{end_of};
ghost use Rattle.problem_syntax.specs.Numbering.{end as end_number};
ghost use Rattle.problem_syntax.specs.Views.{name_of, names_of};

use crate::EndTree;
use crate::numbering::disjuncts::{disjuncts, with_disjunct_names};
use crate::numbering::names::{NameUse, Names};
use crate::numbering::tree::NumberedEnd;
use cyc_basics::memory::OutOfMemory;
use std::alloc::Global;

/// The names with those of an end after them.
fn with_end_names<'a>(
    alloc: Global,
    names: Vec<NameUse<'a>>,
    tree: &EndTree<'a>,
) -> Result<Vec<NameUse<'a>>, OutOfMemory>
    ensures { IfOk result (λ v. map name_of v.items
        ≡ map name_of names.entry.items ++ names_of_end (named.end_of tree.now)) }
{
    with_disjunct_names(alloc, names, &tree.disjuncts)
}

/// The names with those of ends after them.
pub fn with_ends_names<'a>(
    alloc: Global,
    mut names: Vec<NameUse<'a>>,
    trees: &[EndTree<'a>],
) -> Result<Vec<NameUse<'a>>, OutOfMemory>
    ensures { IfOk result (λ v. map name_of v.items
        ≡ map name_of names.entry.items ++ flat_map names_of_end (map named.end_of trees.now)) }
{
    for tree in trees {
        names = with_end_names(alloc, names, tree)?;
    }
    Ok(names)
}

fn end<'a>(
    alloc: Global,
    variables: &Names<'a>,
    tree: &EndTree<'a>,
) -> Result<NumberedEnd<'a>, OutOfMemory>
    ensures { IfOk result (λ e. end_of e ≡ end_number (names_of variables.now) (named.end_of tree.now)) }
{
    let disjuncts = disjuncts(alloc, variables, &tree.disjuncts)?;
    Ok(NumberedEnd {
        number: tree.number,
        disjuncts,
    })
}

/// The ends of a program, whose universal variables are numbered as these variables.
pub fn ends<'a>(
    alloc: Global,
    variables: &Names<'a>,
    trees: &[EndTree<'a>],
) -> Result<Vec<NumberedEnd<'a>>, OutOfMemory>
    ensures { IfOk result (λ v. map end_of v.items
        ≡ map (end_number (names_of variables.now)) (map named.end_of trees.now)) }
{
    let mut ends = Vec::with_capacity(alloc, trees.len())?;
    for tree in trees {
        ends.push(end(alloc, variables, tree)?)?;
    }
    Ok(ends)
}
