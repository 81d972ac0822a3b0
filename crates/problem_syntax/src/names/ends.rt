//! The names of the ends of a program, in the order of the text.

ghost use Rattle.std.specs.Prelude.{◌≡◌, ◌++◌, map, IfOk};
ghost use Rattle.std.specs.List.{flat_map};
ghost use Rattle.problem_syntax.specs.Trees.{end_of};
ghost use Rattle.problem_syntax.specs.Occurrences.{end_names as names_of_end};
ghost use Rattle.problem_syntax.specs.NameViews.{name_of};

use crate::EndTree;
use crate::names::heaps::with_disjuncts;
use crate::names::names::ProblemName;
use cyc_basics::memory::OutOfMemory;
use std::alloc::Global;

/// The names with those of an end after them that have no prime.
fn with_end<'a>(
    alloc: Global,
    names: Vec<ProblemName<'a>>,
    end: &EndTree<'a>,
) -> Result<Vec<ProblemName<'a>>, OutOfMemory>
    ensures { IfOk result (λ v. map name_of v.items
        ≡ map name_of names.entry.items ++ names_of_end (end_of end.now)) }
{
    with_disjuncts(alloc, names, &end.disjuncts)
}

/// The same for several ends.
pub fn with_ends<'a>(
    alloc: Global,
    mut names: Vec<ProblemName<'a>>,
    ends: &[EndTree<'a>],
) -> Result<Vec<ProblemName<'a>>, OutOfMemory>
    ensures { IfOk result (λ v. map name_of v.items
        ≡ map name_of names.entry.items ++ flat_map names_of_end (map end_of ends.now)) }
{
    for end in ends {
        names = with_end(alloc, names, end)?;
    }
    Ok(names)
}
