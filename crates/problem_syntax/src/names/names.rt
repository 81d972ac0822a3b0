//! Names in the order of their first occurrences.

ghost use Rattle.std.specs.Prelude.{◌≡◌, map, IfOk};
ghost use Rattle.problem_syntax.specs.Names.{firsts};
ghost use Rattle.problem_syntax.specs.NameViews.{name_of};

use cyc_basics::memory::OutOfMemory;
use indexmap::IndexSet;
use std::alloc::Global;

/// A name of a problem file, and whether a prime stands after it.
#[derive(Clone, Copy, PartialEq, Eq, Hash)]
pub struct ProblemName<'a> {
    pub text: &'a str,
    pub primed: bool,
}

/// Each of the names once, in the order of first occurrence.
pub fn first_names<'a>(
    alloc: Global,
    uses: &[ProblemName<'a>],
) -> Result<Vec<ProblemName<'a>>, OutOfMemory>
    ensures { IfOk result (λ v. map name_of v.items ≡ firsts (map name_of uses.now)) }
{
    let mut all = IndexSet::new(alloc);
    for name in uses {
        all.insert(*name)?;
    }
    Ok(Vec::from_slice(alloc, all.as_slice())?)
}
