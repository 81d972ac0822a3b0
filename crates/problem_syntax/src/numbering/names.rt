//! Names in the order of their first occurrences.

ghost use Rattle.std.specs.Prelude.{◌≡◌, map, IfOk};
ghost use Rattle.problem_syntax.specs.Names.{firsts, has, place_of};
ghost use Rattle.problem_syntax.specs.Views.{name_of, names_of};

use cyc_basics::memory::OutOfMemory;
use indexmap::IndexSet;
use std::alloc::Global;

/// A name, and whether a prime stands after it.
#[derive(Clone, Copy, PartialEq, Eq, Hash)]
pub struct NameUse<'a> {
    pub text: &'a str,
    pub primed: bool,
}

/// The names of a scope, each once, in the order of first occurrence.
#[derive(Drop)]
pub struct Names<'a> {
    pub all: IndexSet<NameUse<'a>>,
}

/// The names in the order of their first occurrences.
pub fn first_names<'a>(alloc: Global, uses: &[NameUse<'a>]) -> Result<Names<'a>, OutOfMemory>
    ensures { IfOk result (λ n. names_of n ≡ firsts (map name_of uses.now)) }
{
    let mut all = IndexSet::new(alloc);
    for name in uses {
        all.insert(*name)?;
    }
    Ok(Names { all })
}

impl<'a> Names<'a> {
    /// Whether the name is one of them.
    pub fn has(&self, name: NameUse<'a>) -> bool
        ensures { result ≡ has (names_of self.now) (name_of name.entry) }
    {
        self.all.contains(&name)
    }

    /// The place of the name from 0, and how many names there are where it is none of them.
    pub fn place_of(&self, name: NameUse<'a>) -> usize
        ensures { result ≡ place_of (names_of self.now) (name_of name.entry) }
    {
        match self.all.get_index_of(&name) {
            Some(place) => place,
            None => self.all.len(),
        }
    }
}
