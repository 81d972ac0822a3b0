// What a use of a predicate is compared with.
ghost use Rattle.std.specs.Prelude.{◌≡◌, ◌≤◌, length, map, take, is_some, IfOk};
ghost use Rattle.heap_reader.specs.Trees.{heading_of, defined_headings};
ghost use Rattle.heap_reader.specs.Flaws.{arity_in};
ghost use Rattle.heap_reader.specs.Values.{place_of};
ghost use Rattle.heap_reader.specs.Indexes.{IsIndex};

use cyc_basics::memory::OutOfMemory;
use heap_formula::Def;
use indexmap::IndexMap;
use std::alloc::Global;
use std::marker::Model;

/// The name of a predicate that a text defines, and the number of its parameters.
#[derive(Clone, Copy)]
pub struct Head<'a> {
    pub name: &'a str,
    pub arity: u32,
}

/// What uses of these predicates are compared with, in their order.
pub fn heads_of<'a>(alloc: Global, defs: &'a [Def]) -> Result<Vec<Head<'a>>, OutOfMemory>
    ensures { IfOk result (λ v. map heading_of v.items ≡ defined_headings defs.now) }
{
    let mut heads = Vec::with_capacity(alloc, defs.len())?;
    for def in defs {
        heads.push(Head {
            name: def.name.as_text(),
            arity: def.arity,
        })?;
    }
    Ok(heads)
}

/// The predicates that a text defines, in order, found by name. Where two have one name, the first is found.
#[derive(Drop)]
pub struct Heads<'a> {
    list: Vec<Head<'a>>,
    places: IndexMap<&'a str, usize>,
}

impl<'a> Model for Heads<'a> {
    ghost use Rattle.std.specs.Prelude.{List, map};
    ghost use Rattle.heap_reader.specs.Trees.{Heading, heading_of};
    ghost use Rattle.heap_reader.specs.Indexes.{IsIndex};

    ghost Value = { List Heading };

    ghost view = { λ h. map heading_of h.list.items };

    ghost invariant = { λ h. IsIndex (map heading_of h.list.items) h.places.entries };
}

/// The place of the first head of each name.
fn first_places<'a>(
    alloc: Global,
    list: &[Head<'a>],
) -> Result<IndexMap<&'a str, usize>, OutOfMemory>
    ensures { IfOk result (λ m. IsIndex (map heading_of list.now) m.entries) }
{
    let mut places = IndexMap::new(alloc);
    for (i, head) in list.iter().enumerate() {
        if !places.contains_key(&head.name) {
            places.insert(head.name, i)?;
        }
    }
    Ok(places)
}

impl<'a> Heads<'a> {
    /// The heads in this order, made ready to be found.
    pub fn new(alloc: Global, list: Vec<Head<'a>>) -> Result<Heads<'a>, OutOfMemory>
        ensures { IfOk result (λ h. h ≡ map heading_of list.entry.items) }
    {
        let places = first_places(alloc, &list)?;
        Ok(Heads { list, places })
    }

    /// The arity of the first predicate with the name.
    pub fn arity_of(&self, name: &str) -> Option<u32>
        ensures { result ≡ arity_in self.now name.now }
    {
        let place = self.places.get(&name)?;
        Some(self.list[*place].arity)
    }

    /// The number of the first predicate with the name, from 0, and that of all predicates where there is none.
    pub fn place_of(&self, name: &str) -> usize
        ensures value { result ≡ place_of self.now name.now }
        ensures within { result ≤ length self.now }
    {
        match self.places.get(&name) {
            Some(place) => *place,
            None => self.list.len(),
        }
    }

    /// Whether one of the first predicates has the name.
    pub fn has_among(&self, n: usize, name: &str) -> bool
        requires { n ≤ length self.now }
        ensures { result ≡ is_some (arity_in (take n self.now) name.now) }
    {
        self.place_of(name) < n
    }
}
