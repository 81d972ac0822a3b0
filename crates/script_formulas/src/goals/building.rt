// Definitions of a problem.
ghost use Rattle.std.specs.Prelude.{◌≡◌, [], ◌∷◌, length, IfOk, OnOk};
ghost use Rattle.cyc_basics.specs.Limits.{AreLimits};
ghost use Rattle.script_formulas.specs.Translating.{impossible};
ghost use Rattle.script_formulas.specs.Defining.{HasPushed, HasDefined};

use crate::cases::{Refused, Unsupported};
use crate::goals::names::free_name;
use cyc_basics::limits::Limits;
use heap_formula::{Heap, Pure, Term};
use pred_defs::Defs;
use std::alloc::Global;

/// The heap of nothing: `nil` is not `nil`.
pub fn false_heap(alloc: Global) -> Result<Heap, Refused>
    ensures { IfOk result (λ h. h ≡ impossible) }
{
    let mut pure = Vec::new(alloc);
    pure.push(Pure::Neq(Term::Nil, Term::Nil))?;
    let pure = pure;
    if pure.len() > 64 {
        return Err(Refused::OutOfMemory);
    }
    Ok(Heap::from_lists(pure, Vec::new(alloc)))
}

/// Definitions under way, and the names of all that there will be.
#[derive(Drop)]
pub struct Building {
    alloc: Global,
    defs: Defs,
    names: Vec<String>,
}

impl Building {
    /// No definitions, within these limits.
    pub fn new(alloc: Global, limits: Limits) -> Building
        requires { AreLimits limits }
        ensures { result.defs.list ≡ [] }
    {
        Building {
            alloc,
            defs: Defs::new(alloc, limits),
            names: Vec::new(alloc),
        }
    }

    /// How many definitions there are.
    pub fn count(&self) -> usize
        ensures { result ≡ length self.now.defs.list }
    {
        self.defs.as_slice().len()
    }

    /// Keeps a name like this one for the next definition.
    pub fn name(&mut self, wanted: &str) -> Result<(), Refused>
        ensures { OnOk result (self.new.defs ≡ self.old.defs) }
    {
        let name = free_name(self.alloc, &self.names, wanted)?;
        self.names.push(name)?;
        Ok(())
    }

    fn push_few(&mut self, arity: usize, heaps: &[Heap]) -> Result<(), Refused>
        ensures { OnOk result (HasPushed self.old.defs.list arity heaps.now self.new.defs.list) }
    {
        let place = self.defs.as_slice().len();
        let Some(name) = self.names.get(place) else {
            return Err(Refused::Unsupported(Unsupported::Predicates));
        };
        if heaps.is_empty() {
            return Err(Refused::Unsupported(Unsupported::Cases));
        }
        if arity > self.defs.most().arguments as usize {
            return Err(Refused::Unsupported(Unsupported::Parameters));
        }
        match self.defs.push(name.as_str(), arity as u32, heaps) {
            Ok(()) => Ok(()),
            Err(_) => Err(Refused::OutOfMemory),
        }
    }

    fn define_false(&mut self, arity: usize) -> Result<(), Refused>
        ensures { OnOk result (HasPushed self.old.defs.list arity (impossible ∷ []) self.new.defs.list) }
    {
        let mut heaps = Vec::new(self.alloc);
        heaps.push(false_heap(self.alloc)?)?;
        self.push_few(arity, &heaps)
    }

    /// Appends a definition with these cases; where there are none, it has a false one.
    pub fn define(&mut self, arity: usize, heaps: &[Heap]) -> Result<(), Refused>
        ensures { OnOk result (HasDefined self.old.defs.list arity heaps.now self.new.defs.list) }
    {
        let count = heaps.len();
        if count == 0 {
            return self.define_false(arity);
        }
        if count > self.defs.most().cases as usize {
            return Err(Refused::Unsupported(Unsupported::Cases));
        }
        self.push_few(arity, heaps)
    }

    /// The definitions.
    pub fn finished(self) -> Defs
        ensures { result.list ≡ self.defs.list }
    {
        let Building {
            alloc: _,
            defs,
            names: _,
        } = self;
        defs
    }
}
