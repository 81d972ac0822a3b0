// The definitions of a file, in order.
ghost use Rattle.std.specs.Prelude.{◌≡◌, ◌≢◌, ◌≤◌, ◌<◌, ◌++◌, ◌∷◌, [], length, Some, OnOk, OnErr, IfOk, IsOkUnless};
ghost use Rattle.std.specs.List.{list_any};
ghost use Rattle.heap_formula.specs.Meaning.{cases_of};
ghost use Rattle.pred_defs.specs.Faults.{first_fault, has_name as list_has_name, is_long, has_many_pures, has_far_local, has_stranger};
ghost use Rattle.cyc_basics.specs.Limits.{AreLimits};
ghost use Rattle.pred_defs.specs.Faults.{push_fault, use_fault, case_fault, closed_fault, IsRefusal};

use crate::faults::DefFault;
use cyc_basics::limits::{Limits, MOST_PREDICATES};
use heap_formula::{Cases, Count, Def, DefName, Heap, Spatial, bound_of_heap, exists_in_heap};
use std::alloc::{AllocError, Global};
use std::marker::Model;

/// Inductive definitions in the order of their numbers, and the limits that they keep. No two have one name; what else
/// `push` refuses is in none of them.
#[derive(Drop)]
pub struct Defs {
    alloc: Global,
    most: Limits,
    items: Vec<Def>,
}

impl Model for Defs {
    ghost use Rattle.pred_defs.specs.Book.{DefinitionBook};
    ghost use Rattle.std.specs.Prelude.{length, ◌≤◌};
    ghost use Rattle.cyc_basics.specs.Limits.{AreLimits};
    ghost use Rattle.cyc_basics.specs.declared.limits.TheConstants.{MOST_PREDICATES};

    ghost Value = { DefinitionBook };

    ghost view = { λ d. record { most = d.most; list = d.items.items } };

    ghost invariant = { λ d. AreLimits d.most × (length d.items.items ≤ MOST_PREDICATES) };
}

impl Clone for Defs {
    ghost is_clone = { λ defs copy. copy ≡ defs };

    fn clone(&self) -> Result<Defs, AllocError> {
        let items = self.items.clone()?;
        Ok(Defs {
            alloc: self.alloc,
            most: self.most,
            items,
        })
    }
}

impl Defs {
    /// No definitions. `most` are the limits of the format's version.
    pub fn new(alloc: Global, most: Limits) -> Defs
        requires { AreLimits most }
        ensures { result ≡ record { most = most; list = [] } }
    {
        Defs {
            alloc,
            most,
            items: Vec::new(alloc),
        }
    }

    /// The limits that the definitions keep.
    pub fn most(&self) -> Limits
        ensures value { result ≡ self.now.most }
        ensures fits { AreLimits self.now.most }
    {
        self.most
    }

    /// Sets the limits, which those of a wider version of the format are; takes no memory.
    pub fn set_most(&mut self, most: Limits)
        requires { AreLimits most }
        ensures { self.new ≡ record { most = most; list = self.old.list } }
    {
        self.most = most;
    }

    /// The definitions in order.
    pub fn as_slice(&self) -> &[Def]
        ensures value { result.now ≡ self.now.list }
        ensures few { length self.now.list ≤ MOST_PREDICATES }
    {
        &self.items
    }

    /// The cases of a predicate by its number, none where there is no such predicate.
    pub fn cases(&self, pred: u16) -> &[Heap]
        ensures { result.now ≡ cases_of self.now.list pred }
    {
        cases_at(self.as_slice(), pred)
    }

    /// Appends a definition, with a copy of its cases.
    pub fn push(&mut self, name: &str, arity: u32, cases: &[Heap]) -> Result<(), DefFault>
        requires { 0 < length cases.now }
        ensures answer { IsRefusal result (push_fault self.old name.now arity cases.now) }
        ensures appended { OnOk result (self.new ≡ record {
          most = self.old.most;
          list = self.old.list ++ record { name = name.now; arity = arity; cases = cases.now } ∷ [];
        }) }
        ensures unchanged { OnErr result (self.new ≡ self.old) }
    {
        if let Some(fault) = fault_of_push(self, name, arity, cases) {
            return Err(fault);
        }
        let def = definition(self.alloc, name, arity, cases)?;
        self.append(def)
    }

    fn append(&mut self, def: Def) -> Result<(), DefFault>
        requires { length self.old.list < MOST_PREDICATES }
        ensures appended { OnOk result (self.new ≡ record { most = self.old.most; list = self.old.list ++ def ∷ [] }) }
        ensures unchanged { OnErr result (self.new ≡ self.old) }
        ensures memory { IsOkUnless result DefFault.OutOfMemory }
    {
        self.items.push(def)?;
        Ok(())
    }
}

fn cases_at(defs: &[Def], q: u16) -> &[Heap]
    ensures { result.now ≡ cases_of defs.now q }
{
    if (q as usize) < defs.len() {
        let def = &defs[q as usize];
        def.cases.heaps()
    } else {
        &[]
    }
}

fn copied_cases(alloc: Global, cases: &[Heap]) -> Result<Vec<Heap>, AllocError>
    ensures { IfOk result (λ v. v.items ≡ cases.now) }
{
    let mut copy = Vec::new(alloc);
    for case in cases {
        copy.push(case.clone()?)?;
    }
    Ok(copy)
}

fn definition(alloc: Global, name: &str, arity: u32, cases: &[Heap]) -> Result<Def, AllocError>
    ensures { IfOk result (λ d. d ≡ record { name = name.now; arity = arity; cases = cases.now }) }
{
    let text = String::from_str(alloc, name)?;
    let copy = copied_cases(alloc, cases)?;
    Ok(Def {
        name: DefName::from_text(text),
        arity,
        cases: Cases::from_vec(copy),
    })
}

fn has_name(defs: &[Def], name: &str) -> bool
    ensures { result ≡ list_has_name defs.now name.now }
{
    for known in defs {
        if known.name.as_text() == name {
            return true;
        }
    }
    false
}

fn some_has_many_pures(most: Limits, cases: &[Heap]) -> bool
    ensures { result ≡ list_any (has_many_pures most) cases.now }
{
    for case in cases {
        if case.pure().len() > most.pure as usize {
            return true;
        }
    }
    false
}

fn some_is_long(most: Limits, cases: &[Heap]) -> bool
    ensures { result ≡ list_any (is_long most) cases.now }
{
    for case in cases {
        if case.spatial().len() > most.spatial as usize {
            return true;
        }
    }
    false
}

fn some_has_far_local(most: Limits, cases: &[Heap]) -> bool
    ensures { result ≡ list_any (has_far_local most) cases.now }
{
    for case in cases {
        if exists_in_heap(case) > most.locals {
            return true;
        }
    }
    false
}

fn some_has_stranger(arity: u32, cases: &[Heap]) -> bool
    ensures { result ≡ list_any (has_stranger arity) cases.now }
{
    for case in cases {
        if bound_of_heap(case) > arity {
            return true;
        }
    }
    false
}

fn fault_of_push(defs: &Defs, name: &str, arity: u32, cases: &[Heap]) -> Option<DefFault>
    ensures { result ≡ push_fault defs.now name.now arity cases.now }
{
    if has_name(defs.as_slice(), name) {
        return Some(DefFault::Duplicate);
    }
    if defs.as_slice().len() >= MOST_PREDICATES {
        return Some(DefFault::Limit(Count::Predicates));
    }
    let most = defs.most();
    if arity > most.arguments {
        return Some(DefFault::Limit(Count::Arguments));
    }
    if cases.len() > most.cases as usize {
        return Some(DefFault::Limit(Count::Cases));
    }
    if some_has_many_pures(most, cases) {
        return Some(DefFault::Limit(Count::Pure));
    }
    if some_is_long(most, cases) {
        return Some(DefFault::Limit(Count::Spatial));
    }
    if some_has_far_local(most, cases) {
        return Some(DefFault::Limit(Count::Locals));
    }
    if some_has_stranger(arity, cases) {
        return Some(DefFault::Parameter);
    }
    None
}

fn fault_of_use(defs: &[Def], atom: &Spatial) -> Option<DefFault>
    ensures value { result ≡ use_fault defs.now atom.now }
    ensures settled { result ≢ Some DefFault.OutOfMemory }
{
    match atom {
        Spatial::Cell(_, _) => None,
        Spatial::Pred(q, args) => {
            if (*q as usize) >= defs.len() {
                return Some(DefFault::Unknown);
            }
            let def = &defs[*q as usize];
            if args.len() as u32 == def.arity {
                None
            } else {
                Some(DefFault::Arity)
            }
        }
    }
}

fn fault_of_atoms(defs: &[Def], atoms: &[Spatial]) -> Option<DefFault>
    ensures value { result ≡ first_fault (use_fault defs.now) atoms.now }
    ensures settled { result ≢ Some DefFault.OutOfMemory }
{
    for atom in atoms {
        if let Some(fault) = fault_of_use(defs, atom) {
            return Some(fault);
        }
    }
    None
}

fn fault_of_cases(defs: &[Def], cases: &[Heap]) -> Option<DefFault>
    ensures value { result ≡ first_fault (case_fault defs.now) cases.now }
    ensures settled { result ≢ Some DefFault.OutOfMemory }
{
    for case in cases {
        if let Some(fault) = fault_of_atoms(defs, case.spatial()) {
            return Some(fault);
        }
    }
    None
}

fn fault_of_closed(defs: &[Def]) -> Option<DefFault>
    ensures value { result ≡ closed_fault defs.now }
    ensures settled { result ≢ Some DefFault.OutOfMemory }
{
    for def in defs {
        if let Some(fault) = fault_of_cases(defs, def.cases.heaps()) {
            return Some(fault);
        }
    }
    None
}

impl Defs {
    /// Whether each predicate that a case uses is there, with this number of arguments. Takes no memory.
    pub fn closed(&self) -> Result<(), DefFault>
        ensures answer { IsRefusal result (closed_fault self.now.list) }
        ensures settled { result ≢ Err DefFault.OutOfMemory }
    {
        match fault_of_closed(self.as_slice()) {
            Some(fault) => Err(fault),
            None => Ok(()),
        }
    }
}

impl Defs {
    /// The definitions in this order, without a copy. The caller has seen to what `push` would refuse.
    pub fn from_vec(alloc: Global, most: Limits, items: Vec<Def>) -> Defs
        requires fits { AreLimits most }
        requires few { length items.items ≤ MOST_PREDICATES }
        ensures { result ≡ record { most = most; list = items.items } }
    {
        Defs { alloc, most, items }
    }
}
