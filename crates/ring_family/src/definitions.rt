// The definitions of the family.
ghost use Rattle.std.specs.Prelude.{◌≡◌, ◌<◌, ◌+◌, ◌-◌, ◌∷◌, [], decimal, string_bytes, IfOk};
ghost use Rattle.ring_family.specs.Ring.{after, list_of, ring_definitions};

use crate::formulas::{cell_then, is_nil};
use cyc_basics::memory::OutOfMemory;
use heap_formula::{Cases, Def, DefName, Term};
use std::alloc::Global;

/// The predicate after this one, 0 after the last.
pub fn successor(k: u16, i: u16) -> u16
    requires { i < k }
    ensures { result ≡ after k i }
{
    if i + 1 == k { 0 } else { i + 1 }
}

fn list_definition(alloc: Global, name: String, next: u16) -> Result<Def, OutOfMemory>
    ensures { IfOk result (λ d. d ≡ list_of (string_bytes name) next) }
{
    let empty = is_nil(alloc, Term::Univ(0))?;
    let longer = cell_then(alloc, Term::Univ(0), Term::Exist(0), next)?;
    Ok(Def {
        name: DefName::from_text(name),
        arity: 1,
        cases: Cases::from_vec(vec![in alloc; empty, longer]?),
    })
}

fn ring_predicate(alloc: Global, k: u16, i: u16) -> Result<Def, OutOfMemory>
    requires { i < k }
    ensures { IfOk result (λ d. d ≡ list_of (112 ∷ decimal i) (after k i)) }
{
    let name = format!(in alloc; "p{i}")?;
    list_definition(alloc, name, successor(k, i))
}

fn plain_list(alloc: Global, k: u16) -> Result<Def, OutOfMemory>
    ensures { IfOk result (λ d. d ≡ list_of (113 ∷ []) k) }
{
    let name = format!(in alloc; "q")?;
    list_definition(alloc, name, k)
}

/// The predicates of the ring of k, then the plain list.
pub fn definitions(alloc: Global, k: u16) -> Result<Vec<Def>, OutOfMemory>
    ensures { IfOk result (λ ds. ds.items ≡ ring_definitions k) }
{
    let mut defs = Vec::new(alloc);
    for i in 0..k {
        defs.push(ring_predicate(alloc, k, i)?)?;
    }
    defs.push(plain_list(alloc, k)?)?;
    Ok(defs)
}
