// The universal variables of a judgement.
ghost use Rattle.std.specs.Prelude.{◌≡◌, IfOk};
ghost use Rattle.std.specs.List.{list_any};
ghost use Rattle.heap_formula.specs.declared.terms.Term.TheVariants.{Univ};
ghost use Rattle.back_links.specs.Listing.{is_one_of as term_stands, stands_in_pure as pure_has};
ghost use Rattle.back_links.specs.Listing.{stands_in_spatial as spatial_has, stands_in_heap as heap_has};
ghost use Rattle.back_links.specs.Listing.{stands_in as judgement_has, universals as universals_of, values_of};

use heap_formula::{Heap, Judgement, OutOfMemory, Pure, Spatial, Term, bound_of_judgement};
use rule_table::same_term;
use std::alloc::Global;

fn is_one_of(n: u16, terms: &[Term]) -> bool
    ensures { result ≡ term_stands n terms.now }
{
    for t in terms {
        if same_term(*t, Term::Univ(n)) {
            return true;
        }
    }
    false
}

/// Whether the universal variable is a side of the atom.
pub fn stands_in_pure(n: u16, atom: Pure) -> bool
    ensures { result ≡ pure_has n atom }
{
    match atom {
        Pure::Eq(t, u) | Pure::Neq(t, u) => {
            same_term(t, Term::Univ(n)) || same_term(u, Term::Univ(n))
        }
    }
}

/// Whether the universal variable is one of the atom's terms.
pub fn stands_in_spatial(n: u16, atom: &Spatial) -> bool
    ensures { result ≡ spatial_has n atom.now }
{
    match atom {
        Spatial::Cell(t, args) => same_term(*t, Term::Univ(n)) || is_one_of(n, args.as_slice()),
        Spatial::Pred(_, args) => is_one_of(n, args.as_slice()),
    }
}

fn some_pure_has(n: u16, atoms: &[Pure]) -> bool
    ensures { result ≡ list_any (pure_has n) atoms.now }
{
    for x in atoms {
        if stands_in_pure(n, *x) {
            return true;
        }
    }
    false
}

/// Whether the universal variable is a term of one of the atoms.
pub fn some_spatial_has(n: u16, atoms: &[Spatial]) -> bool
    ensures { result ≡ list_any (spatial_has n) atoms.now }
{
    for x in atoms {
        if stands_in_spatial(n, x) {
            return true;
        }
    }
    false
}

fn stands_in_heap(n: u16, heap: &Heap) -> bool
    ensures { result ≡ heap_has n heap.now }
{
    some_pure_has(n, heap.pure()) || some_spatial_has(n, heap.spatial())
}

fn some_heap_has(n: u16, heaps: &[Heap]) -> bool
    ensures { result ≡ list_any (heap_has n) heaps.now }
{
    for heap in heaps {
        if stands_in_heap(n, heap) {
            return true;
        }
    }
    false
}

fn stands_in(n: u16, judgement: &Judgement) -> bool
    ensures { result ≡ judgement_has n judgement.now }
{
    match judgement {
        Judgement::Entail(a, bs) => stands_in_heap(n, a) || some_heap_has(n, bs.heaps()),
        Judgement::Term(_, a) => stands_in_heap(n, a),
    }
}

/// The numbers of the judgement's universal variables, ascending.
pub fn universals(alloc: Global, judgement: &Judgement) -> Result<Vec<u16>, OutOfMemory>
    ensures { IfOk result (λ v. v.items ≡ universals_of judgement.now) }
{
    let mut all = Vec::new(alloc);
    let bound = bound_of_judgement(judgement);
    for n in 0..bound {
        if stands_in(n as u16, judgement) {
            all.push(n as u16)?;
        }
    }
    Ok(all)
}

/// The terms that a link may put for a variable: `nil`, then the bud's universal variables in ascending order.
pub fn values(alloc: Global, bud: &Judgement) -> Result<Vec<Term>, OutOfMemory>
    ensures { IfOk result (λ v. v.items ≡ values_of bud.now) }
{
    let mut all = Vec::new(alloc);
    all.push(Term::Nil)?;
    let numbers = universals(alloc, bud)?;
    for n in &numbers {
        all.push(Term::Univ(*n))?;
    }
    Ok(all)
}
