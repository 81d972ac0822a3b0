//! Which universal variables stand in a judgement.
ghost use Rattle.std.specs.Prelude.{◌≡◌, ◌<◌, ℕ, IfOk, replicate, false};
ghost use Rattle.back_links.specs.Listing.{stands_in};
ghost use Rattle.proof_picture.specs.Kept.{flag};
ghost use Rattle.proof_picture.specs.Marks.{marked, marked_terms, marked_pure, marked_pures, marked_spatial};
ghost use Rattle.proof_picture.specs.Marks.{marked_spatials, marked_heap, marked_heaps, marked_judgement};

use cyc_basics::memory::OutOfMemory;
use heap_formula::{Heap, Judgement, Pure, Spatial, Term};
use std::alloc::Global;

/// Sets the flag of a universal variable, if there is one; the functions below do so for larger parts.
fn mark(flags: &mut [bool], term: Term)
    ensures { flags.new ≡ marked flags.old term }
{
    if let Term::Univ(n) = term {
        let n = usize::from(n);
        if n < flags.len() {
            flags[n] = true;
        }
    }
}

fn mark_terms(flags: &mut [bool], terms: &[Term])
    ensures { flags.new ≡ marked_terms flags.old terms.now }
{
    for term in terms {
        mark(flags, *term);
    }
}

fn mark_pure(flags: &mut [bool], atom: Pure)
    ensures { flags.new ≡ marked_pure flags.old atom }
{
    match atom {
        Pure::Eq(t, u) | Pure::Neq(t, u) => {
            mark(flags, t);
            mark(flags, u);
        }
    }
}

fn mark_pures(flags: &mut [bool], atoms: &[Pure])
    ensures { flags.new ≡ marked_pures flags.old atoms.now }
{
    for atom in atoms {
        mark_pure(flags, *atom);
    }
}

fn mark_spatial(flags: &mut [bool], atom: &Spatial)
    ensures { flags.new ≡ marked_spatial flags.old atom.now }
{
    match atom {
        Spatial::Cell(t, args) => {
            mark(flags, *t);
            mark_terms(flags, args.as_slice());
        }
        Spatial::Pred(_, args) => mark_terms(flags, args.as_slice()),
    }
}

fn mark_spatials(flags: &mut [bool], atoms: &[Spatial])
    ensures { flags.new ≡ marked_spatials flags.old atoms.now }
{
    for atom in atoms {
        mark_spatial(flags, atom);
    }
}

fn mark_heap(flags: &mut [bool], heap: &Heap)
    ensures { flags.new ≡ marked_heap flags.old heap.now }
{
    mark_pures(flags, heap.pure());
    mark_spatials(flags, heap.spatial());
}

fn mark_heaps(flags: &mut [bool], heaps: &[Heap])
    ensures { flags.new ≡ marked_heaps flags.old heaps.now }
{
    for heap in heaps {
        mark_heap(flags, heap);
    }
}

fn mark_judgement(flags: &mut [bool], judgement: &Judgement)
    ensures { flags.new ≡ marked_judgement flags.old judgement.now }
{
    match judgement {
        Judgement::Entail(a, bs) => {
            mark_heap(flags, a);
            mark_heaps(flags, bs.heaps());
        }
        Judgement::Term(_, a) => mark_heap(flags, a),
    }
}

fn marks_of(alloc: Global, count: usize, judgement: &Judgement) -> Result<Vec<bool>, OutOfMemory>
    ensures { IfOk result (λ f. f.items ≡ marked_judgement (replicate count false) judgement.now) }
{
    let mut flags = vec![in alloc; false; count]?;
    mark_judgement(flags.as_mut_slice(), judgement);
    Ok(flags)
}

/// For each of so many variables, whether it stands in the judgement.
pub fn marks(alloc: Global, count: usize, judgement: &Judgement) -> Result<Vec<bool>, OutOfMemory>
    ensures { IfOk result (λ f. (n : ℕ) → n < count → flag f.items n ≡ stands_in n judgement.now) }
{
    marks_of(alloc, count, judgement)
}
