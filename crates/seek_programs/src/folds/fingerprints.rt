// Numbers that tell most judgements apart.
use heap_formula::{Heap, Judgement, Pure, Spatial, Term};

/// The number of an atom of a kind with these terms, after what came before.
fn of_atom(sum: u32, kind: u32, terms: &[Term]) -> u32 {
    let mut sum = sum.wrapping_mul(31).wrapping_add(kind);
    for term in terms {
        let number = match *term {
            Term::Nil => 0,
            Term::Univ(n) => n as u32 * 2 + 1,
            Term::Exist(n) => n as u32 * 2 + 2,
        };
        sum = sum.wrapping_mul(31).wrapping_add(number);
    }
    sum
}

fn of_heap(sum: u32, heap: &Heap) -> u32 {
    let mut sum = of_atom(sum, 1, &[]);
    for atom in heap.pure() {
        sum = match *atom {
            Pure::Eq(t, u) => of_atom(sum, 2, &[t, u]),
            Pure::Neq(t, u) => of_atom(sum, 3, &[t, u]),
        };
    }
    for atom in heap.spatial() {
        sum = match atom {
            Spatial::Cell(t, args) => of_atom(of_atom(sum, 4, &[*t]), 5, args.as_slice()),
            Spatial::Pred(p, args) => of_atom(sum, *p as u32 + 6, args.as_slice()),
        };
    }
    sum
}

/// The same number for the same judgement.
pub fn fingerprint(judgement: &Judgement) -> u32 {
    match judgement {
        Judgement::Entail(a, bs) => {
            let mut sum = of_heap(9, a);
            for b in bs.heaps() {
                sum = of_heap(sum, b);
            }
            sum
        }
        Judgement::Term(line, a) => of_heap(*line, a),
    }
}
