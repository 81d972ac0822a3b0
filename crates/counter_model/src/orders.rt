// The order of heaps and of stacks.
ghost use Rattle.std.specs.Prelude.{◌≡◌};
ghost use Rattle.std.specs.Ordering.{nat_cmp};
ghost use Rattle.std.specs.Cmp.Lexicographic.{slice_cmp};
ghost use Rattle.heap_formula.specs.Cells.{cell_at};
ghost use Rattle.counter_model.specs.Sizes.{fields_cmp, cell_cmp, heap_cmp};

use goto_lang::Cells;
use std::cmp::Ordering;

pub fn compare_lists(a: &[u64], b: &[u64]) -> Ordering
    ensures { result ≡ slice_cmp nat_cmp a.now b.now }
{
    a.cmp(b)
}

fn compare_fields(a: &[u64], b: &[u64]) -> Ordering
    ensures { result ≡ fields_cmp a.now b.now }
{
    match a.len().cmp(&b.len()) {
        Ordering::Less => Ordering::Less,
        Ordering::Greater => Ordering::Greater,
        Ordering::Equal => compare_lists(a, b),
    }
}

fn compare_cells(x: &Cells, y: &Cells, address: u64) -> Ordering
    ensures { result ≡ cell_cmp (cell_at x.now address) (cell_at y.now address) }
{
    match x.get(address) {
        None => match y.get(address) {
            None => Ordering::Equal,
            Some(_) => Ordering::Less,
        },
        Some(a) => match y.get(address) {
            None => Ordering::Greater,
            Some(b) => compare_fields(a, b),
        },
    }
}

/// Compares what stands at the addresses from 1 to the greatest, the lowest first: a missing cell before any other,
/// then by the number of fields, then by the fields.
pub fn compare_heaps(greatest: u32, x: &Cells, y: &Cells) -> Ordering
    ensures { result ≡ heap_cmp greatest x.now y.now }
{
    for address in 1..greatest as u64 + 1 {
        match compare_cells(x, y, address) {
            Ordering::Less => return Ordering::Less,
            Ordering::Greater => return Ordering::Greater,
            Ordering::Equal => {}
        }
    }
    Ordering::Equal
}
