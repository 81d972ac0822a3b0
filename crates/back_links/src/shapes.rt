// The shapes of spatial atoms, which no substitution changes.
ghost use Rattle.std.specs.Prelude.{◌≡◌, count_by};
ghost use Rattle.std.specs.List.{list_all};
ghost use Rattle.back_links.specs.Shapes.{same_shape as of_one_shape, has_as_many as of_one_has_as_many};
ghost use Rattle.back_links.specs.Shapes.{has_shapes as list_has_shapes, same_shapes as of_same_shapes};
ghost use Rattle.back_links.specs.Shapes.{some_has_shapes as some_list_has};

use heap_formula::{Heap, Spatial};

fn same_shape(x: &Spatial, y: &Spatial) -> bool
    ensures { result ≡ of_one_shape x.now y.now }
{
    match (x, y) {
        (Spatial::Cell(_, ts), Spatial::Cell(_, us)) => ts.len() == us.len(),
        (Spatial::Pred(p, ts), Spatial::Pred(q, us)) => *p == *q && ts.len() == us.len(),
        _ => false,
    }
}

/// How many atoms of the list have the atom's shape.
fn count_of_shape(x: &Spatial, atoms: &[Spatial]) -> usize
    ensures { result ≡ count_by (of_one_shape x.now) atoms.now }
{
    atoms.iter().filter(|y| same_shape(x, y)).count()
}

#[tactic(auto, unfolding(crate::specs::Shapes::has_as_many))]
fn has_as_many(atoms: &[Spatial], xs: &[Spatial], x: &Spatial) -> bool
    ensures { result ≡ of_one_has_as_many atoms.now xs.now x.now }
{
    count_of_shape(x, xs) <= count_of_shape(x, atoms)
}

/// Whether of each shape the first list has as many atoms as the second, or more.
pub fn has_shapes(atoms: &[Spatial], xs: &[Spatial]) -> bool
    ensures { result ≡ list_has_shapes atoms.now xs.now }
{
    for x in xs {
        if !has_as_many(atoms, xs, x) {
            return false;
        }
    }
    true
}

/// Whether of each shape both lists have equally many atoms.
pub fn same_shapes(atoms: &[Spatial], xs: &[Spatial]) -> bool
    ensures { result ≡ of_same_shapes atoms.now xs.now }
{
    atoms.len() == xs.len() && has_shapes(atoms, xs)
}

fn some_has_shapes(heaps: &[Heap], c: &Heap) -> bool
    ensures { result ≡ some_list_has heaps.now c.now }
{
    for b in heaps {
        if same_shapes(b.spatial(), c.spatial()) {
            return true;
        }
    }
    false
}

/// Whether each heap of the second list has atoms of the shapes that some heap of the first has.
pub fn all_have_shapes(heaps: &[Heap], cs: &[Heap]) -> bool
    ensures { result ≡ list_all (some_list_has heaps.now) cs.now }
{
    for c in cs {
        if !some_has_shapes(heaps, c) {
            return false;
        }
    }
    true
}
