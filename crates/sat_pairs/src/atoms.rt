// The base pairs of atoms.
ghost use Rattle.std.specs.Prelude.{◌≡◌, ◌↔◌, IsTrue};
ghost use Rattle.sat_pairs.specs.Atoms.{HasSome, atom_pairs};

use crate::tables::Table;
use heap_formula::Spatial;
use pair_family::states::Known;

/// The base pairs of an atom; a cell's is `cell`.
pub fn pairs_of_atom<'a>(table: &'a Table, cell: &'a [Known], atom: &Spatial) -> &'a [Known]
    ensures { result.now ≡ atom_pairs table.now cell.now atom.now }
{
    match *atom {
        Spatial::Cell(_, _) => cell,
        Spatial::Pred(q, _) => table.pairs(q),
    }
}

/// Whether each atom has some base pair.
pub fn have_some(table: &Table, cell: &[Known], atoms: &[Spatial]) -> bool
    ensures { IsTrue result ↔ HasSome table.now cell.now atoms.now }
{
    for atom in atoms {
        if pairs_of_atom(table, cell, atom).is_empty() {
            return false;
        }
    }
    true
}
