// The two kinds of spatial atoms.
ghost use Rattle.std.specs.Prelude.{◌≡◌};
ghost use Rattle.search_moves.specs.Kinds.{is_cell as is_cell_atom, is_predicate as is_predicate_atom};

use heap_formula::Spatial;

pub fn is_cell(atom: &Spatial) -> bool
    ensures { result ≡ is_cell_atom atom.now }
{
    matches!(atom, Spatial::Cell(_, _))
}

pub fn is_predicate(atom: &Spatial) -> bool
    ensures { result ≡ is_predicate_atom atom.now }
{
    matches!(atom, Spatial::Pred(_, _))
}
