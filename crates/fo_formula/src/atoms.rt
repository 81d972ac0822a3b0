// Atoms of first-order logic.
ghost use Rattle.std.specs.Prelude.{◌≡◌, ◌↔◌, IsTrue};

use crate::terms::{Term, Terms};
use std::alloc::AllocError;
use std::marker::Model;

/// An atom: two terms have one value; or a predicate, with its number in the order of the definitions (from 0), holds
/// of its arguments.
#[derive(PartialEq, Drop)]
pub enum FoAtom {
    Equation { left: Term, right: Term },
    Predicate { predicate: u16, arguments: Terms },
}

impl Clone for FoAtom {
    ghost is_clone = { λ atom copy. copy ≡ atom };

    fn clone(&self) -> Result<FoAtom, AllocError> {
        match self {
            FoAtom::Equation { left, right } => {
                let left = left.clone()?;
                let right = right.clone()?;
                Ok(FoAtom::Equation { left, right })
            }
            FoAtom::Predicate {
                predicate,
                arguments,
            } => {
                let arguments = arguments.clone()?;
                Ok(FoAtom::Predicate {
                    predicate: *predicate,
                    arguments,
                })
            }
        }
    }
}

/// Atoms in order: a side of a sequent, or a case of a definition. Positions count from 0.
#[derive(Drop)]
pub struct FoAtoms {
    atoms: Vec<FoAtom>,
}

impl Model for FoAtoms {
    ghost use Rattle.std.specs.Prelude.{List};
    ghost use Rattle.fo_formula.specs.declared.atoms.FoAtom.{FoAtom};

    ghost Value = { List FoAtom };

    ghost view = { λ x. x.atoms.items };
}

impl Clone for FoAtoms {
    ghost is_clone = { λ from copy. copy ≡ from };

    fn clone(&self) -> Result<FoAtoms, AllocError> {
        let atoms = self.atoms.clone()?;
        Ok(FoAtoms { atoms })
    }
}

impl PartialEq for FoAtoms {
    ghost use Rattle.std.specs.Prelude.{◌≡◌, ◌↔◌, IsTrue};
    ghost use Rattle.std.specs.Cmp.Lexicographic.{pointwise, lists_per};
    ghost use Rattle.fo_formula.specs.contracts.atoms.FoAtomPartialEq.TheImpl.Laws.{laws-law};

    ghost eq = { pointwise ⟦<FoAtom as PartialEq>⟧.eq };

    ghost laws = { lists_per laws-law };

    fn eq(&self, other: &FoAtoms) -> bool
        ensures value { result ≡ pointwise ⟦<FoAtom as PartialEq>⟧.eq self.now other.now }
        ensures exact { IsTrue result ↔ (self.now ≡ other.now) }
    {
        self.atoms == other.atoms
    }
}

impl FoAtoms {
    /// These atoms in this order, without a copy.
    pub fn from_vec(atoms: Vec<FoAtom>) -> FoAtoms
        ensures { result ≡ atoms.items }
    {
        FoAtoms { atoms }
    }

    /// The atoms in order, without a copy.
    pub fn into_vec(self) -> Vec<FoAtom>
        ensures { result.items ≡ self }
    {
        self.atoms
    }

    /// The atoms in order.
    pub fn as_slice(&self) -> &[FoAtom]
        ensures { result.now ≡ self.now }
    {
        &self.atoms
    }
}

/// Whether two atoms are one as they stand.
pub fn is_same_atom(a: &FoAtom, b: &FoAtom) -> bool
    ensures { IsTrue result ↔ (a.now ≡ b.now) }
{
    *a == *b
}
