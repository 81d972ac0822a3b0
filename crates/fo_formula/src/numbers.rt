// The greatest numbers of variables and of locals.
ghost use Rattle.std.specs.Prelude.{◌≡◌, ◌≤◌, max};
ghost use Rattle.fo_formula.specs.Bounds.{sign_bound, word_bound, words_bound, atom_bound, atoms_bound, sequent_bound};

use crate::atoms::FoAtom;
use crate::sequents::FoSequent;
use crate::terms::{Sign, Term};

/// Which signs are asked for.
#[derive(Clone, Copy)]
pub enum Kind {
    Variables,
    Locals,
}

fn bound_of_sign(kind: Kind, sign: Sign) -> u32
    ensures value { result ≡ sign_bound kind sign }
    ensures fits { result ≤ 65536 }
{
    match kind {
        Kind::Variables => match sign {
            Sign::Universal(n) => n as u32 + 1,
            Sign::Local(_) | Sign::Constructor { .. } => 0,
        },
        Kind::Locals => match sign {
            Sign::Local(n) => n as u32 + 1,
            Sign::Universal(_) | Sign::Constructor { .. } => 0,
        },
    }
}

fn bound_of_signs(kind: Kind, signs: &[Sign]) -> u32
    ensures value { result ≡ word_bound kind signs.now }
    ensures fits { result ≤ 65536 }
{
    let mut most = 0;
    for sign in signs {
        most = most.max(bound_of_sign(kind, *sign));
    }
    most
}

fn bound_of_terms(kind: Kind, terms: &[Term]) -> u32
    ensures value { result ≡ words_bound kind terms.now }
    ensures fits { result ≤ 65536 }
{
    let mut most = 0;
    for term in terms {
        most = most.max(bound_of_signs(kind, term.as_slice()));
    }
    most
}

fn bound_of_atom(kind: Kind, atom: &FoAtom) -> u32
    ensures value { result ≡ atom_bound kind atom.now }
    ensures fits { result ≤ 65536 }
{
    match atom {
        FoAtom::Equation { left, right } => {
            bound_of_signs(kind, left.as_slice()).max(bound_of_signs(kind, right.as_slice()))
        }
        FoAtom::Predicate { arguments, .. } => bound_of_terms(kind, arguments.as_slice()),
    }
}

/// 1 plus the greatest number of this kind in the atoms, 0 if there is none.
pub fn bound_of_atoms(kind: Kind, atoms: &[FoAtom]) -> u32
    ensures value { result ≡ atoms_bound kind atoms.now }
    ensures fits { result ≤ 65536 }
{
    let mut most = 0;
    for atom in atoms {
        most = most.max(bound_of_atom(kind, atom));
    }
    most
}

/// The least number above every variable of the sequent.
pub fn bound_of_sequent(sequent: &FoSequent) -> u32
    ensures value { result ≡ sequent_bound sequent.now }
    ensures fits { result ≤ 65536 }
{
    let left = bound_of_atoms(Kind::Variables, sequent.left.as_slice());
    left.max(bound_of_atoms(Kind::Variables, sequent.right.as_slice()))
}
