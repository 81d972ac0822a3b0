// Numbers of variables and applications, counted no further than 4,097.
ghost use Rattle.std.specs.Prelude.{◌≡◌, length, map};
ghost use Rattle.fo_formula.specs.Sizes.{words_size, atom_size, atoms_size, sequent_size};
ghost use Rattle.fo_formula.specs.Words.{replaced, in_atom};
ghost use Rattle.fo_rules.specs.Putting.{put};
ghost use Rattle.fo_rules.specs.Capping.{capped};

use crate::parts::changes::Change;
use cyc_basics::limits::PAST_MOST_TERMS;
use fo_formula::{FoAtom, FoSequent, Sign, Term};

/// The number of terms of these terms.
pub fn size_of_terms(terms: &[Term]) -> usize
    ensures { result ≡ capped (words_size terms.now) }
{
    let mut size = 0;
    for term in terms {
        size = (size + term.as_slice().len().min(PAST_MOST_TERMS)).min(PAST_MOST_TERMS);
    }
    size
}

/// The number of terms of an atom.
pub fn size_of_atom(atom: &FoAtom) -> usize
    ensures { result ≡ capped (atom_size atom.now) }
{
    match atom {
        FoAtom::Equation { left, right } => {
            let size = left.as_slice().len().min(PAST_MOST_TERMS);
            (size + right.as_slice().len().min(PAST_MOST_TERMS)).min(PAST_MOST_TERMS)
        }
        FoAtom::Predicate { arguments, .. } => size_of_terms(arguments.as_slice()),
    }
}

/// The number of terms of these atoms.
pub fn size_of_atoms(atoms: &[FoAtom]) -> usize
    ensures { result ≡ capped (atoms_size atoms.now) }
{
    let mut size = 0;
    for atom in atoms {
        size = (size + size_of_atom(atom)).min(PAST_MOST_TERMS);
    }
    size
}

/// The number of terms of a sequent.
pub fn size_of_sequent(sequent: &FoSequent) -> usize
    ensures { result ≡ capped (sequent_size sequent.now) }
{
    let left = size_of_atoms(sequent.left.as_slice());
    (left + size_of_atoms(sequent.right.as_slice())).min(PAST_MOST_TERMS)
}

fn size_of_image(change: &Change, sign: Sign) -> usize
    ensures { result ≡ capped (length (put change.now sign)) }
{
    match change.term_for(sign) {
        Some(term) => term.as_slice().len().min(PAST_MOST_TERMS),
        None => 1,
    }
}

fn size_of_changed_word(change: &Change, word: &[Sign]) -> usize
    ensures { result ≡ capped (length (replaced (put change.now) word.now)) }
{
    let mut size = 0;
    for sign in word {
        size = (size + size_of_image(change, *sign)).min(PAST_MOST_TERMS);
    }
    size
}

fn size_of_changed_terms(change: &Change, terms: &[Term]) -> usize
    ensures { result ≡ capped (words_size (map (replaced (put change.now)) terms.now)) }
{
    let mut size = 0;
    for term in terms {
        size = (size + size_of_changed_word(change, term.as_slice())).min(PAST_MOST_TERMS);
    }
    size
}

/// The number of terms of an atom after a change.
pub fn size_of_changed_atom(change: &Change, atom: &FoAtom) -> usize
    ensures { result ≡ capped (atom_size (in_atom (put change.now) atom.now)) }
{
    match atom {
        FoAtom::Equation { left, right } => {
            let size = size_of_changed_word(change, left.as_slice());
            (size + size_of_changed_word(change, right.as_slice())).min(PAST_MOST_TERMS)
        }
        FoAtom::Predicate { arguments, .. } => size_of_changed_terms(change, arguments.as_slice()),
    }
}

/// The number of terms of these atoms after a change.
pub fn size_of_changed_atoms(change: &Change, atoms: &[FoAtom]) -> usize
    ensures { result ≡ capped (atoms_size (map (in_atom (put change.now)) atoms.now)) }
{
    let mut size = 0;
    for atom in atoms {
        size = (size + size_of_changed_atom(change, atom)).min(PAST_MOST_TERMS);
    }
    size
}
