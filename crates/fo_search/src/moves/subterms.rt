// The subterms of a sequent.
ghost use Rattle.std.specs.Prelude.{◌≡◌, ◌∷◌, [], IfOk, OnOk};
ghost use Rattle.std.specs.List.{list_any, flat_map};
ghost use Rattle.fo_formula.specs.Words.{first_term};
ghost use Rattle.fo_formula.specs.Tests.{same_word};
ghost use Rattle.fo_search.specs.Subterms.{terms_of_atom, parts_of, once, subterms as subterms_of, parts_of_atoms};

use cyc_basics::memory::OutOfMemory;
use fo_formula::{FoAtom, FoSequent, Sign, Term};
use fo_rules::first_of;
use std::alloc::Global;

fn is_among(words: &[Term], word: &[Sign]) -> bool
    ensures { result ≡ list_any (same_word word.now) words.now }
{
    for other in words {
        if word == other.as_slice() {
            return true;
        }
    }
    false
}

/// Adds the first term of a word, if it is new.
fn push_first(alloc: Global, word: &[Sign], words: &mut Vec<Term>) -> Result<(), OutOfMemory>
    ensures { OnOk result (words.new.items ≡ once words.old.items (first_term word.now ∷ [])) }
{
    let first = first_of(word);
    if !is_among(words, first) {
        words.push(Term::from_vec(Vec::from_slice(alloc, first)?))?;
    }
    Ok(())
}

fn push_parts(alloc: Global, word: &[Sign], words: &mut Vec<Term>) -> Result<(), OutOfMemory>
    ensures { OnOk result (words.new.items ≡ once words.old.items (parts_of word.now)) }
{
    for k in 0..word.len() {
        push_first(alloc, &word[k..], words)?;
    }
    Ok(())
}

fn push_parts_of_terms(
    alloc: Global,
    terms: &[Term],
    words: &mut Vec<Term>,
) -> Result<(), OutOfMemory>
    ensures { OnOk result (words.new.items ≡ once words.old.items (flat_map parts_of terms.now)) }
{
    for term in terms {
        push_parts(alloc, term.as_slice(), words)?;
    }
    Ok(())
}

fn push_parts_of_atom(
    alloc: Global,
    atom: &FoAtom,
    words: &mut Vec<Term>,
) -> Result<(), OutOfMemory>
    ensures { OnOk result (words.new.items ≡ once words.old.items (flat_map parts_of (terms_of_atom atom.now))) }
{
    match atom {
        FoAtom::Equation { left, right } => {
            push_parts(alloc, left.as_slice(), words)?;
            push_parts(alloc, right.as_slice(), words)
        }
        FoAtom::Predicate { arguments, .. } => {
            push_parts_of_terms(alloc, arguments.as_slice(), words)
        }
    }
}

fn push_parts_of_atoms(
    alloc: Global,
    atoms: &[FoAtom],
    words: &mut Vec<Term>,
) -> Result<(), OutOfMemory>
    ensures { OnOk result (words.new.items ≡ once words.old.items (parts_of_atoms atoms.now)) }
{
    for atom in atoms {
        push_parts_of_atom(alloc, atom, words)?;
    }
    Ok(())
}

/// The subterms of a sequent, each once, in the order in which they first begin.
pub fn subterms(alloc: Global, sequent: &FoSequent) -> Result<Vec<Term>, OutOfMemory>
    ensures { IfOk result (λ v. v.items ≡ subterms_of sequent.now) }
{
    let mut words = Vec::new(alloc);
    push_parts_of_atoms(alloc, sequent.left.as_slice(), &mut words)?;
    push_parts_of_atoms(alloc, sequent.right.as_slice(), &mut words)?;
    Ok(words)
}
