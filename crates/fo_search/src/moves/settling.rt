// What a change tells of atoms, however many more terms are chosen.
ghost use Rattle.std.specs.Prelude.{◌≡◌, ◌≤◌, ◌||◌, IfOk, map};
ghost use Rattle.std.specs.List.{list_any, list_all};
ghost use Rattle.fo_formula.specs.Sizes.{atoms_size};
ghost use Rattle.fo_formula.specs.declared.atoms.FoAtom.{FoAtom as AtomValue};
ghost use Rattle.fo_rules.specs.Putting.{put};
ghost use Rattle.fo_formula.specs.Words.{in_atom};
ghost use Rattle.fo_formula.specs.Tests.{same_atom};
ghost use Rattle.fo_search.specs.After.{holds_by as atom_holds_by};
ghost use Rattle.fo_search.specs.Choosing.{has_pair as some_pair, settles as sign_settled};
ghost use Rattle.fo_search.specs.Choosing.{settles_word as word_settled, settles_atom as atom_settled};
ghost use Rattle.fo_search.specs.Choosing.{may_stand as atom_may_stand, may_hold as atom_may_hold};

use cyc_basics::limits::MOST_TERMS;
use cyc_basics::memory::OutOfMemory;
use fo_formula::{FoAtom, Sign, Term};
use fo_rules::parts::{Change, changed_atom, is_one_atom, is_one_term, size_of_changed_atom};
use std::alloc::Global;

fn has_pair(pairs: &[(u16, Term)], n: u16) -> bool
    ensures { result ≡ some_pair pairs.now n }
{
    for (from, _to) in pairs {
        if n == *from {
            return true;
        }
    }
    false
}

fn settles(change: &Change, sign: Sign) -> bool
    ensures { result ≡ sign_settled change.now sign }
{
    match change {
        Change::Instance { locals, .. } => match sign {
            Sign::Local(n) => (n as usize) < locals.as_slice().len(),
            Sign::Universal(_) | Sign::Constructor { .. } => true,
        },
        Change::Substitution(pairs) => match sign {
            Sign::Universal(n) => has_pair(pairs.as_slice(), n),
            Sign::Local(_) | Sign::Constructor { .. } => true,
        },
    }
}

fn settles_word(change: &Change, word: &[Sign]) -> bool
    ensures { result ≡ word_settled change.now word.now }
{
    for sign in word {
        if !settles(change, *sign) {
            return false;
        }
    }
    true
}

fn settles_words(change: &Change, words: &[Term]) -> bool
    ensures { result ≡ list_all (word_settled change.now) words.now }
{
    for word in words {
        if !settles_word(change, word.as_slice()) {
            return false;
        }
    }
    true
}

fn settles_atom(change: &Change, atom: &FoAtom) -> bool
    ensures { result ≡ atom_settled change.now atom.now }
{
    match atom {
        FoAtom::Equation { left, right } => {
            settles_word(change, left.as_slice()) && settles_word(change, right.as_slice())
        }
        FoAtom::Predicate { arguments, .. } => settles_words(change, arguments.as_slice()),
    }
}

fn is_among(atoms: &[FoAtom], atom: &FoAtom) -> bool
    ensures { result ≡ list_any (λ (y : AtomValue). same_atom y atom.now) atoms.now }
{
    for other in atoms {
        if is_one_atom(other, atom) {
            return true;
        }
    }
    false
}

/// Whether the atom, if it is settled, is after the change among these. One that is larger than all of them together is
/// not made.
fn may_stand(
    alloc: Global,
    change: &Change,
    atoms: &[FoAtom],
    atom: &FoAtom,
) -> Result<bool, OutOfMemory>
    requires { atoms_size atoms.now ≤ MOST_TERMS }
    ensures { IfOk result (λ b. b ≡ atom_may_stand change.now atoms.now atom.now) }
{
    if !settles_atom(change, atom) {
        return Ok(true);
    }
    if size_of_changed_atom(change, atom) > MOST_TERMS {
        return Ok(false);
    }
    let changed = changed_atom(alloc, change, atom)?;
    Ok(is_among(atoms, &changed))
}

/// Whether each atom that is settled stands, after the change, among others.
pub fn may_all_stand(
    alloc: Global,
    change: &Change,
    others: &[FoAtom],
    atoms: &[FoAtom],
) -> Result<bool, OutOfMemory>
    requires { atoms_size others.now ≤ MOST_TERMS }
    ensures { IfOk result (λ b. b ≡ list_all (atom_may_stand change.now others.now) atoms.now) }
{
    for atom in atoms {
        if !may_stand(alloc, change, others, atom)? {
            return Ok(false);
        }
    }
    Ok(true)
}

fn holds_by(left: &[FoAtom], atom: &FoAtom) -> bool
    ensures { result ≡ atom_holds_by left.now atom.now }
{
    match atom {
        FoAtom::Equation { left: a, right: b } => is_one_term(a, b) || has_atom(left, atom),
        FoAtom::Predicate { .. } => true,
    }
}

fn has_atom(atoms: &[FoAtom], atom: &FoAtom) -> bool
    ensures { result ≡ list_any (same_atom atom.now) atoms.now }
{
    for other in atoms {
        if is_one_atom(atom, other) {
            return true;
        }
    }
    false
}

fn holds_changed(
    alloc: Global,
    change: &Change,
    left: &[FoAtom],
    atom: &FoAtom,
) -> Result<bool, OutOfMemory>
    ensures { IfOk result (λ b. b ≡ atom_holds_by left.now (in_atom (put change.now) atom.now)) }
{
    let changed = changed_atom(alloc, change, atom)?;
    Ok(holds_by(left, &changed))
}

fn may_hold(
    alloc: Global,
    change: &Change,
    left: &[FoAtom],
    atom: &FoAtom,
) -> Result<bool, OutOfMemory>
    ensures { IfOk result (λ b. b ≡ atom_may_hold change.now left.now atom.now) }
{
    if !settles_atom(change, atom) {
        return Ok(true);
    }
    holds_changed(alloc, change, left, atom)
}

/// Whether each atom of a case that is settled holds by the left side after the change.
pub fn may_all_hold(
    alloc: Global,
    change: &Change,
    left: &[FoAtom],
    case: &[FoAtom],
) -> Result<bool, OutOfMemory>
    ensures { IfOk result (λ b. b ≡ list_all (atom_may_hold change.now left.now) case.now) }
{
    for atom in case {
        if !may_hold(alloc, change, left, atom)? {
            return Ok(false);
        }
    }
    Ok(true)
}

/// Whether each atom of a case holds by the left side after the change.
pub fn all_hold(
    alloc: Global,
    change: &Change,
    left: &[FoAtom],
    case: &[FoAtom],
) -> Result<bool, OutOfMemory>
    ensures { IfOk result (λ b. b ≡ list_all (atom_holds_by left.now) (map (in_atom (put change.now)) case.now)) }
{
    for atom in case {
        if !holds_changed(alloc, change, left, atom)? {
            return Ok(false);
        }
    }
    Ok(true)
}
