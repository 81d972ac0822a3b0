// A link by values for the companion's variables.
ghost use Rattle.std.specs.Prelude.{◌≡◌, ◌≤◌, ℕ, IfOk, length, map};
ghost use Rattle.std.specs.List.{zip};
ghost use Rattle.fo_formula.specs.Sizes.{words_size, sequent_size};
ghost use Rattle.fo_formula.specs.Words.{Word, in_atom};
ghost use Rattle.fo_rules.specs.Capping.{capped};
ghost use Rattle.fo_rules.specs.Putting.{put};
ghost use Rattle.fo_search.specs.Links.{least_place as place_in, is_fit as link_is_fit};
ghost use Rattle.fo_search.specs.Choosing.{link_with};

use crate::moves::wanted::LinkValues;
use cyc_basics::limits::{MOST_LEFT, MOST_RIGHT, MOST_TERMS, PAST_MOST_TERMS};
use cyc_basics::memory::OutOfMemory;
use fo_formula::{FoAtom, FoLink, FoSequent, FoSubst, Positions, Term};
use fo_rules::link_fault;
use fo_rules::parts::{Change, changed_atom, is_one_atom, is_small_with};
use std::alloc::Global;

/// Each source with the term at its place.
pub fn paired(alloc: Global, sources: &[u16], terms: &[Term]) -> Result<FoSubst, OutOfMemory>
    ensures { IfOk result (λ s. s ≡ zip sources.now terms.now) }
{
    let mut pairs = Vec::new(alloc);
    for (k, source) in sources.iter().enumerate() {
        if k >= terms.len() {
            break;
        }
        pairs.push((*source, terms[k].clone()?))?;
    }
    Ok(FoSubst::from_vec(pairs))
}

fn least_place(atoms: &[FoAtom], atom: &FoAtom) -> u32
    requires { length atoms.now ≤ MOST_LEFT }
    ensures { result ≡ place_in atoms.now atom.now }
{
    for (k, other) in atoms.iter().enumerate() {
        if is_one_atom(other, atom) {
            return k as u32;
        }
    }
    atoms.len() as u32
}

fn least_places(
    alloc: Global,
    change: &Change,
    others: &[FoAtom],
    atoms: &[FoAtom],
) -> Result<Positions, OutOfMemory>
    requires { length others.now ≤ MOST_LEFT }
    ensures { IfOk result (λ ps. ps ≡ map (λ x. place_in others.now (in_atom (put change.now) x)) atoms.now) }
{
    let mut places = Vec::new(alloc);
    for atom in atoms {
        let changed = changed_atom(alloc, change, atom)?;
        let place = least_place(others, &changed);
        drop(changed);
        places.push(place)?;
    }
    Ok(Positions::from_vec(places))
}

/// The link that puts these terms for the sources, each entry of its maps the least that fits.
pub fn link_by(alloc: Global, goal: &LinkValues<'_>, terms: &[Term]) -> Result<FoLink, OutOfMemory>
    requires left_fits { length goal.now.bud.now.left ≤ MOST_LEFT }
    requires right_fits { length goal.now.bud.now.right ≤ MOST_RIGHT }
    ensures { IfOk result (λ l. l ≡ link_with goal.now terms.now) }
{
    let bud = goal.bud;
    let companion = goal.companion;
    let left = companion.left.as_slice();
    let right = companion.right.as_slice();
    let change = Change::Substitution(paired(alloc, goal.sources, terms)?);
    let left_map = least_places(alloc, &change, bud.left.as_slice(), left)?;
    let right_map = least_places(alloc, &change, bud.right.as_slice(), right)?;
    drop(change);
    let substitution = paired(alloc, goal.sources, terms)?;
    Ok(FoLink {
        to: goal.number,
        substitution,
        left_map,
        right_map,
    })
}

fn size_of_values(pairs: &[(u16, Term)]) -> usize
    ensures { result ≡ capped (words_size (map (λ (pair : ℕ × Word). pair.1) pairs.now)) }
{
    let mut size = 0;
    for (_source, term) in pairs {
        size = (size + term.as_slice().len().min(PAST_MOST_TERMS)).min(PAST_MOST_TERMS);
    }
    size
}

/// Whether the link has no fault, and the bud with it at most 4,096 terms.
pub fn is_fit(
    alloc: Global,
    bud: &FoSequent,
    companion: &FoSequent,
    link: &FoLink,
) -> Result<bool, OutOfMemory>
    requires bud_small { sequent_size bud.now ≤ MOST_TERMS }
    requires left_few { length companion.now.left ≤ MOST_LEFT }
    requires right_few { length companion.now.right ≤ MOST_RIGHT }
    ensures { IfOk result (λ b. b ≡ link_is_fit bud.now companion.now link.now) }
{
    match link_fault(alloc, bud, companion, link)? {
        Some(_) => Ok(false),
        None => Ok(is_small_with(bud, size_of_values(link.substitution.as_slice()))),
    }
}
