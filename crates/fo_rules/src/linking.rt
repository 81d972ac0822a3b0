// Links from buds to companions.
ghost use Rattle.std.specs.Prelude.{◌≡◌, ◌<◌, ◌≤◌, ◌^◌, ℕ, length, map, slice_get, slice_index, IfOk};
ghost use Rattle.fo_formula.specs.Sizes.{atoms_size};
ghost use Rattle.fo_formula.specs.Words.{in_atom};
ghost use Rattle.fo_formula.specs.Answered.{IsAnswer};
ghost use Rattle.fo_formula.specs.LinkTable.{is_atom, map_place as place_of, link_fault as fault_of_link};
ghost use Rattle.fo_formula.specs.LinkTable.{link_premise as premise_of};
ghost use Rattle.fo_formula.specs.Traces.{pairs_from};
ghost use Rattle.fo_rules.specs.Putting.{put};
ghost use Rattle.fo_rules.specs.declared.parts.changes.Change.TheVariants.{Substitution};
ghost use Rattle.fo_rules.specs.Answers.{right_link_fault, companion_answer};

use crate::parts::{Change, atom_at, changed_atom, is_one_atom, one_premise, size_of_changed_atom};
use cyc_basics::limits::{MOST_LEFT, MOST_RIGHT, MOST_TERMS};
use cyc_basics::memory::OutOfMemory;
use fo_formula::table::{FoFault, FoPremise, FoRuleError};
use fo_formula::{FoAtom, FoLink, FoSequent, Pair, Pairs};
use std::alloc::Global;

/// Whether the bud has, at a position, the companion's atom after the change.
fn names(
    alloc: Global,
    change: &Change,
    atom: &FoAtom,
    bud: &[FoAtom],
    m: u32,
) -> Result<bool, OutOfMemory>
    requires { atoms_size bud.now ≤ MOST_TERMS }
    ensures { IfOk result (λ b. b ≡ is_atom (in_atom (put change.now) atom.now) (slice_get bud.now m)) }
{
    let Some(there) = atom_at(bud, m) else {
        return Ok(false);
    };
    if size_of_changed_atom(change, atom) > MOST_TERMS {
        return Ok(false);
    }
    let changed = changed_atom(alloc, change, atom)?;
    Ok(is_one_atom(there, &changed))
}

/// The least place where a map has no entry or one that does not name the companion's atom after the change; else the
/// number of atoms if the map is longer.
fn map_place(
    alloc: Global,
    change: &Change,
    bud: &[FoAtom],
    entries: &[u32],
    atoms: &[FoAtom],
) -> Result<Option<u32>, OutOfMemory>
    requires small { atoms_size bud.now ≤ MOST_TERMS }
    requires few { length atoms.now < 2 ^ 32 }
    ensures { IfOk result (λ o. o ≡ place_of bud.now 0 entries.now (map (in_atom (put change.now)) atoms.now)) }
{
    for (k, atom) in atoms.iter().enumerate() {
        if k >= entries.len() {
            return Ok(Some(k as u32));
        }
        if !names(alloc, change, atom, bud, entries[k])? {
            return Ok(Some(k as u32));
        }
    }
    if entries.len() > atoms.len() {
        return Ok(Some(atoms.len() as u32));
    }
    Ok(None)
}

fn substitution(link: &FoLink) -> Result<Change, OutOfMemory>
    ensures { IfOk result (λ c. c ≡ Substitution link.now.substitution) }
{
    let pairs = link.substitution.clone()?;
    Ok(Change::Substitution(pairs))
}

fn right_fault(
    alloc: Global,
    bud: &FoSequent,
    companion: &FoSequent,
    link: &FoLink,
    change: &Change,
) -> Result<Option<FoFault>, OutOfMemory>
    requires change { change.now ≡ Substitution link.now.substitution }
    requires small { atoms_size bud.now.right ≤ MOST_TERMS }
    requires few { length companion.now.right ≤ MOST_RIGHT }
    ensures { IfOk result (λ o. o ≡ right_link_fault bud.now companion.now link.now) }
{
    let entries = link.right_map.as_slice();
    let atoms = companion.right.as_slice();
    match map_place(alloc, change, bud.right.as_slice(), entries, atoms)? {
        Some(k) => Ok(Some(FoFault::LinkRight(k))),
        None => Ok(None),
    }
}

/// The first fault of a link from a bud to its companion. `LinkLeft` and `LinkRight` carry the place of the companion's
/// atom that has no match.
pub fn link_fault(
    alloc: Global,
    bud: &FoSequent,
    companion: &FoSequent,
    link: &FoLink,
) -> Result<Option<FoFault>, OutOfMemory>
    requires left_small { atoms_size bud.now.left ≤ MOST_TERMS }
    requires right_small { atoms_size bud.now.right ≤ MOST_TERMS }
    requires left_few { length companion.now.left ≤ MOST_LEFT }
    requires right_few { length companion.now.right ≤ MOST_RIGHT }
    ensures { IfOk result (λ o. o ≡ fault_of_link bud.now companion.now link.now) }
{
    let change = substitution(link)?;
    let entries = link.left_map.as_slice();
    let atoms = companion.left.as_slice();
    match map_place(alloc, &change, bud.left.as_slice(), entries, atoms)? {
        Some(k) => Ok(Some(FoFault::LinkLeft(k))),
        None => right_fault(alloc, bud, companion, link, &change),
    }
}

fn entry_at(entries: &[u32], k: usize) -> u8
    requires { (j : ℕ) → slice_index entries.now j < 256 }
    ensures { result ≡ slice_index entries.now k }
{
    if k < entries.len() {
        entries[k] as u8
    } else {
        0
    }
}

/// The map's entry for each predicate atom of the companion.
fn link_pairs(alloc: Global, entries: &[u32], atoms: &[FoAtom]) -> Result<Pairs, OutOfMemory>
    requires few { length atoms.now ≤ MOST_LEFT }
    requires small { (j : ℕ) → slice_index entries.now j < 256 }
    ensures { IfOk result (λ p. p ≡ pairs_from (slice_index entries.now) 0 atoms.now) }
{
    let mut pairs = Pairs::new(alloc);
    for (k, atom) in atoms.iter().enumerate() {
        if let FoAtom::Predicate { .. } = atom {
            pairs.push(Pair {
                old: entry_at(entries, k),
                new: k as u8,
                progress: false,
            })?;
        }
    }
    Ok(pairs)
}

fn link_premise(
    alloc: Global,
    companion: &FoSequent,
    link: &FoLink,
) -> Result<FoPremise, OutOfMemory>
    requires few { length companion.now.left ≤ MOST_LEFT }
    requires small { (j : ℕ) → slice_index link.now.left_map j < 256 }
    ensures { IfOk result (λ p. p ≡ premise_of companion.now link.now) }
{
    let pairs = link_pairs(alloc, link.left_map.as_slice(), companion.left.as_slice())?;
    let sequent = companion.clone()?;
    Ok(FoPremise { sequent, pairs })
}

/// The companion of a link, with the pairs from the bud's atoms that the map names, or the first fault.
pub fn premises_by_link(
    alloc: Global,
    bud: &FoSequent,
    companion: &FoSequent,
    link: &FoLink,
) -> Result<Vec<FoPremise>, FoRuleError>
    requires left_small { atoms_size bud.now.left ≤ MOST_TERMS }
    requires right_small { atoms_size bud.now.right ≤ MOST_TERMS }
    requires bud_few { length bud.now.left ≤ MOST_LEFT }
    requires left_few { length companion.now.left ≤ MOST_LEFT }
    requires right_few { length companion.now.right ≤ MOST_RIGHT }
    ensures { IsAnswer result (companion_answer bud.now companion.now link.now) }
{
    let fault = link_fault(alloc, bud, companion, link)?;
    match fault {
        Some(fault) => Err(FoRuleError::Fault(fault)),
        None => {
            let premise = link_premise(alloc, companion, link)?;
            Ok(one_premise(alloc, premise)?)
        }
    }
}
