//! Which atoms stand out: those from which a trace leads on over a link.
ghost use Rattle.std.specs.Prelude.{◌≡◌, ◌<◌, map, IfOk};
ghost use Rattle.proof_picture.specs.Arrows.{drawn_of, row_of};
ghost use Rattle.proof_picture.specs.Carried.{flag_at as flag_in, flags_of, flags_to, goes_over, is_carried as carries};
ghost use Rattle.proof_picture.specs.Carried.{table};

use crate::arrows::{Arrow, Row};
use cyc_basics::memory::OutOfMemory;
use std::alloc::Global;
use std::collections::VecDeque;

/// Whether an atom of the node with number `target` stands out, where the flags of the nodes after `v` are known.
fn flag_at(behind: &VecDeque<Vec<bool>>, v: usize, target: usize, atom: usize) -> bool
    ensures { result ≡ flag_in (map flags_of behind.now.items) v target atom }
{
    if target <= v {
        return false;
    }
    let Some(flags) = behind.get(target - v - 1) else {
        return false;
    };
    match flags.get(atom) {
        Some(flag) => *flag,
        None => false,
    }
}

/// Whether a trace from an atom of node `v` follows the edge to a link.
fn goes_along(behind: &VecDeque<Vec<bool>>, v: usize, arrow: &Arrow, atom: usize) -> bool
    ensures { result ≡ goes_over (map flags_of behind.now.items) v (drawn_of arrow.now) atom }
{
    for pair in arrow.pairs.as_slice() {
        if usize::from(pair.old) == atom
            && (arrow.is_link || flag_at(behind, v, arrow.target as usize, usize::from(pair.new)))
        {
            return true;
        }
    }
    false
}

fn is_carried(behind: &VecDeque<Vec<bool>>, v: usize, arrows: &[Arrow], atom: usize) -> bool
    ensures { result ≡ carries (map flags_of behind.now.items) v (map drawn_of arrows.now) atom }
{
    for arrow in arrows {
        if goes_along(behind, v, arrow, atom) {
            return true;
        }
    }
    false
}

/// The flags of the atoms of node `v`.
fn flags_at(
    alloc: Global,
    behind: &VecDeque<Vec<bool>>,
    v: usize,
    row: &Row,
) -> Result<Vec<bool>, OutOfMemory>
    ensures { IfOk result (λ f. f.items
        ≡ flags_to (carries (map flags_of behind.now.items) v (row_of row.now).arrows) row.now.atoms) }
{
    let mut flags = Vec::new(alloc);
    for atom in 0..row.atoms {
        flags.push(is_carried(behind, v, &row.arrows, atom))?;
    }
    Ok(flags)
}

/// For each node, and each spatial atom of its antecedent, whether a trace from it leads on over a link. The nodes are
/// gone through from the last on, since a trace reaches a link along edges to greater numbers.
pub fn atoms_carried(alloc: Global, rows: &[Row]) -> Result<VecDeque<Vec<bool>>, OutOfMemory>
    ensures { IfOk result (λ d. map flags_of d.items ≡ table 0 (map row_of rows.now)) }
{
    let mut behind = VecDeque::new(alloc);
    for done in 0..rows.len() {
        let v = rows.len() - 1 - done;
        let flags = flags_at(alloc, &behind, v, &rows[v])?;
        behind.push_front(flags)?;
    }
    Ok(behind)
}
