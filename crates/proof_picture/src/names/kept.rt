//! Which names of a goal each node of a proof of it shows.
ghost use Rattle.std.specs.Prelude.{◌≡◌, IfOk, OnOk, map, true};
ghost use Rattle.proof_picture.specs.Arrows.{drawn_of, row_of};
ghost use Rattle.proof_picture.specs.Carried.{flags_of, flags_to};
ghost use Rattle.proof_picture.specs.Labels.{flags_at as flags_of_node};
ghost use Rattle.proof_picture.specs.Kept.{both as both_of, come as come_to, come_all as all_come};
ghost use Rattle.proof_picture.specs.Kept.{first_ways as ways_at_first, flag as flag_of};
ghost use Rattle.proof_picture.specs.Kept.{is_program_variable as is_programs, kept as kept_by};
ghost use Rattle.proof_picture.specs.Kept.{kept_names as names_kept, leads_on as leads};

use crate::names::marks::marks;
use crate::{Arrow, Row};
use cyc_basics::memory::OutOfMemory;
use heap_formula::Judgement;
use proof_file::{FileNode, ProofFile};
use std::alloc::Global;

/// The flag of a name, none past the end.
pub fn flag(flags: &[bool], n: usize) -> bool
    ensures { result ≡ flag_of flags.now n }
{
    match flags.get(n) {
        Some(flag) => *flag,
        None => false,
    }
}

fn is_program_variable(p: u16, judgement: &Judgement, n: usize) -> bool
    ensures { result ≡ is_programs p judgement.now n }
{
    match judgement {
        Judgement::Entail(_, _) => false,
        Judgement::Term(_, _) => n < usize::from(p),
    }
}

/// What a node shows to which these names came.
fn kept(
    alloc: Global,
    count: usize,
    p: u16,
    came: &[bool],
    judgement: &Judgement,
) -> Result<Vec<bool>, OutOfMemory>
    ensures { IfOk result (λ f. f.items ≡ kept_by count p came.now judgement.now) }
{
    let stands = marks(alloc, count, judgement)?;
    let mut flags = Vec::new(alloc);
    for n in 0..count {
        let stands = flag(stands.as_slice(), n);
        flags.push(is_program_variable(p, judgement, n) || (flag(came, n) && stands))?;
    }
    Ok(flags)
}

fn all(alloc: Global, count: usize) -> Result<Vec<bool>, OutOfMemory>
    ensures { IfOk result (λ f. f.items ≡ flags_to (λ n. true) count) }
{
    let mut flags = Vec::new(alloc);
    for _n in 0..count {
        flags.push(true)?;
    }
    Ok(flags)
}

/// The names that came before, and now too.
fn both(
    alloc: Global,
    count: usize,
    before: &[bool],
    now: &[bool],
) -> Result<Vec<bool>, OutOfMemory>
    ensures { IfOk result (λ f. f.items ≡ both_of count before.now now.now) }
{
    if before.is_empty() {
        return Ok(Vec::from_slice(alloc, now)?);
    }
    let mut flags = Vec::new(alloc);
    for n in 0..count {
        flags.push(flag(before, n) && flag(now, n))?;
    }
    Ok(flags)
}

/// Whether an edge of node `v` leads to a premise that its reason leaves, at a node after it.
fn leads_on(v: usize, premises: usize, arrow: &Arrow) -> bool
    ensures { result ≡ leads v premises (drawn_of arrow.now) }
{
    !arrow.is_link && arrow.place < premises && v < arrow.target as usize
}

/// These names come to a node.
fn come(
    alloc: Global,
    count: usize,
    ways: &mut [Vec<bool>],
    target: usize,
    names: &[bool],
) -> Result<(), OutOfMemory>
    ensures { OnOk result (map flags_of ways.new ≡ come_to count (map flags_of ways.old) target names.now) }
{
    if target < ways.len() {
        let next = both(alloc, count, ways[target].as_slice(), names)?;
        ways[target] = next;
    }
    Ok(())
}

/// What node `v` shows comes to the nodes of its premises.
fn come_all(
    alloc: Global,
    count: usize,
    v: usize,
    row: &Row,
    ways: &mut [Vec<bool>],
    names: &[bool],
) -> Result<(), OutOfMemory>
    ensures { OnOk result (map flags_of ways.new
        ≡ all_come count v (row_of row.now).premises names.now (map flags_of ways.old) (row_of row.now).arrows) }
{
    for arrow in row.arrows.as_slice() {
        if leads_on(v, row.premises, arrow) {
            come(alloc, count, ways, arrow.target as usize, names)?;
        }
    }
    Ok(())
}

/// Node 0 has all names, and none came to the others yet.
fn first_ways(
    alloc: Global,
    count: usize,
    nodes: &[FileNode],
) -> Result<Vec<Vec<bool>>, OutOfMemory>
    ensures { IfOk result (λ w. map flags_of w.items ≡ ways_at_first count 0 nodes.now) }
{
    let mut ways = Vec::new(alloc);
    for (v, _node) in nodes.iter().enumerate() {
        if v == 0 {
            ways.push(all(alloc, count)?)?;
        } else {
            ways.push(Vec::new(alloc))?;
        }
    }
    Ok(ways)
}

/// The flags of a node, none past the end.
pub fn flags_at(ways: &[Vec<bool>], v: usize) -> &[bool]
    ensures { result.now ≡ flags_of_node (map flags_of ways.now) v }
{
    match ways.get(v) {
        Some(flags) => flags.as_slice(),
        None => &[],
    }
}

/// For each node of a file, and each of so many names of the goal, whether the node shows it. A name goes from node to
/// premise as long as its variable stands in the judgement: what a rule makes new has a number above all of these.
/// Where premises are shared, it has to come along all ways; over a link none comes. A program's variables have their
/// names at each of its lines.
pub fn kept_names(
    alloc: Global,
    count: usize,
    file: &ProofFile,
    rows: &[Row],
) -> Result<Vec<Vec<bool>>, OutOfMemory>
    ensures { IfOk result (λ k. map flags_of k.items ≡ names_kept count file.now (map row_of rows.now)) }
{
    let nodes = file.nodes.as_slice();
    let p = file.program.variables();
    let mut ways = first_ways(alloc, count, nodes)?;
    let mut all = Vec::new(alloc);
    for (v, row) in rows.iter().enumerate() {
        let Some(node) = nodes.get(v) else {
            return Ok(all);
        };
        let names = kept(alloc, count, p, flags_at(&ways, v), &node.judgement)?;
        come_all(alloc, count, v, row, ways.as_mut_slice(), names.as_slice())?;
        all.push(names)?;
    }
    Ok(all)
}
