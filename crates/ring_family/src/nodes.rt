// The nodes of the family, in blocks of eight.
ghost use Rattle.std.specs.Prelude.{◌≡◌, ◌<◌, ◌+◌, ◌-◌, ◌*◌, ◌++◌, [], IfOk, OnOk};
ghost use Rattle.ring_family.specs.Ring.{after, ring_block, ring_bud, ring_nodes, file_node, file_nodes};
ghost use Rattle.ring_family.specs.Ring.{cell_then as cell_heap, unfold_node, rewrite_node, nil_case, cell_case};
ghost use Rattle.heap_formula.specs.declared.terms.Term.TheVariants as terms;
ghost use Rattle.heap_formula.specs.declared.proof_rules.Rule.TheVariants as rules;
ghost use Rattle.heap_formula.specs.declared.proof_rules.Side.TheVariants as sides;

use crate::definitions::successor;
use crate::formulas::{by_rule, cell_then, emp, holds, is_nil};
use cyc_basics::memory::OutOfMemory;
use heap_formula::{Disjuncts, Heap, Judgement, Link, Positions, Reason, Rule, Side, Subst, Term};
use logics::Numbers;
use proof_file::FileNode;
use std::alloc::Global;

/// The first node of a block, which unfolds its predicate.
fn unfolded(alloc: Global, k: u16, i: u16) -> Result<FileNode, OutOfMemory>
    ensures { IfOk result (λ n. n ≡ file_node (unfold_node k i)) }
{
    let first = 8 * u32::from(i);
    let left = holds(alloc, i, Term::Univ(i))?;
    let right = holds(alloc, k, Term::Univ(i))?;
    by_rule(alloc, left, right, Rule::Unfold(0), &[first + 1, first + 5])
}

/// The case of `nil`, before its equation is used.
fn rewritten(alloc: Global, k: u16, i: u16) -> Result<FileNode, OutOfMemory>
    ensures { IfOk result (λ n. n ≡ file_node (rewrite_node k i)) }
{
    let left = is_nil(alloc, Term::Univ(i))?;
    let right = holds(alloc, k, Term::Univ(i))?;
    by_rule(
        alloc,
        left,
        right,
        Rule::Rewrite(0, Side::Left),
        &[8 * u32::from(i) + 2],
    )
}

/// The nodes of the case of `nil`, after the first.
fn push_nil_case(
    alloc: Global,
    k: u16,
    i: u16,
    nodes: &mut Vec<FileNode>,
) -> Result<(), OutOfMemory>
    ensures { OnOk result (nodes.new.items ≡ nodes.old.items ++ file_nodes (nil_case k i)) }
{
    let first = 8 * u32::from(i);
    let right = holds(alloc, k, Term::Nil)?;
    nodes.push(by_rule(
        alloc,
        emp(alloc),
        right,
        Rule::UnfoldRight(0, 0),
        &[first + 3],
    )?)?;
    let right = is_nil(alloc, Term::Nil)?;
    nodes.push(by_rule(alloc, emp(alloc), right, Rule::PureRight(0), &[first + 4])?)?;
    nodes.push(by_rule(alloc, emp(alloc), emp(alloc), Rule::Done, &[])?)?;
    Ok(())
}

/// A cell at variable i, and the next predicate of what it leads to.
fn cell_left(alloc: Global, k: u16, i: u16) -> Result<Heap, OutOfMemory>
    requires { i < k }
    ensures { IfOk result (λ h. h ≡ cell_heap (terms.Univ i) (terms.Univ (i + 1)) (after k i)) }
{
    cell_then(alloc, Term::Univ(i), Term::Univ(i + 1), successor(k, i))
}

/// The nodes of the case of a cell.
fn push_cell_case(
    alloc: Global,
    k: u16,
    i: u16,
    nodes: &mut Vec<FileNode>,
) -> Result<(), OutOfMemory>
    requires { i < k }
    ensures { OnOk result (nodes.new.items ≡ nodes.old.items ++ file_nodes (cell_case k i)) }
{
    let first = 8 * u32::from(i);
    let (v, u) = (Term::Univ(i), Term::Univ(i + 1));
    let right = holds(alloc, k, v)?;
    nodes.push(by_rule(
        alloc,
        cell_left(alloc, k, i)?,
        right,
        Rule::UnfoldRight(0, 1),
        &[first + 6],
    )?)?;
    let right = cell_then(alloc, v, Term::Exist(0), k)?;
    nodes.push(by_rule(
        alloc,
        cell_left(alloc, k, i)?,
        right,
        Rule::Instantiate(0, u),
        &[first + 7],
    )?)?;
    let right = cell_then(alloc, v, u, k)?;
    nodes.push(by_rule(
        alloc,
        cell_left(alloc, k, i)?,
        right,
        Rule::Frame(0, 0),
        &[first + 8],
    )?)?;
    Ok(())
}

fn push_block(alloc: Global, k: u16, i: u16, nodes: &mut Vec<FileNode>) -> Result<(), OutOfMemory>
    requires { i < k }
    ensures { OnOk result (nodes.new.items ≡ nodes.old.items ++ file_nodes (ring_block k i)) }
{
    nodes.push(unfolded(alloc, k, i)?)?;
    nodes.push(rewritten(alloc, k, i)?)?;
    push_nil_case(alloc, k, i, nodes)?;
    push_cell_case(alloc, k, i, nodes)?;
    Ok(())
}

/// The last node, linked to the first.
fn bud(alloc: Global, k: u16) -> Result<FileNode, OutOfMemory>
    ensures { IfOk result (λ n. n ≡ file_node (ring_bud k)) }
{
    let left = holds(alloc, 0, Term::Univ(k))?;
    let right = holds(alloc, k, Term::Univ(k))?;
    let link = Link {
        target: 0,
        subst: Subst::from_vec(vec![in alloc; (0u16, Term::Univ(k))]?),
        map: Positions::from_vec(vec![in alloc; 0u32]?),
        disjuncts: Positions::from_vec(vec![in alloc; 0u32]?),
    };
    Ok(FileNode {
        judgement: Judgement::Entail(left, Disjuncts::single(alloc, right)?),
        reason: Reason::Back(link),
        premises: Numbers::from_vec(Vec::new(alloc)),
    })
}

/// The blocks in order, then the last node.
pub fn nodes(alloc: Global, k: u16) -> Result<Vec<FileNode>, OutOfMemory>
    ensures { IfOk result (λ ns. ns.items ≡ file_nodes (ring_nodes k)) }
{
    let mut nodes = Vec::new(alloc);
    for i in 0..k {
        push_block(alloc, k, i, &mut nodes)?;
    }
    nodes.push(bud(alloc, k)?)?;
    Ok(nodes)
}
