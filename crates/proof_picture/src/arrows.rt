//! The edges that stand in a picture.
ghost use Rattle.std.specs.Prelude.{◌≡◌, ◌<◌, map, IfOk};
ghost use Rattle.std.specs.Option.{option_copied};
ghost use Rattle.rule_book.specs.Graphs.{Node};
ghost use Rattle.rule_book.specs.Answers.{companion_in, targets_of as target_numbers};
ghost use Rattle.proof_file.specs.Links.{is_link as links};
ghost use Rattle.proof_picture.specs.Arrows.{arrows_with, drawn_of, pairs_at, premises_at, row_at, row_of, rows_of};
ghost use Rattle.proof_picture.specs.Red.{step_in};

use crate::steps::RefusedSteps;
use cyc_basics::memory::OutOfMemory;
use heap_formula::{Judgement, Pairs, Premise, Reason, RuleError};
use proof_file::{FileNode, ProofFile};
use rule_book::reasons::premises_by_reason;
use rule_table::antecedent;
use std::alloc::Global;
use std::slice::from_ref;

/// An edge of a picture: its number among the edges of its node, counted from 0; the node that it leads to; whether it
/// is a link to a companion; whether a refused path takes it; and its trace pairs.
#[derive(Drop)]
pub struct Arrow {
    pub place: usize,
    pub target: u32,
    pub is_link: bool,
    pub is_refused: bool,
    pub pairs: Pairs,
}

/// The edges of a node, how many spatial atoms its antecedent has, and how many premises its reason leaves; a link
/// leaves its companion, and a reason with a fault none.
#[derive(Drop)]
pub struct Row {
    pub atoms: usize,
    pub premises: usize,
    pub arrows: Vec<Arrow>,
}

/// The judgement of the node that a link names, if there is one.
fn companion_of<'a>(nodes: &'a [FileNode], reason: &Reason) -> Option<&'a Judgement>
    ensures { option_copied result ≡ companion_in (λ (n : Node). n.judgement) nodes.now reason.now }
{
    match reason {
        Reason::Step(_) => None,
        Reason::Back(link) => match nodes.get(link.target as usize) {
            None => None,
            Some(node) => Some(&node.judgement),
        },
    }
}

/// What the reason of a node leaves to be shown, with trace pairs; none where it has a fault.
fn premises_of(
    alloc: Global,
    file: &ProofFile,
    node: &FileNode,
) -> Result<Vec<Premise>, OutOfMemory>
    ensures { IfOk result (λ v. v.items ≡ premises_at file.now node.now) }
{
    let companion = companion_of(file.nodes.as_slice(), &node.reason);
    match premises_by_reason(
        alloc,
        &file.defs,
        &file.program,
        &node.judgement,
        &node.reason,
        companion,
    ) {
        Ok(premises) => Ok(premises),
        Err(RuleError::Fault(_)) => Ok(Vec::new(alloc)),
        Err(RuleError::OutOfMemory) => Err(OutOfMemory),
    }
}

/// The pairs to the premise of this number, none where there is none.
fn pairs_to(alloc: Global, premises: &[Premise], i: usize) -> Result<Pairs, OutOfMemory>
    ensures { IfOk result (λ p. p ≡ pairs_at premises.now i) }
{
    match premises.get(i) {
        Some(premise) => Ok(premise.pairs.clone()?),
        None => Ok(Pairs::new(alloc)),
    }
}

fn is_link(reason: &Reason) -> bool
    ensures { result ≡ links reason.now }
{
    match reason {
        Reason::Step(_) => false,
        Reason::Back(_) => true,
    }
}

/// The numbers of the nodes to which a node's edges lead: of its premises, or of its companion.
fn targets_of(node: &FileNode) -> &[u32]
    ensures { result.now ≡ target_numbers node.now.premises node.now.reason }
{
    match &node.reason {
        Reason::Step(_) => node.premises.as_slice(),
        Reason::Back(link) => from_ref(&link.target),
    }
}

/// The edges of node `v`, whose reason leaves these premises: one for each number that is a node's.
fn arrows_of(
    alloc: Global,
    file: &ProofFile,
    steps: &RefusedSteps,
    v: usize,
    node: &FileNode,
    premises: &[Premise],
) -> Result<Vec<Arrow>, OutOfMemory>
    ensures { IfOk result (λ a. map drawn_of a.items
        ≡ arrows_with file.now (step_in steps.now.steps.keys) v node.now premises.now) }
{
    let nodes = file.nodes.as_slice();
    let is_link = is_link(&node.reason);
    let mut arrows = Vec::new(alloc);
    for (place, target) in targets_of(node).iter().enumerate() {
        if (*target as usize) < nodes.len() {
            arrows.push(Arrow {
                place,
                target: *target,
                is_link,
                is_refused: steps.has(v, place),
                pairs: pairs_to(alloc, premises, place)?,
            })?;
        }
    }
    Ok(arrows)
}

/// The row of node `v`.
fn row_of_node(
    alloc: Global,
    file: &ProofFile,
    steps: &RefusedSteps,
    v: usize,
    node: &FileNode,
) -> Result<Row, OutOfMemory>
    ensures { IfOk result (λ r. row_of r ≡ row_at file.now (step_in steps.now.steps.keys) v node.now) }
{
    let left = premises_of(alloc, file, node)?;
    let atoms = antecedent(&node.judgement).spatial().len();
    let premises = left.len();
    let arrows = arrows_of(alloc, file, steps, v, node, left.as_slice())?;
    Ok(Row {
        atoms,
        premises,
        arrows,
    })
}

/// The edges of all nodes.
pub fn rows(alloc: Global, file: &ProofFile, steps: &RefusedSteps) -> Result<Vec<Row>, OutOfMemory>
    ensures { IfOk result (λ v. map row_of v.items ≡ rows_of file.now (step_in steps.now.steps.keys)) }
{
    let mut rows = Vec::new(alloc);
    for (v, node) in file.nodes.as_slice().iter().enumerate() {
        rows.push(row_of_node(alloc, file, steps, v, node)?)?;
    }
    Ok(rows)
}
