//! The picture of a proof.
ghost use Rattle.std.specs.Prelude.{◌≡◌, IfOk, map};
ghost use Rattle.proof_picture.specs.Carried.{table};
ghost use Rattle.proof_picture.specs.Labels.{labels_with};
ghost use Rattle.proof_picture.specs.Pictures.{IsPicture, boxes_from, box_of, drawn_rows, fault_at as fault_of_node};
ghost use Rattle.proof_picture.specs.Pictures.{is_large as has_many_states};
ghost use Rattle.proof_picture.specs.Arrows.{row_of};
ghost use Rattle.proof_picture.specs.Pieces.{pieces_of};

use crate::arrows::{Arrow, Row, rows};
use crate::carried::atoms_carried;
use crate::labels::labels_of_file;
use crate::piece::Label;
use crate::steps::RefusedSteps;
use cyc_basics::memory::OutOfMemory;
use heap_formula::RuleFault;
use proof_check::Verdict;
use proof_file::ProofFile;
use std::alloc::Global;
use std::collections::VecDeque;

/// A node of a picture: its text, its fault where the verdict names it, and its edges.
#[derive(Drop)]
pub struct NodeBox {
    pub label: Label,
    pub fault: Option<RuleFault>,
    pub arrows: Vec<Arrow>,
}

/// The picture of a proof: the boxes of its nodes in order, and whether its product has too many states for a verdict.
#[derive(Drop)]
pub struct Picture {
    pub boxes: Vec<NodeBox>,
    pub is_large: bool,
}

fn fault_at(verdict: &Verdict, v: usize) -> Option<RuleFault>
    ensures { result ≡ fault_of_node verdict.now v }
{
    match verdict {
        Verdict::RuleRefused { node, fault } => {
            if *node as usize == v {
                Some(*fault)
            } else {
                None
            }
        }
        _ => None,
    }
}

fn is_large(verdict: &Verdict) -> bool
    ensures { result ≡ has_many_states verdict.now }
{
    match verdict {
        Verdict::TooManyStates => true,
        _ => false,
    }
}

fn boxes(
    alloc: Global,
    verdict: &Verdict,
    labels: Vec<Label>,
    rows: Vec<Row>,
) -> Result<Vec<NodeBox>, OutOfMemory>
    ensures { IfOk result (λ v. map box_of v.items
        ≡ boxes_from verdict.now 0 (map pieces_of labels.items) (map row_of rows.items)) }
{
    let mut labels = VecDeque::from_vec(labels);
    let mut boxes = Vec::new(alloc);
    for row in rows {
        let Some(label) = labels.pop_front() else {
            return Ok(boxes);
        };
        let fault = fault_at(verdict, boxes.len());
        let arrows = row.arrows;
        boxes.push(NodeBox {
            label,
            fault,
            arrows,
        })?;
    }
    Ok(boxes)
}

/// The edges of all nodes, in red those that the verdict refuses.
pub fn rows_for(alloc: Global, file: &ProofFile, verdict: &Verdict) -> Result<Vec<Row>, OutOfMemory>
    ensures { IfOk result (λ v. map row_of v.items ≡ drawn_rows file.now verdict.now) }
{
    let steps = RefusedSteps::of(alloc, verdict)?;
    rows(alloc, file, &steps)
}

/// The texts of all nodes, whose edges these are.
fn labels_for(alloc: Global, file: &ProofFile, rows: &[Row]) -> Result<Vec<Label>, OutOfMemory>
    ensures { IfOk result (λ v. map pieces_of v.items ≡ labels_with file.now (table 0 (map row_of rows.now))) }
{
    let flags = atoms_carried(alloc, rows)?;
    labels_of_file(alloc, file, &flags)
}

/// The picture with these labels and edges of nodes, about which this is said.
pub fn picture_with(
    alloc: Global,
    verdict: &Verdict,
    labels: Vec<Label>,
    rows: Vec<Row>,
) -> Result<Picture, OutOfMemory>
    ensures boxes { IfOk result (λ p. map box_of p.boxes.items
        ≡ boxes_from verdict.now 0 (map pieces_of labels.items) (map row_of rows.items)) }
    ensures large { IfOk result (λ p. p.is_large ≡ has_many_states verdict.now) }
{
    let boxes = boxes(alloc, verdict, labels, rows)?;
    let is_large = is_large(verdict);
    Ok(Picture { boxes, is_large })
}

/// The picture of a file about which this is said: in red, the fault of a node, or the steps of a path.
pub fn picture_of(
    alloc: Global,
    file: &ProofFile,
    verdict: &Verdict,
) -> Result<Picture, OutOfMemory>
    ensures { IfOk result (IsPicture file.now verdict.now) }
{
    let rows = rows_for(alloc, file, verdict)?;
    let labels = labels_for(alloc, file, &rows)?;
    picture_with(alloc, verdict, labels, rows)
}
