//! Boxes as nodes of a graph.
ghost use Rattle.std.specs.Prelude.{◌≡◌, ◌++◌, map, IfOk, OnOk};
ghost use Rattle.draw_top.specs.Graphs.{node_of, run_of};
ghost use Rattle.proof_picture.specs.Pieces.{piece_of, pieces_of};
ghost use Rattle.draw_top.specs.Drawings.{box_node, fault_runs, label_runs, part_run};

use crate::graph::{Attribute, Run, Style, Value, Vertex};
use crate::sets::{add_red, fault_text, number};
use cyc_basics::memory::OutOfMemory;
use heap_formula::RuleFault;
use proof_picture::{Label, Piece};
use std::alloc::Global;

/// A piece of a text as a part of a label.
fn run_of_piece(alloc: Global, piece: Piece) -> Result<Run, OutOfMemory>
    ensures { IfOk result (λ r. run_of r ≡ part_run (piece_of piece)) }
{
    match piece {
        Piece::Words(true, text) => Ok(Run::Text(Style::Bold("#1f4fbf"), text)),
        Piece::Words(false, text) => Ok(Run::Text(Style::Plain, text)),
        Piece::Space => {
            let text = Vec::from_slice(alloc, " ".as_bytes())?;
            Ok(Run::Text(Style::Plain, text))
        }
        Piece::Line => Ok(Run::Break),
    }
}

/// Adds the pieces of a text.
pub fn add_pieces(alloc: Global, runs: &mut Vec<Run>, label: Label) -> Result<(), OutOfMemory>
    ensures { OnOk result (map run_of runs.new.items ≡ map run_of runs.old.items ++ map part_run (pieces_of label)) }
{
    for piece in label.pieces {
        runs.push(run_of_piece(alloc, piece)?)?;
    }
    Ok(())
}

/// Adds a line with a fault, in red.
pub fn add_fault(
    alloc: Global,
    runs: &mut Vec<Run>,
    v: u32,
    fault: Option<RuleFault>,
) -> Result<(), OutOfMemory>
    ensures { OnOk result (map run_of runs.new.items ≡ map run_of runs.old.items ++ fault_runs v fault) }
{
    if let Some(fault) = fault {
        runs.push(Run::Text(Style::Bold("red"), fault_text(alloc, v, fault)?))?;
        runs.push(Run::Break)?;
    }
    Ok(())
}

/// The label of a node: its number and its text, and a line with its fault.
fn label_of(
    alloc: Global,
    v: u32,
    label: Label,
    fault: Option<RuleFault>,
) -> Result<Vec<Run>, OutOfMemory>
    ensures { IfOk result (λ r. map run_of r.items ≡ label_runs v (pieces_of label) fault) }
{
    let mut runs = Vec::new(alloc);
    runs.push(Run::Text(Style::Bold("#707070"), number(alloc, v as u64)?))?;
    runs.push(Run::Break)?;
    add_pieces(alloc, &mut runs, label)?;
    runs.push(Run::Break)?;
    add_fault(alloc, &mut runs, v, fault)?;
    Ok(runs)
}

/// The node of a box.
pub fn vertex(
    alloc: Global,
    v: u32,
    label: Label,
    fault: Option<RuleFault>,
) -> Result<Vertex, OutOfMemory>
    ensures { IfOk result (λ n. node_of n ≡ box_node v (pieces_of label) fault) }
{
    let mut attributes = Vec::new(alloc);
    attributes.push(Attribute {
        name: "label",
        value: Value::Label(label_of(alloc, v, label, fault)?),
    })?;
    add_red(&mut attributes, fault.is_some())?;
    Ok(Vertex {
        number: v,
        attributes,
    })
}
