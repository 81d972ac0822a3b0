//! A picture with a title.
ghost use Rattle.std.specs.Prelude.{◌≡◌, ◌++◌, IfOk, OnOk, map};
ghost use Rattle.draw_top.specs.Graphs.{drawing_of, run_of, set_of};
ghost use Rattle.draw_top.specs.Titles.{note_runs, titled, titled_sets};
ghost use Rattle.proof_picture.specs.Pieces.{pieces_of};

use crate::drawing::NOTE;
use crate::graph::{Attribute, Graph, Run, Value};
use crate::nodes::add_pieces;
use crate::sets::{plain, set};
use cyc_basics::memory::OutOfMemory;
use proof_picture::Label;
use std::alloc::Global;

/// Adds the note that no verdict is known.
fn add_note(alloc: Global, runs: &mut Vec<Run>, is_large: bool) -> Result<(), OutOfMemory>
    ensures { OnOk result (map run_of runs.new.items ≡ map run_of runs.old.items ++ note_runs is_large) }
{
    if is_large {
        runs.push(plain(alloc, NOTE)?)?;
        runs.push(Run::Break)?;
    }
    Ok(())
}

/// What is set for the whole of a picture with a title, which stands above it at the left.
fn sets(alloc: Global, title: Label, is_large: bool) -> Result<Vec<Attribute>, OutOfMemory>
    ensures { IfOk result (λ a. map set_of a.items ≡ titled_sets (pieces_of title) is_large) }
{
    let mut runs = Vec::new(alloc);
    add_pieces(alloc, &mut runs, title)?;
    add_note(alloc, &mut runs, is_large)?;
    let mut sets = Vec::new(alloc);
    sets.push(set("ordering", "out"))?;
    sets.push(set("fontname", "monospace"))?;
    sets.push(set("fontsize", "11"))?;
    sets.push(set("labelloc", "t"))?;
    sets.push(set("labeljust", "l"))?;
    sets.push(Attribute {
        name: "label",
        value: Value::Label(runs),
    })?;
    Ok(sets)
}

/// The graph with a title; where no verdict is known this says so.
pub fn titled_graph(
    alloc: Global,
    graph: Graph,
    title: Label,
    is_large: bool,
) -> Result<Graph, OutOfMemory>
    ensures { IfOk result (λ g. drawing_of g ≡ titled (pieces_of title) is_large (drawing_of graph)) }
{
    let whole = sets(alloc, title, is_large)?;
    let Graph {
        whole: _,
        all_nodes,
        all_edges,
        vertices,
        clusters,
        arrows,
    } = graph;
    Ok(Graph {
        whole,
        all_nodes,
        all_edges,
        vertices,
        clusters,
        arrows,
    })
}
