//! A picture as a graph of DOT.
ghost use Rattle.std.specs.Prelude.{◌≡◌, ◌<◌, ◌^◌, length, map, IfOk};
ghost use Rattle.draw_top.specs.Graphs.{drawing_of, set_of};
ghost use Rattle.proof_picture.specs.Pictures.{box_of};
ghost use Rattle.draw_top.specs.Drawings.{drawing, edge_defaults, node_defaults, whole_sets};

use crate::edges::add_edges;
use crate::graph::{Attribute, Graph};
use crate::nodes::vertex;
use crate::sets::set;
use cyc_basics::memory::OutOfMemory;
use proof_picture::Picture;
use std::alloc::Global;

/// What a picture says where no verdict is known.
pub const NOTE: &str = "limit states: not checked, so nothing stands in red";

/// What is set for the whole picture; where no verdict is known the picture says so below.
pub fn whole(alloc: Global, is_large: bool) -> Result<Vec<Attribute>, OutOfMemory>
    ensures { IfOk result (λ a. map set_of a.items ≡ whole_sets is_large) }
{
    let mut sets = Vec::new(alloc);
    sets.push(set("ordering", "out"))?;
    sets.push(set("fontname", "sans-serif"))?;
    if is_large {
        sets.push(set("label", NOTE))?;
    }
    Ok(sets)
}

/// What is set for all nodes.
pub fn node_sets(alloc: Global) -> Result<Vec<Attribute>, OutOfMemory>
    ensures { IfOk result (λ a. map set_of a.items ≡ node_defaults) }
{
    let mut sets = Vec::new(alloc);
    sets.push(set("shape", "box"))?;
    sets.push(set("fontname", "monospace"))?;
    sets.push(set("fontsize", "11"))?;
    Ok(sets)
}

/// What is set for all edges.
pub fn edge_sets(alloc: Global) -> Result<Vec<Attribute>, OutOfMemory>
    ensures { IfOk result (λ a. map set_of a.items ≡ edge_defaults) }
{
    let mut sets = Vec::new(alloc);
    sets.push(set("fontname", "monospace"))?;
    sets.push(set("fontsize", "10"))?;
    Ok(sets)
}

/// The graph of a picture.
pub fn graph_of(alloc: Global, picture: Picture) -> Result<Graph, OutOfMemory>
    requires { length picture.boxes.items < 2 ^ 32 }
    ensures { IfOk result (λ g. drawing_of g ≡ drawing (map box_of picture.boxes.items) picture.is_large) }
{
    let whole = whole(alloc, picture.is_large)?;
    let all_nodes = node_sets(alloc)?;
    let all_edges = edge_sets(alloc)?;
    let mut vertices = Vec::new(alloc);
    let mut arrows = Vec::new(alloc);
    for node in picture.boxes {
        let number = vertices.len() as u32;
        add_edges(alloc, &mut arrows, number, &node.arrows)?;
        vertices.push(vertex(alloc, number, node.label, node.fault)?)?;
    }
    Ok(Graph {
        whole,
        all_nodes,
        all_edges,
        vertices,
        clusters: Vec::new(alloc),
        arrows,
    })
}
