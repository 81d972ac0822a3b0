//! A folded picture as a graph of DOT.
ghost use Rattle.std.specs.Prelude.{◌≡◌, ◌++◌, ◌∷◌, map, IfOk, OnOk};
ghost use Rattle.draw_top.specs.Graphs.{cluster_of, drawing_of, edge_of, node_of, run_of, set_of};
ghost use Rattle.draw_top.specs.Folds.{closed_runs, companion_sets, edges_at, folded_drawing, frame_sets, frames};
ghost use Rattle.draw_top.specs.Folds.{free_nodes, grey as grey_run, label_set, last_runs, lemma_cluster, lemma_runs};
ghost use Rattle.draw_top.specs.Folds.{range_text, root_of, shown_edge as edge_at, shown_edges, shown_node};
ghost use Rattle.draw_top.specs.Folds.{shown_nodes, shown_runs};
ghost use Rattle.proof_picture.specs.Shown.{shown_of, tree_of};
ghost use Rattle.proof_picture.specs.Arrows.{drawn_of};
ghost use Rattle.proof_picture.specs.Pieces.{pieces_of};

use crate::drawing::{edge_sets, node_sets, whole};
use crate::edges::{add_link, label_of as pairs_label};
use crate::graph::{Arrow, Attribute, Cluster, Graph, Run, Style, Value, Vertex};
use crate::nodes::{add_fault, add_pieces};
use crate::sets::{add_red, number, set};
use cyc_basics::memory::OutOfMemory;
use heap_formula::RuleFault;
use proof_picture::folds::{FoldedPicture, ShownBox, Tree};
use proof_picture::{Arrow as Drawn, Label};
use std::alloc::Global;

/// What is said of a box beside the words of the proof is grey.
fn grey(text: Vec<u8>) -> Run
    ensures { run_of result ≡ grey_run text.items }
{
    Run::Text(Style::Bold("#707070"), text)
}

/// The number of a node, or of the first and the last of a chain.
fn range(alloc: Global, first: u32, last: usize) -> Result<Vec<u8>, OutOfMemory>
    ensures { IfOk result (λ v. v.items ≡ range_text first last) }
{
    let mut text = number(alloc, first as u64)?;
    if first as usize == last {
        return Ok(text);
    }
    text.extend_from_slice(" .. ".as_bytes())?;
    text.extend_from_slice(number(alloc, last as u64)?.as_slice())?;
    Ok(text)
}

/// Adds that a closed subtree is one, and how many nodes it has.
fn add_closed(alloc: Global, runs: &mut Vec<Run>, count: u32) -> Result<(), OutOfMemory>
    ensures { OnOk result (map run_of runs.new.items ≡ map run_of runs.old.items ++ closed_runs count) }
{
    let mut text = Vec::from_slice(alloc, "closed: ".as_bytes())?;
    text.extend_from_slice(number(alloc, count as u64)?.as_slice())?;
    text.extend_from_slice(" nodes".as_bytes())?;
    runs.push(grey(text))?;
    runs.push(Run::Break)?;
    Ok(())
}

/// Adds what stands behind the text of a box.
fn add_last(
    alloc: Global,
    runs: &mut Vec<Run>,
    v: u32,
    count: Option<u32>,
    fault: Option<RuleFault>,
) -> Result<(), OutOfMemory>
    ensures { OnOk result (map run_of runs.new.items ≡ map run_of runs.old.items ++ last_runs v count fault) }
{
    match count {
        Some(count) => add_closed(alloc, runs, count),
        None => {
            runs.push(Run::Break)?;
            add_fault(alloc, runs, v, fault)
        }
    }
}

/// The label of a box: its numbers, its text, and what stands behind that.
fn label_of(
    alloc: Global,
    first: u32,
    last: usize,
    count: Option<u32>,
    label: Label,
    fault: Option<RuleFault>,
) -> Result<Vec<Run>, OutOfMemory>
    ensures { IfOk result (λ r. map run_of r.items ≡ shown_runs first last count (pieces_of label) fault) }
{
    let mut runs = Vec::new(alloc);
    runs.push(grey(range(alloc, first, last)?))?;
    runs.push(Run::Break)?;
    add_pieces(alloc, &mut runs, label)?;
    add_last(alloc, &mut runs, first, count, fault)?;
    Ok(runs)
}

/// A link is dashed; to a lemma it leads down.
fn add_companion(
    sets: &mut Vec<Attribute>,
    uses_lemma: bool,
    is_link: bool,
) -> Result<(), OutOfMemory>
    ensures { OnOk result (map set_of sets.new.items ≡ map set_of sets.old.items ++ companion_sets uses_lemma is_link) }
{
    if uses_lemma {
        sets.push(set("style", "dashed"))?;
        Ok(())
    } else {
        add_link(sets, is_link)
    }
}

/// An edge of node `v`.
fn shown_edge(alloc: Global, v: u32, uses_lemma: bool, arrow: &Drawn) -> Result<Arrow, OutOfMemory>
    ensures { IfOk result (λ e. edge_of e ≡ edge_at v uses_lemma (drawn_of arrow.now)) }
{
    let mut attributes = pairs_label(alloc, arrow.pairs.as_slice())?;
    add_companion(&mut attributes, uses_lemma, arrow.is_link)?;
    add_red(&mut attributes, arrow.is_refused)?;
    Ok(Arrow {
        from: v,
        to: arrow.target,
        attributes,
    })
}

/// Adds the edges of node `v`.
fn add_edges(
    alloc: Global,
    edges: &mut Vec<Arrow>,
    v: u32,
    uses_lemma: bool,
    arrows: &[Drawn],
) -> Result<(), OutOfMemory>
    ensures { OnOk result (map edge_of edges.new.items
        ≡ map edge_of edges.old.items ++ edges_at v uses_lemma (map drawn_of arrows.now)) }
{
    for arrow in arrows {
        edges.push(shown_edge(alloc, v, uses_lemma, arrow)?)?;
    }
    Ok(())
}

/// The node of a box, whose edges are added.
fn shown_vertex(
    alloc: Global,
    edges: &mut Vec<Arrow>,
    shown: ShownBox,
) -> Result<Vertex, OutOfMemory>
    ensures node { IfOk result (λ n. node_of n ≡ shown_node (shown_of shown)) }
    ensures edges { OnOk result (map edge_of edges.new.items
        ≡ map edge_of edges.old.items ++ edges_at shown.first shown.uses_lemma (shown_of shown).arrows) }
{
    let ShownBox {
        first,
        last,
        count,
        uses_lemma,
        label,
        fault,
        arrows,
    } = shown;
    add_edges(alloc, edges, first, uses_lemma, arrows.as_slice())?;
    let mut attributes = Vec::new(alloc);
    attributes.push(Attribute {
        name: "label",
        value: Value::Label(label_of(alloc, first, last, count, label, fault)?),
    })?;
    add_red(&mut attributes, fault.is_some())?;
    Ok(Vertex {
        number: first,
        attributes,
    })
}

/// Adds the nodes of boxes, and their edges.
fn add_boxes(
    alloc: Global,
    vertices: &mut Vec<Vertex>,
    arrows: &mut Vec<Arrow>,
    boxes: Vec<ShownBox>,
) -> Result<(), OutOfMemory>
    ensures nodes { OnOk result (map node_of vertices.new.items
        ≡ map node_of vertices.old.items ++ shown_nodes (map shown_of boxes.items)) }
    ensures edges { OnOk result (map edge_of arrows.new.items
        ≡ map edge_of arrows.old.items ++ shown_edges (map shown_of boxes.items)) }
{
    for shown in boxes {
        vertices.push(shown_vertex(alloc, arrows, shown)?)?;
    }
    Ok(())
}

/// What is set for the frame of a lemma, which is dashed and has what the lemma says.
fn frame(alloc: Global, root: u32, says: Label) -> Result<Vec<Attribute>, OutOfMemory>
    ensures { IfOk result (λ a. map set_of a.items ≡ label_set (lemma_runs root (pieces_of says)) ∷ frame_sets) }
{
    let mut text = Vec::from_slice(alloc, "lemma ".as_bytes())?;
    text.extend_from_slice(number(alloc, root as u64)?.as_slice())?;
    let mut runs = Vec::new(alloc);
    runs.push(grey(text))?;
    runs.push(Run::Break)?;
    add_pieces(alloc, &mut runs, says)?;
    let mut sets = Vec::new(alloc);
    sets.push(Attribute {
        name: "label",
        value: Value::Label(runs),
    })?;
    sets.push(set("labeljust", "l"))?;
    sets.push(set("style", "dashed"))?;
    sets.push(set("fontname", "monospace"))?;
    sets.push(set("fontsize", "11"))?;
    Ok(sets)
}

fn root(boxes: &[ShownBox]) -> u32
    ensures { result ≡ root_of (map shown_of boxes.now) }
{
    match boxes {
        [] => 0,
        [shown, ..] => shown.first,
    }
}

/// The frame of a lemma, whose edges are added.
fn cluster(
    alloc: Global,
    arrows: &mut Vec<Arrow>,
    says: Label,
    boxes: Vec<ShownBox>,
) -> Result<Cluster, OutOfMemory>
    ensures cluster { IfOk result (λ c. cluster_of c ≡ lemma_cluster (pieces_of says) (map shown_of boxes.items)) }
    ensures edges { OnOk result (map edge_of arrows.new.items
        ≡ map edge_of arrows.old.items ++ shown_edges (map shown_of boxes.items)) }
{
    let number = root(boxes.as_slice());
    let attributes = frame(alloc, number, says)?;
    let mut vertices = Vec::new(alloc);
    add_boxes(alloc, &mut vertices, arrows, boxes)?;
    Ok(Cluster {
        number,
        attributes,
        vertices,
    })
}

/// Adds a tree: its nodes, or its frame where it is a lemma's; and its edges.
fn add_tree(
    alloc: Global,
    vertices: &mut Vec<Vertex>,
    clusters: &mut Vec<Cluster>,
    arrows: &mut Vec<Arrow>,
    tree: Tree,
) -> Result<(), OutOfMemory>
    ensures nodes { OnOk result (map node_of vertices.new.items
        ≡ map node_of vertices.old.items ++ free_nodes (tree_of tree).says (tree_of tree).boxes) }
    ensures clusters { OnOk result (map cluster_of clusters.new.items
        ≡ map cluster_of clusters.old.items ++ frames (tree_of tree).says (tree_of tree).boxes) }
    ensures edges { OnOk result (map edge_of arrows.new.items
        ≡ map edge_of arrows.old.items ++ shown_edges (tree_of tree).boxes) }
{
    let Tree { says, boxes } = tree;
    match says {
        None => add_boxes(alloc, vertices, arrows, boxes),
        Some(says) => {
            clusters.push(cluster(alloc, arrows, says, boxes)?)?;
            Ok(())
        }
    }
}

/// The graph of a folded picture.
pub fn folded_graph(alloc: Global, picture: FoldedPicture) -> Result<Graph, OutOfMemory>
    ensures { IfOk result (λ g. drawing_of g ≡ folded_drawing (map tree_of picture.trees.items) picture.is_large) }
{
    let whole = whole(alloc, picture.is_large)?;
    let all_nodes = node_sets(alloc)?;
    let all_edges = edge_sets(alloc)?;
    let mut vertices = Vec::new(alloc);
    let mut clusters = Vec::new(alloc);
    let mut arrows = Vec::new(alloc);
    for tree in picture.trees {
        add_tree(alloc, &mut vertices, &mut clusters, &mut arrows, tree)?;
    }
    Ok(Graph {
        whole,
        all_nodes,
        all_edges,
        vertices,
        clusters,
        arrows,
    })
}
