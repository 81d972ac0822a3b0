//! Edges of a picture as edges of a graph.
ghost use Rattle.std.specs.Prelude.{◌≡◌, ◌++◌, [], map, IfOk, OnOk};
ghost use Rattle.draw_top.specs.Graphs.{edge_of, look_of, run_of, set_of};
ghost use Rattle.proof_picture.specs.Arrows.{drawn_of};
ghost use Rattle.draw_top.specs.Drawings.{arrow_edges, arrow_sets, link_sets, pair_look, pair_text, pairs_runs};
ghost use Rattle.draw_top.specs.Drawings.{pairs_sets};

use crate::graph::{Arrow as Edge, Attribute, Run, Style, Value};
use crate::sets::{add_red, number, plain, set};
use cyc_basics::memory::OutOfMemory;
use heap_formula::Pair;
use proof_picture::Arrow;
use std::alloc::Global;

/// A pair: the positions of the atoms before and after the step.
fn text_of(alloc: Global, pair: Pair) -> Result<Vec<u8>, OutOfMemory>
    ensures { IfOk result (λ v. v.items ≡ pair_text pair) }
{
    let mut text = number(alloc, pair.old as u64)?;
    text.extend_from_slice("→".as_bytes())?;
    text.extend_from_slice(number(alloc, pair.new as u64)?.as_slice())?;
    Ok(text)
}

/// A pair with progress is bold and green.
fn style_of(pair: Pair) -> Style
    ensures { look_of result ≡ pair_look pair }
{
    if pair.progress {
        Style::Bold("#0a7d2c")
    } else {
        Style::Plain
    }
}

/// The pairs, each after a space.
fn runs_of(alloc: Global, pairs: &[Pair]) -> Result<Vec<Run>, OutOfMemory>
    ensures { IfOk result (λ r. map run_of r.items ≡ pairs_runs pairs.now) }
{
    let mut runs = Vec::new(alloc);
    for pair in pairs {
        runs.push(plain(alloc, " ")?)?;
        runs.push(Run::Text(style_of(*pair), text_of(alloc, *pair)?))?;
    }
    Ok(runs)
}

/// A label with the pairs, if there are some.
pub fn label_of(alloc: Global, pairs: &[Pair]) -> Result<Vec<Attribute>, OutOfMemory>
    ensures { IfOk result (λ a. map set_of a.items ≡ pairs_sets pairs.now) }
{
    let mut attributes = Vec::new(alloc);
    match pairs {
        [] => {}
        _ => attributes.push(Attribute {
            name: "label",
            value: Value::Label(runs_of(alloc, pairs)?),
        })?,
    }
    Ok(attributes)
}

/// A link is dashed, and is no step down.
pub fn add_link(sets: &mut Vec<Attribute>, is_link: bool) -> Result<(), OutOfMemory>
    ensures { OnOk result (map set_of sets.new.items ≡ map set_of sets.old.items ++ link_sets is_link) }
{
    if is_link {
        sets.push(set("style", "dashed"))?;
        sets.push(set("constraint", "false"))?;
    }
    Ok(())
}

/// The attributes of an edge: its pairs, and what shows that it is a link, or that it is refused.
fn attributes_of(alloc: Global, arrow: &Arrow) -> Result<Vec<Attribute>, OutOfMemory>
    ensures { IfOk result (λ a. map set_of a.items ≡ arrow_sets (drawn_of arrow.now)) }
{
    let mut sets = label_of(alloc, arrow.pairs.as_slice())?;
    add_link(&mut sets, arrow.is_link)?;
    add_red(&mut sets, arrow.is_refused)?;
    Ok(sets)
}

/// Adds the edges of node `from`.
pub fn add_edges(
    alloc: Global,
    edges: &mut Vec<Edge>,
    from: u32,
    arrows: &[Arrow],
) -> Result<(), OutOfMemory>
    ensures { OnOk result (map edge_of edges.new.items
        ≡ map edge_of edges.old.items ++ arrow_edges from (map drawn_of arrows.now)) }
{
    for arrow in arrows {
        edges.push(Edge {
            from,
            to: arrow.target,
            attributes: attributes_of(alloc, arrow)?,
        })?;
    }
    Ok(())
}
