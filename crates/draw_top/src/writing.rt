//! The text of a graph.
ghost use Rattle.std.specs.Prelude.{◌≡◌, ◌++◌, map, IfOk, OnOk};
ghost use Rattle.draw_top.specs.Graphs.{cluster_of, drawing_of, edge_of, node_of, run_of, set_of, setting_of};
ghost use Rattle.draw_top.specs.Texts.{bold_begins, bold_text, run_text, runs_text, value_text, set_text, sets_text};
ghost use Rattle.draw_top.specs.Texts.{bracketed, heading_text, node_text, nodes_text, cluster_heading, cluster_text};
ghost use Rattle.draw_top.specs.Texts.{clusters_text, edge_text, edges_text, graph_text};

use crate::graph::{Arrow, Attribute, Cluster, Graph, Run, Style, Value, Vertex};
use crate::text::DotText;
use cyc_basics::memory::OutOfMemory;
use std::alloc::Global;

/// Writes the tags after which a text is bold and of a colour.
fn begin_bold(color: &str, out: &mut DotText) -> Result<(), OutOfMemory>
    ensures { OnOk result (out.new ≡ out.old ++ bold_begins color.now) }
{
    out.text("<FONT COLOR=")?;
    out.quoted(color)?;
    out.text("><B>")
}

fn write_bold(color: &str, text: &[u8], out: &mut DotText) -> Result<(), OutOfMemory>
    ensures { OnOk result (out.new ≡ out.old ++ bold_text color.now text.now) }
{
    begin_bold(color, out)?;
    out.marked_up(text)?;
    out.text("</B></FONT>")
}

fn write_run(run: &Run, out: &mut DotText) -> Result<(), OutOfMemory>
    ensures { OnOk result (out.new ≡ out.old ++ run_text (run_of run.now)) }
{
    match run {
        Run::Text(Style::Plain, text) => out.marked_up(text),
        Run::Text(Style::Bold(color), text) => write_bold(color, text, out),
        Run::Break => out.text("<BR ALIGN=\"LEFT\"/>"),
    }
}

fn write_runs(runs: &[Run], out: &mut DotText) -> Result<(), OutOfMemory>
    ensures { OnOk result (out.new ≡ out.old ++ runs_text (map run_of runs.now)) }
{
    for run in runs {
        write_run(run, out)?;
    }
    Ok(())
}

fn write_value(value: &Value, out: &mut DotText) -> Result<(), OutOfMemory>
    ensures { OnOk result (out.new ≡ out.old ++ value_text (setting_of value.now)) }
{
    match value {
        Value::Quoted(text) => out.quoted(text),
        Value::Label(runs) => {
            out.text("<")?;
            write_runs(runs, out)?;
            out.text(">")
        }
    }
}

fn write_attribute(attribute: &Attribute, out: &mut DotText) -> Result<(), OutOfMemory>
    ensures { OnOk result (out.new ≡ out.old ++ set_text (set_of attribute.now)) }
{
    out.text(" ")?;
    out.text(attribute.name)?;
    out.text("=")?;
    write_value(&attribute.value, out)
}

/// Writes attributes between brackets, and ends the statement.
fn write_attributes(attributes: &[Attribute], out: &mut DotText) -> Result<(), OutOfMemory>
    ensures { OnOk result (out.new ≡ out.old ++ bracketed (map set_of attributes.now)) }
{
    out.text(" [")?;
    write_all_attributes(attributes, out)?;
    out.text(" ];\n")
}

fn write_all_attributes(attributes: &[Attribute], out: &mut DotText) -> Result<(), OutOfMemory>
    ensures { OnOk result (out.new ≡ out.old ++ sets_text (map set_of attributes.now)) }
{
    for attribute in attributes {
        write_attribute(attribute, out)?;
    }
    Ok(())
}

fn write_vertex(vertex: &Vertex, out: &mut DotText) -> Result<(), OutOfMemory>
    ensures { OnOk result (out.new ≡ out.old ++ node_text (node_of vertex.now)) }
{
    out.number(vertex.number)?;
    write_attributes(&vertex.attributes, out)
}

fn write_vertices(vertices: &[Vertex], out: &mut DotText) -> Result<(), OutOfMemory>
    ensures { OnOk result (out.new ≡ out.old ++ nodes_text (map node_of vertices.now)) }
{
    for vertex in vertices {
        write_vertex(vertex, out)?;
    }
    Ok(())
}

fn write_cluster_heading(cluster: &Cluster, out: &mut DotText) -> Result<(), OutOfMemory>
    ensures { OnOk result (out.new ≡ out.old ++ cluster_heading (cluster_of cluster.now)) }
{
    out.text("subgraph cluster_")?;
    out.number(cluster.number)?;
    out.text(" {\ngraph")?;
    write_attributes(&cluster.attributes, out)
}

fn write_cluster(cluster: &Cluster, out: &mut DotText) -> Result<(), OutOfMemory>
    ensures { OnOk result (out.new ≡ out.old ++ cluster_text (cluster_of cluster.now)) }
{
    write_cluster_heading(cluster, out)?;
    write_vertices(&cluster.vertices, out)?;
    out.text("}\n")
}

fn write_clusters(clusters: &[Cluster], out: &mut DotText) -> Result<(), OutOfMemory>
    ensures { OnOk result (out.new ≡ out.old ++ clusters_text (map cluster_of clusters.now)) }
{
    for cluster in clusters {
        write_cluster(cluster, out)?;
    }
    Ok(())
}

fn write_arrow(arrow: &Arrow, out: &mut DotText) -> Result<(), OutOfMemory>
    ensures { OnOk result (out.new ≡ out.old ++ edge_text (edge_of arrow.now)) }
{
    out.number(arrow.from)?;
    out.text(" -> ")?;
    out.number(arrow.to)?;
    write_attributes(&arrow.attributes, out)
}

fn write_arrows(arrows: &[Arrow], out: &mut DotText) -> Result<(), OutOfMemory>
    ensures { OnOk result (out.new ≡ out.old ++ edges_text (map edge_of arrows.now)) }
{
    for arrow in arrows {
        write_arrow(arrow, out)?;
    }
    Ok(())
}

/// Writes what is set for the whole graph, for all nodes and for all edges.
fn write_heading(graph: &Graph, out: &mut DotText) -> Result<(), OutOfMemory>
    ensures { OnOk result (out.new ≡ out.old ++ heading_text (drawing_of graph.now)) }
{
    out.text("digraph {\ngraph")?;
    write_attributes(&graph.whole, out)?;
    out.text("node")?;
    write_attributes(&graph.all_nodes, out)?;
    out.text("edge")?;
    write_attributes(&graph.all_edges, out)
}

/// The text of a graph, a statement a line.
pub fn write_graph(alloc: Global, graph: &Graph) -> Result<Vec<u8>, OutOfMemory>
    ensures { IfOk result (λ bytes. bytes.items ≡ graph_text (drawing_of graph.now)) }
{
    let mut out = DotText::new(alloc);
    write_heading(graph, &mut out)?;
    write_vertices(&graph.vertices, &mut out)?;
    write_clusters(&graph.clusters, &mut out)?;
    write_arrows(&graph.arrows, &mut out)?;
    out.text("}\n")?;
    Ok(out.into_bytes())
}
