//! Directed graphs with attributes.

/// How a run of a label looks: as the rest does, or bold in a colour, which DOT names by a word as `blue` or by `#` and
/// six digits.
#[derive(Clone, Copy)]
pub enum Style {
    Plain,
    Bold(&'static str),
}

/// A part of a label: bytes that look alike, or the end of a line, after which the next begins at the left.
#[derive(Drop)]
pub enum Run {
    Text(Style, Vec<u8>),
    Break,
}

/// What an attribute is set to: a string or a label.
#[derive(Drop)]
pub enum Value {
    Quoted(&'static str),
    Label(Vec<Run>),
}

/// An attribute of a graph, a node or an edge; its name is one of DOT's words.
#[derive(Drop)]
pub struct Attribute {
    pub name: &'static str,
    pub value: Value,
}

/// A node, which DOT names by its number.
#[derive(Drop)]
pub struct Vertex {
    pub number: u32,
    pub attributes: Vec<Attribute>,
}

/// Nodes in a frame, which DOT calls a cluster: its number, what is set for it, and the nodes.
#[derive(Drop)]
pub struct Cluster {
    pub number: u32,
    pub attributes: Vec<Attribute>,
    pub vertices: Vec<Vertex>,
}

/// An edge between two nodes.
#[derive(Drop)]
pub struct Arrow {
    pub from: u32,
    pub to: u32,
    pub attributes: Vec<Attribute>,
}

/// A directed graph: what is set for the whole of it, for all nodes and for all edges; then the nodes
/// without a frame, the frames, and the edges.
#[derive(Drop)]
pub struct Graph {
    pub whole: Vec<Attribute>,
    pub all_nodes: Vec<Attribute>,
    pub all_edges: Vec<Attribute>,
    pub vertices: Vec<Vertex>,
    pub clusters: Vec<Cluster>,
    pub arrows: Vec<Arrow>,
}
