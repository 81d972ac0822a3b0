//! Proof graphs: the nodes of a proof under construction, as the list that the calls made (Brotherston, Gorogiannis and
//! Petersen 2012), and the trace graph of such a list. What a graph holds lies in an arena.
#![tactic(auto)]

mod graph;
mod graph_nodes;
mod heap_lists;
mod heap_views;
mod nodes;
mod reason_views;
mod traces;

pub use cyc_basics::memory::OutOfMemory;
pub use graph::{Graph, GraphFault};
pub use graph_nodes::NodeView;
pub use heap_views::{DisjunctsView, HeapView, JudgementView};
pub use nodes::{GraphNode, GraphPremise, GraphPremises, PremisePairs, PremiseView};
pub use reason_views::{LinkView, ReasonView, RuleView};
pub use traces::{predicate_positions, trace_edge, trace_edges};
