//! Whether a node may stand in a proof file. For nodes that come from a search of which nothing is known.

mod nodes;
mod rules;
mod terms;

pub use nodes::are_nodes_within;
