//! Statements as trees, where one of several kinds may come.

use crate::{DefinitionTree, EndTree, LineTree, NodeTree};

/// A statement that may come after an end.
#[derive(Drop)]
pub enum EndOrNode<'a> {
    End(EndTree<'a>),
    Node(NodeTree<'a>),
}

/// A statement that may come after a line.
#[derive(Drop)]
pub enum LineOrLater<'a> {
    Line(LineTree),
    Later(EndOrNode<'a>),
}

/// A statement that may come after the first one or a definition.
#[derive(Drop)]
pub enum PredOrLater<'a> {
    Pred(DefinitionTree<'a>),
    Later(LineOrLater<'a>),
}

/// A statement that may come after a node.
#[derive(Drop)]
pub enum NodeOrLast<'a> {
    Node(NodeTree<'a>),
    Last,
}
