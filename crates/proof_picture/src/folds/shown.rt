//! What stands in a folded picture.
use crate::{Arrow, Label};
use heap_formula::RuleFault;

/// A box: its first node and its last; of a closed subtree the number of nodes; whether its last node is a bud that
/// uses a lemma; its text; the fault of its node, where the verdict names that; and the edges of its last node, none of
/// a closed subtree.
#[derive(Drop)]
pub struct ShownBox {
    pub first: u32,
    pub last: usize,
    pub count: Option<u32>,
    pub uses_lemma: bool,
    pub label: Label,
    pub fault: Option<RuleFault>,
    pub arrows: Vec<Arrow>,
}

/// A tree of a proof: what it says, its root's judgement, where it is a lemma's and so not the first; and its boxes.
#[derive(Drop)]
pub struct Tree {
    pub says: Option<Label>,
    pub boxes: Vec<ShownBox>,
}

/// The picture of a proof as trees, the first one that of node 0, and whether no verdict is known.
#[derive(Drop)]
pub struct FoldedPicture {
    pub trees: Vec<Tree>,
    pub is_large: bool,
}
