// The tree of a goal or of a lemma.
use cyc_basics::memory::OutOfMemory;
use heap_formula::Judgement;
use seek_engine::Draft;
use std::alloc::Global;

/// A node that a link to a lemma's root closes; in the draft it has no edge.
#[derive(Clone, Copy)]
pub struct LemmaUse {
    pub node: u32,
    pub lemma: u32,
}

/// A draft, and its nodes that lemmas close.
#[derive(Drop)]
pub struct Tree {
    pub draft: Draft,
    pub uses: Vec<LemmaUse>,
}

impl Tree {
    /// The tree of one open node.
    pub fn new(alloc: Global, goal: &Judgement) -> Result<Tree, OutOfMemory> {
        Ok(Tree {
            draft: Draft::new(alloc, goal)?,
            uses: Vec::new(alloc),
        })
    }

    /// The number of nodes.
    pub fn len(&self) -> usize {
        self.draft.len()
    }

    /// Opens a node again, and cuts off all nodes from a number on.
    pub fn undo(&mut self, node: u32, kept: usize) {
        self.draft.reopen(node, kept);
        self.uses
            .retain(|it| it.node != node && (it.node as usize) < kept);
    }
}
