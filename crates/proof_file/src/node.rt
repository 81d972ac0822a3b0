// The nodes of a proof.
ghost use Rattle.std.specs.Prelude.{◌≡◌};

use heap_formula::{Judgement, Reason};
use logics::ProofNode;
use std::marker::Model;

/// A node of a proof: its judgement, why it holds, and the numbers of its premises' nodes, from 0.
pub type FileNode = ProofNode<Judgement, Reason>;

/// The nodes of a proof in the order of their numbers.
#[derive(Drop)]
pub struct FileNodes {
    items: Vec<FileNode>,
}

impl Model for FileNodes {
    ghost use Rattle.std.specs.Prelude.{List};
    ghost use Rattle.proof_file.specs.FileNodes.{FileNode};

    ghost Value = { List FileNode };

    ghost view = { λ n. n.items.items };
}

impl FileNodes {
    /// These nodes in this order, without a copy.
    pub fn from_vec(items: Vec<FileNode>) -> FileNodes
        ensures { result ≡ items.items }
    {
        FileNodes { items }
    }

    /// The nodes in order.
    pub fn as_slice(&self) -> &[FileNode]
        ensures { result.now ≡ self.now }
    {
        &self.items
    }
}
