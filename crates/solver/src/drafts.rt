// A draft in which every node is closed as the nodes of a file.
use cyc_basics::memory::OutOfMemory;
use heap_formula::Reason;
use logics::Numbers;
use proof_file::FileNode;
use seek_engine::{Draft, DraftEdge, DraftNode};
use std::alloc::Global;

/// The numbers of a node's premises; a link has none.
fn premises(alloc: Global, reason: &Reason, edges: &[DraftEdge]) -> Result<Numbers, OutOfMemory> {
    let mut numbers = Vec::new(alloc);
    if let Reason::Step(_) = reason {
        for edge in edges {
            if let Some(node) = edge.target {
                numbers.push(node)?;
            }
        }
    }
    Ok(Numbers::from_vec(numbers))
}

fn file_node(alloc: Global, node: &DraftNode) -> Result<Option<FileNode>, OutOfMemory> {
    match &node.reason {
        None => Ok(None),
        Some(reason) => Ok(Some(FileNode {
            judgement: node.judgement.clone()?,
            reason: reason.clone()?,
            premises: premises(alloc, reason, &node.edges)?,
        })),
    }
}

/// The nodes of a draft; fewer where one is open.
pub fn file_nodes(alloc: Global, draft: &Draft) -> Result<Vec<FileNode>, OutOfMemory> {
    let mut nodes = Vec::new(alloc);
    for node in draft.nodes.iter() {
        if let Some(made) = file_node(alloc, node)? {
            nodes.push(made)?;
        }
    }
    Ok(nodes)
}
