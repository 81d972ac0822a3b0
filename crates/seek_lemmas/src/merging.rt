// One draft of a tree and of the lemmas that it uses.
use cyc_basics::memory::OutOfMemory;
use heap_formula::{Judgement, Reason};
use seek_engine::{Draft, DraftEdge, DraftNode};
use seek_trees::{LemmaUse, Tree};
use std::alloc::Global;

/// Where a lemma's tree begins, if the lemma is used.
#[derive(Clone, Copy)]
struct Start {
    lemma: u32,
    first: u32,
}

fn is_in(lemmas: &[u32], lemma: u32) -> bool {
    lemmas.contains(&lemma)
}

fn push_uses(used: &mut Vec<u32>, uses: &[LemmaUse]) -> Result<(), OutOfMemory> {
    for it in uses {
        if !is_in(used, it.lemma) {
            used.push(it.lemma)?;
        }
    }
    Ok(())
}

/// The lemmas that the tree uses, or lemmas that it uses.
fn used_lemmas(alloc: Global, tree: &Tree, lemmas: &[Tree]) -> Result<Vec<u32>, OutOfMemory> {
    let mut used = Vec::new(alloc);
    push_uses(&mut used, &tree.uses)?;
    for turn in 0..lemmas.len() {
        let Some(lemma) = used.get(turn) else {
            break;
        };
        if let Some(tree) = lemmas.get(*lemma as usize) {
            push_uses(&mut used, &tree.uses)?;
        }
    }
    used.sort()?;
    Ok(used)
}

fn starts_of(
    alloc: Global,
    tree: &Tree,
    lemmas: &[Tree],
    used: &[u32],
) -> Result<Vec<Start>, OutOfMemory> {
    let mut starts = Vec::new(alloc);
    let mut first = tree.len();
    for lemma in used {
        if let (Some(tree), Ok(number)) = (lemmas.get(*lemma as usize), u32::try_from(first)) {
            starts.push(Start {
                lemma: *lemma,
                first: number,
            })?;
            first = first.saturating_add(tree.len());
        }
    }
    Ok(starts)
}

fn start_of(starts: &[Start], lemma: u32) -> Option<u32> {
    for start in starts {
        if start.lemma == lemma {
            return Some(start.first);
        }
    }
    None
}

fn lemma_at(uses: &[LemmaUse], node: u32) -> Option<u32> {
    for it in uses {
        if it.node == node {
            return Some(it.lemma);
        }
    }
    None
}

/// Moves a link's target: to a lemma's first node, or by an offset.
fn aim_link(node: &mut DraftNode, number: u32, uses: &[LemmaUse], starts: &[Start], offset: u32) {
    if let Some(Reason::Back(link)) = &mut node.reason {
        link.target = match lemma_at(uses, number) {
            Some(lemma) => start_of(starts, lemma).unwrap_or(0),
            None => link.target.saturating_add(offset),
        };
    }
}

fn shift_edges(edges: &mut Vec<DraftEdge>, offset: u32) {
    for edge in edges.iter_mut() {
        if let Some(target) = edge.target {
            edge.target = Some(target.saturating_add(offset));
        }
    }
}

/// Puts a tree's nodes at the end of a draft.
fn push_tree(
    draft: &mut Draft,
    tree: Tree,
    starts: &[Start],
    offset: u32,
) -> Result<(), OutOfMemory> {
    let Tree { draft: own, uses } = tree;
    let mut number: u32 = 0;
    for node in own.nodes {
        let mut node = node;
        aim_link(&mut node, number, &uses, starts, offset);
        shift_edges(&mut node.edges, offset);
        draft.nodes.push(node)?;
        number = number.saturating_add(1);
    }
    Ok(())
}

fn push_lemmas(draft: &mut Draft, lemmas: Vec<Tree>, starts: &[Start]) -> Result<(), OutOfMemory> {
    let mut number: u32 = 0;
    for lemma in lemmas {
        if let Some(offset) = start_of(starts, number) {
            push_tree(draft, lemma, starts, offset)?;
        }
        number = number.saturating_add(1);
    }
    Ok(())
}

/// The nodes of a tree, and behind them those of the lemmas that it uses; links to lemmas lead to their first nodes.
pub fn merged(
    alloc: Global,
    tree: Tree,
    lemmas: Vec<Tree>,
    goal: &Judgement,
) -> Result<Draft, OutOfMemory> {
    let used = used_lemmas(alloc, &tree, &lemmas)?;
    let starts = starts_of(alloc, &tree, &lemmas, &used)?;
    let mut draft = Draft::new(alloc, goal)?;
    draft.nodes.clear();
    push_tree(&mut draft, tree, &starts, 0)?;
    push_lemmas(&mut draft, lemmas, &starts)?;
    Ok(draft)
}
