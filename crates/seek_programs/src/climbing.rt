// The way from a node up to the first.
use heap_formula::{Judgement, Reason, Rule};
use seek_engine::{Draft, DraftNode, MOST_DRAFT_NODES};

fn parent<'a>(draft: &'a Draft, node: Option<&'a DraftNode>) -> Option<&'a DraftNode> {
    match node?.parent {
        Some(number) => draft.node(number),
        None => None,
    }
}

/// How many nodes above execute the line.
pub fn visits(draft: &Draft, node: u32, line: u32) -> u32 {
    let mut count: u32 = 0;
    let mut above = parent(draft, draft.node(node));
    for _ in 0..MOST_DRAFT_NODES {
        let Some(at) = above else {
            return count;
        };
        if let (Some(Reason::Step(Rule::Exec)), Judgement::Term(other, _)) = (
            &at.reason,
            &at.judgement,
        ) {
            if *other == line {
                count = count.saturating_add(1);
            }
        }
        above = parent(draft, above);
    }
    count
}

/// How many nodes above unfold, up to the first that executes.
pub fn unfolds_here(draft: &Draft, node: u32) -> u32 {
    let mut count: u32 = 0;
    let mut above = parent(draft, draft.node(node));
    for _ in 0..MOST_DRAFT_NODES {
        let Some(at) = above else {
            return count;
        };
        match &at.reason {
            Some(Reason::Step(Rule::Exec)) => return count,
            Some(Reason::Step(Rule::Unfold(_))) => count = count.saturating_add(1),
            _ => {}
        }
        above = parent(draft, above);
    }
    count
}
