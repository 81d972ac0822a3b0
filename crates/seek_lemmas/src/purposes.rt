// What is to be reached at a node.
use heap_formula::{Heap, Judgement};
use rule_table::{is_universal_pure, is_universal_spatial};

/// What is to be reached at a node. Where `is_ready` does not hold the antecedent is brought into form first.
#[derive(Drop)]
pub enum Purpose {
    /// The one atom of the right side without a partner grows from its root; links may lead to these nodes.
    Grow {
        companions: Vec<u32>,
        fuel: u32,
        is_ready: bool,
    },
    /// The first node's contradiction, by induction.
    Contradict {
        is_ready: bool,
    },
    /// An entailment with one disjunct without existentials; so many Splits deep.
    Whole {
        fuel: i32,
        is_ready: bool,
    },
    /// An entailment with one disjunct with existentials.
    Open {
        fuel: i32,
        is_ready: bool,
    },
    /// An entailment with several disjuncts.
    Several {
        fuel: i32,
        is_ready: bool,
    },
}

/// A node, and what is to be reached there.
#[derive(Drop)]
pub struct Goal {
    pub node: u32,
    pub purpose: Purpose,
}

/// The goals that a move leaves, if there is such a move; else there are no more moves.
pub type Moved = Result<Option<Vec<Goal>>, seek_trees::Stop>;

fn is_universal_heap(heap: &Heap) -> bool {
    for atom in heap.pure() {
        if !is_universal_pure(*atom) {
            return false;
        }
    }
    for atom in heap.spatial() {
        if !is_universal_spatial(atom) {
            return false;
        }
    }
    true
}

/// Whether there is one disjunct, without existentials.
pub fn is_plain(heaps: &[Heap]) -> bool {
    match heaps {
        [heap] => is_universal_heap(heap),
        _ => false,
    }
}

/// The purpose for a judgement's succedent.
pub fn purpose_for(judgement: &Judgement, fuel: i32) -> Purpose {
    let heaps = match judgement {
        Judgement::Entail(_, right) => right.heaps(),
        Judgement::Term(_, _) => &[],
    };
    if heaps.len() != 1 {
        return Purpose::Several {
            fuel,
            is_ready: false,
        };
    }
    if is_plain(heaps) {
        Purpose::Whole {
            fuel,
            is_ready: false,
        }
    } else {
        Purpose::Open {
            fuel,
            is_ready: false,
        }
    }
}
