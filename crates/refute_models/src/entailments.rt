// The search for a counter-model of an entailment.
use crate::deciding::{Decider, Decision, MODEL_WORK};
use crate::inquiries::{Inquiry, Look, Verdict};
use crate::searching::Search;
use cyc_basics::memory::OutOfMemory;
use heap_formula::{Heap, bound_of_heap};
use pred_defs::Defs;
use refute_unfoldings::Model;
use std::alloc::Global;

/// The disjuncts of which none is to hold.
#[derive(Clone, Copy)]
struct Succedent<'a> {
    alloc: Global,
    defs: &'a Defs,
    disjuncts: &'a [Heap],
}

fn is_shorter(pairs: &[(u64, u64)], best: &Option<Vec<(u64, u64)>>) -> bool {
    match best {
        Some(best) => pairs.len() < best.len(),
        None => true,
    }
}

impl Inquiry for Succedent<'_> {
    /// Decides the disjuncts: of those that hold the one that needs the fewest pairs of values to differ counts.
    fn look(&self, model: &Model, _age: u32) -> Result<Look, OutOfMemory> {
        let mut best: Option<Vec<(u64, u64)>> = None;
        let mut is_whole = true;
        let mut decider = Decider::new(self.alloc, self.defs, model, MODEL_WORK);
        for disjunct in self.disjuncts {
            match decider.decide(disjunct)? {
                Decision::Holds(pairs) => {
                    if is_shorter(&pairs, &best) {
                        best = Some(pairs);
                    }
                }
                Decision::Fails => {}
                Decision::Unknown => is_whole = false,
            }
        }
        let work = decider.work();
        let verdict = match best {
            Some(pairs) => Verdict::Otherwise(pairs),
            None if is_whole => Verdict::Sought,
            None => Verdict::Otherwise(Vec::new(self.alloc)),
        };
        Ok(Look {
            verdict,
            is_whole,
            work,
        })
    }
}

/// Searches in so many rounds for a stack and a heap that satisfy the antecedent and none of the disjuncts. Each round
/// does twice the work of the one before it.
pub fn counter_model(
    alloc: Global,
    defs: &Defs,
    antecedent: &Heap,
    disjuncts: &[Heap],
    rounds: u32,
) -> Result<Option<Model>, OutOfMemory> {
    let mut variables = bound_of_heap(antecedent);
    for disjunct in disjuncts {
        variables = variables.max(bound_of_heap(disjunct));
    }
    let succedent = Succedent {
        alloc,
        defs,
        disjuncts,
    };
    let search = Search {
        alloc,
        defs,
        formula: antecedent,
        variables: variables.min(65_535) as u16,
        inquiry: &succedent,
    };
    search.run(rounds)
}
