// The search for a model of an antecedent no part of which satisfies what is asked for.
use crate::deciding::{Decider, Decision, MODEL_WORK};
use crate::inquiries::{Inquiry, Look, Verdict};
use crate::searching::Search;
use cyc_basics::memory::OutOfMemory;
use heap_formula::{Heap, bound_of_heap};
use pred_defs::Defs;
use refute_unfoldings::Model;
use std::alloc::Global;

/// What no part of a model is to satisfy.
#[derive(Clone, Copy)]
struct Missing<'a> {
    alloc: Global,
    defs: &'a Defs,
    wanted: &'a Heap,
}

impl Inquiry for Missing<'_> {
    /// Decides whether some part satisfies it, with the pairs of values that this needs to differ.
    fn look(&self, model: &Model, _age: u32) -> Result<Look, OutOfMemory> {
        let mut decider = Decider::new(self.alloc, self.defs, model, MODEL_WORK);
        let decision = decider.decide_part(self.wanted)?;
        let is_whole = !matches!(decision, Decision::Unknown);
        let verdict = match decision {
            Decision::Holds(pairs) => Verdict::Otherwise(pairs),
            Decision::Fails => Verdict::Sought,
            Decision::Unknown => Verdict::Otherwise(Vec::new(self.alloc)),
        };
        Ok(Look {
            verdict,
            is_whole,
            work: decider.work(),
        })
    }
}

/// Searches in so many rounds for a stack and a heap that satisfy the antecedent, where no part of the heap satisfies
/// what is asked for: then no frame is left beside that. Each round does twice the work of the one before it.
pub fn model_without_part(
    alloc: Global,
    defs: &Defs,
    antecedent: &Heap,
    wanted: &Heap,
    rounds: u32,
) -> Result<Option<Model>, OutOfMemory> {
    let variables = bound_of_heap(antecedent).max(bound_of_heap(wanted));
    let missing = Missing {
        alloc,
        defs,
        wanted,
    };
    let search = Search {
        alloc,
        defs,
        formula: antecedent,
        variables: variables.min(65_535) as u16,
        inquiry: &missing,
    };
    search.run(rounds)
}
