// What the searches may spend.
use refute_models::doubled;

/// The effort where none is asked for, and the greatest one.
pub const DEFAULT_EFFORT: u32 = 3;

pub const MOST_EFFORT: u32 = 9;

/// What the searches may spend. All are counts and none a time, so that a problem has the same answer each time.
#[derive(Clone, Copy)]
pub struct Budget {
    /// Base pairs of all predicates, and ways to choose them for the antecedent, in the test of the antecedent.
    pub pairs: u32,
    /// What the states of a case or of the antecedent may be in size there.
    pub states: u32,
    /// Steps of the search with a goal stack.
    pub steps: u32,
    /// Steps of the search by lemmas.
    pub lemma_steps: u32,
    /// Steps of the search for a contradiction.
    pub contradiction_steps: u32,
    /// Partial derivations of the search by fixed moves at each depth; 0 where it is not made.
    pub derivations: u32,
    /// Rounds of the search for a counter-model or a faulty run; each does twice the work of the one before it.
    pub rounds: u32,
}

impl Budget {
    /// What is spent first: short proofs and small counter-models come of it.
    pub fn small() -> Budget {
        Budget {
            pairs: 1_000,
            states: 250_000,
            steps: 300,
            lemma_steps: 1_000,
            contradiction_steps: 0,
            derivations: 0,
            rounds: 1,
        }
    }

    /// The whole budget of an effort from 1 to 9: each step of effort doubles the counts.
    pub fn whole(effort: u32) -> Budget {
        let steps = effort.min(MOST_EFFORT).saturating_sub(1);
        Budget {
            pairs: doubled(1_000, steps),
            states: 1_000_000,
            steps: doubled(7_500, steps),
            lemma_steps: doubled(5_000, steps),
            contradiction_steps: doubled(1_500, steps),
            derivations: doubled(1_000, steps),
            rounds: steps.max(1),
        }
    }
}
