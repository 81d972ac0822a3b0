//! Trees of a proof that grow by rules, with lemmas that have trees of their own; and what is done to an antecedent at
//! every goal: normal form, contradictions, and the facts that its paths show. Nothing here is promised of a tree
//! beyond its shape: what is found is checked before it counts.
#![tactic(auto)]

mod apartness;
mod contradictory;
mod far_ends;
mod lemma_uses;
mod memo;
mod normal;
mod renaming;
mod saturated;
mod shared;
mod stop;
mod tree;
mod work;

pub use lemma_uses::Instance;
pub use memo::{Effort, KnownLemma, Memo, Question};
pub use renaming::Renaming;
pub use shared::shared_rule;
pub use stop::Stop;
pub use tree::{LemmaUse, Tree};
pub use work::Work;
