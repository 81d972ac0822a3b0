//! A search for a contradiction in an antecedent: single atoms, pairs of atoms, then all are cut by `nil != nil`, and
//! that is shown by unfolding, with links and with the contradictions found so far as lemmas.
#![tactic(auto)]

mod maps;
mod refuting;
mod unfolds;

pub use refuting::refutation;
