//! Rules that change the antecedent, or the symbolic state, alone, or close a branch by it: Absurd, Rewrite, Split,
//! Distinct, Weaken and Drop. Each takes the number `p` of program variables, 0 for an entailment; Rewrite alone looks
//! at it.
#![tactic(auto)]

mod absurd;
mod distinct;
mod drop_atom;
mod rewrite;
mod split;
mod weaken;

pub use absurd::premises_absurd;
pub use cyc_basics::memory::OutOfMemory;
pub use distinct::premises_distinct;
pub use drop_atom::premises_drop;
pub use rewrite::premises_rewrite;
pub use split::premises_split;
pub use weaken::premises_weaken;
