//! Rules that put one formula in the place of another: Unfold and UnfoldRight, a case in the place of a predicate
//! (Brotherston, Bornat and Calcagno 2008), and Cut, a formula in the place of atoms that entail it.
#![tactic(auto)]

mod cut;
mod joining;
mod unfold;
mod unfold_right;

pub use cut::premises_cut;
pub use cyc_basics::memory::OutOfMemory;
pub use unfold::premises_unfold;
pub use unfold_right::premises_unfold_right;
