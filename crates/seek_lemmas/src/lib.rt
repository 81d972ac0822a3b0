//! A search for proofs of large entailments by small lemmas. What is to be shown is divided into parts that share no
//! variable; a part by a plan, which matches the atoms of the two sides as edges of graphs (after Cook, Haase,
//! Ouaknine, Parkinson and Worrell 2011); a step of a plan is a lemma, whose proof is a tree of its own behind the main
//! one. Goals stand on an explicit stack, and a move that needs an unknown lemma is made again as soon as that is
//! known.
#![tactic(auto)]

mod attempts;
mod far_proofs;
mod fits;
mod growing;
mod jobs;
mod merging;
mod opening;
mod purposes;
mod right_steps;
mod several;
mod trials;
mod wholes;

pub use jobs::prove;
