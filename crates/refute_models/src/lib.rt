//! A free search for counter-models of entailments: models of symbolic unfoldings of the antecedent are looked at one
//! by one. Where a disjunct holds, the model is made less general by a pair of values that the disjunct's derivation
//! needs to differ. The same goes for models no part of which satisfies a formula. Nothing is promised of what is found.
#![tactic(auto)]

mod cell_sets;
mod deciding;
mod entailments;
mod goals;
mod inquiries;
mod merging;
mod missing;
mod parts;
mod searching;
mod solving;

pub use cyc_basics::memory::OutOfMemory;
pub use entailments::counter_model;
pub use inquiries::{Inquiry, Look, Verdict, doubled};
pub use missing::model_without_part;
pub use refute_unfoldings::{Cell, Model};
pub use searching::Search;
