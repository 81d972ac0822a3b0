//! The disjunctive form of formulas of scripts: cases, each of them pure atoms and atoms over the heap below
//! quantifiers.

mod bound;
mod case;
mod cases;
mod disjunctive;
mod joining;
mod literals;
mod refused;
mod shifting;

pub use case::Case;
pub use disjunctive::disjunctive_form;
pub use joining::{Way, joined_cases};
pub use refused::{Refused, Unsupported};
