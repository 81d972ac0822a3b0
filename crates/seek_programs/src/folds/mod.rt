//! Folding atoms of a goal, so that a link to a companion covers it: the atom that is missing comes in by Cut, from
//! other atoms that entail it (as in Brotherston, Gorogiannis and Petersen 2012, where a case is folded; here any short
//! proof serves).

mod fingerprints;
mod fitting;
mod folding;
mod parts;
mod places;
mod pures;
mod strategy;

pub use fitting::Fitting;
pub use parts::{cut_rule, heap_of, part_of};
pub use places::{Places, subsets};
pub use strategy::{Folds, push_turns};
