//! Folding atoms of a symbolic state into a predicate: each way in which a case of a definition fits atoms of the state
//! gives a Cut (Brotherston, Gorogiannis and Petersen 2012).

mod binding;
mod cases;
mod kinds;
mod placing;

pub use kinds::{is_cell, is_predicate};
pub use placing::folds;
