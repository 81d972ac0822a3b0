//! Problems of first-order logic.

use fo_formula::{FoSequent, FoTheory};

/// A problem: a theory, and the sequent that is to be proved.
#[derive(Drop)]
pub struct FoProblem {
    pub theory: FoTheory,
    pub goal: FoSequent,
}
