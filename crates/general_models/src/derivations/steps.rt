// The steps of a derivation.
use goto_lang::Stack;

/// A case of a predicate by its number, and the values of the case's locals by their numbers; a local past the end
/// is 0.
#[derive(Clone, Drop)]
pub struct CaseStep {
    pub case: u32,
    pub locals: Stack,
}
