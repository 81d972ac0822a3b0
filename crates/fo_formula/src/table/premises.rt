// The premises of a rule.
use crate::{FoSequent, Pairs};

/// A premise of a rule: what is left to prove, and how the traces of the conclusion's left atoms go on in it.
#[derive(Clone, Drop)]
pub struct FoPremise {
    pub sequent: FoSequent,
    pub pairs: Pairs,
}
