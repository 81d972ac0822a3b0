// An entailment as the moves see it.
use crate::{Aim, Setting};
use heap_formula::{Heap, Judgement};

/// An entailment with one disjunct, and the fuel that is left.
#[derive(Clone, Copy)]
pub struct Sequent<'a> {
    pub setting: Setting<'a>,
    pub judgement: &'a Judgement,
    pub left: &'a Heap,
    pub right: &'a Heap,
    pub fuel: u32,
}

impl Sequent<'_> {
    /// A proof with the fuel that there is.
    pub fn same(&self) -> Aim {
        Aim::Entail(self.fuel)
    }

    /// A proof with one less.
    pub fn less(&self) -> Aim {
        Aim::Entail(self.fuel.saturating_sub(1))
    }
}
