// What terms are chosen for.
use fo_formula::{FoAtom, FoSequent, Terms};

/// Values for the companion's variables, by which a link leads to it.
#[derive(Clone, Copy)]
pub struct LinkValues<'a> {
    pub bud: &'a FoSequent,
    pub companion: &'a FoSequent,
    /// The companion's number.
    pub number: u32,
    /// The companion's variables.
    pub sources: &'a [u16],
}

/// Terms for the locals of a case, by which each of its equations holds of itself or stands on the left.
#[derive(Clone, Copy)]
pub struct CaseLocals<'a> {
    pub left: &'a [FoAtom],
    pub arguments: &'a Terms,
    pub case: &'a [FoAtom],
}

/// What terms are chosen for.
#[derive(Clone, Copy)]
pub enum Wanted<'a> {
    Values(LinkValues<'a>),
    Locals(CaseLocals<'a>),
}
