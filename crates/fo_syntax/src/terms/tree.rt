//! Trees of terms and atoms: what a text of the grammar says, with lists of any length.

/// A sign of a term in prefix notation (Łukasiewicz 1929): a variable `$n`, a local `?n` of a case, or a name with its
/// number of arguments, which come next, one after the other.
#[derive(Clone, Copy)]
pub enum SignTree<'a> {
    Variable(u32),
    Local(u32),
    Apply(&'a str, usize),
}

/// An atom: an equation of two terms, or a predicate's name with its arguments, which has the form of a term.
#[derive(Drop)]
pub enum AtomTree<'a> {
    Equation(Vec<SignTree<'a>>, Vec<SignTree<'a>>),
    Predicate(Vec<SignTree<'a>>),
}
