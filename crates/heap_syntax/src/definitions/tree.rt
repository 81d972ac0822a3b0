//! Trees of heaps and definitions with numbered variables: what a text of the grammar says, with lists of any length
//! and numbers of at most nine digits.

/// A term: `nil`, a universal variable `$n` or an existential variable `?n`; in a case of a definition `$n` is
/// parameter n and `?n` local n.
#[derive(Clone, Copy)]
pub enum TermTree {
    Nil,
    Univ(u32),
    Exist(u32),
}

/// A pure atom over these terms.
pub type PureTree = crate::PureTree<TermTree>;

/// A spatial atom over these terms.
pub type SpatialTree<'a> = crate::SpatialTree<'a, TermTree>;

/// A symbolic heap over these terms.
pub type HeapTree<'a> = crate::HeapTree<'a, TermTree>;

/// An end over these terms.
pub type EndTree<'a> = crate::ends::EndTree<'a, TermTree>;

/// The definition of a predicate, which has at least one case.
#[derive(Drop)]
pub struct DefinitionTree<'a> {
    pub name: &'a str,
    pub arity: u32,
    pub cases: Vec<HeapTree<'a>>,
}
