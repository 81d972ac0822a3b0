//! Trees of symbolic heaps: what a text of the grammar says, with lists of any length.

/// A pure atom, `left = right` or `left != right`.
#[derive(Clone, Copy)]
pub struct PureTree<T> {
    pub left: T,
    pub is_equation: bool,
    pub right: T,
}

/// A spatial atom: a cell `address -> (fields)`, which has at least one field, or a predicate `name(arguments)`.
#[derive(Drop)]
pub enum SpatialTree<'a, T> {
    Cell(T, Vec<T>),
    Predicate(&'a str, Vec<T>),
}

/// A symbolic heap, `pure : spatial` (Reynolds 2002; Berdine, Calcagno and O'Hearn 2004).
#[derive(Drop)]
pub struct HeapTree<'a, T> {
    pub pure: Vec<PureTree<T>>,
    pub spatial: Vec<SpatialTree<'a, T>>,
}
