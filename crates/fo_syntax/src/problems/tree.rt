//! Trees of theories, sequents and problem files of first-order logic: what a text says, with lists of any length and
//! numbers of any value.

use crate::terms::AtomTree;

/// A constructor: its name and its number of arguments.
#[derive(Clone, Copy)]
pub struct ConstructorTree<'a> {
    pub name: &'a str,
    pub arguments: u32,
}

/// An inductive definition (Martin-Löf 1971): a predicate, its number of parameters, and its cases, each of them a
/// list of atoms.
#[derive(Drop)]
pub struct DefinitionTree<'a> {
    pub name: &'a str,
    pub arity: u32,
    pub cases: Vec<Vec<AtomTree<'a>>>,
}

/// A sequent (Gentzen 1935).
#[derive(Drop)]
pub struct SequentTree<'a> {
    pub left: Vec<AtomTree<'a>>,
    pub right: Vec<AtomTree<'a>>,
}

/// A problem file, which has at least one constructor.
#[derive(Drop)]
pub struct ProblemTree<'a> {
    pub constructors: Vec<ConstructorTree<'a>>,
    pub definitions: Vec<DefinitionTree<'a>>,
    pub goal: SequentTree<'a>,
}
