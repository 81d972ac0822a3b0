//! Trees of proof files of first-order logic: what a text says, with lists of any length and numbers of any value.

use crate::problems::{ConstructorTree, DefinitionTree, SequentTree};
use crate::terms::{AtomTree, SignTree};

/// A side of an equation.
#[derive(Clone, Copy)]
pub enum SideTree {
    Left,
    Right,
}

/// An entry of a substitution, `$variable := value`.
#[derive(Drop)]
pub struct PairTree<'a> {
    pub variable: u32,
    pub value: Vec<SignTree<'a>>,
}

/// A link to a companion: its number, the substitution, and for its atoms on the left and on the right the atoms of
/// the bud.
#[derive(Drop)]
pub struct LinkTree<'a> {
    pub target: u32,
    pub substitution: Vec<PairTree<'a>>,
    pub left: Vec<u32>,
    pub right: Vec<u32>,
}

/// The reason of a node: a rule with its numbers and terms, or a link. Positions count from 0.
#[derive(Drop)]
pub enum ReasonTree<'a> {
    Axiom(u32, u32),
    Refl(u32),
    Clash(u32),
    Decompose(u32),
    Replace(u32, SideTree),
    WeakenLeft(u32),
    WeakenRight(u32),
    Contract(u32),
    Unfold(u32),
    Cut(AtomTree<'a>),
    Right(u32, u32, Vec<Vec<SignTree<'a>>>),
    Link(LinkTree<'a>),
}

/// A node of a proof; the numbers of its premises count nodes from 0.
#[derive(Drop)]
pub struct NodeTree<'a> {
    pub sequent: SequentTree<'a>,
    pub reason: ReasonTree<'a>,
    pub premises: Vec<u32>,
}

/// A proof file, which has at least one constructor and at least one node.
#[derive(Drop)]
pub struct FileTree<'a> {
    pub constructors: Vec<ConstructorTree<'a>>,
    pub definitions: Vec<DefinitionTree<'a>>,
    pub nodes: Vec<NodeTree<'a>>,
}
