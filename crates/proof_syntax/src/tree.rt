//! Trees of proof files: what a text of the grammar says, with lists of any length and numbers of at most nine digits.

use heap_syntax::Version;
pub use heap_syntax::definitions::{
    DefinitionTree, EndTree, HeapTree, PureTree, SpatialTree, TermTree,
};

/// A line of the program; a program variable is the number after its `$`.
pub type LineTree = heap_syntax::lines::LineTree<u32>;

/// An entailment; the antecedent has universal variables alone, and there is at least one disjunct.
#[derive(Drop)]
pub struct EntailmentTree<'a> {
    pub antecedent: HeapTree<'a>,
    pub disjuncts: Vec<HeapTree<'a>>,
}

/// What a node says.
#[derive(Drop)]
pub enum JudgementTree<'a> {
    Entailment(EntailmentTree<'a>),
    /// The number of a line, and the symbolic state there, which has universal variables alone.
    From(u32, HeapTree<'a>),
}

/// The side of an equation that is replaced.
#[derive(Clone, Copy)]
pub enum SideTree {
    Left,
    Right,
}

/// An entry of a substitution, `$variable := value`, with a universal variable or `nil` as its value.
#[derive(Clone, Copy)]
pub struct PairTree {
    pub variable: u32,
    pub value: TermTree,
}

/// A link from a bud to its companion (Brotherston, Gorogiannis and Petersen 2012).
#[derive(Drop)]
pub struct LinkTree {
    pub target: u32,
    pub substitution: Vec<PairTree>,
    pub map: Vec<u32>,
    pub disjuncts: Vec<u32>,
}

/// Why a node's judgement holds: a rule with its numbers, terms and formula, or a link.
#[derive(Drop)]
pub enum ReasonTree<'a> {
    Absurd,
    Rewrite(u32, SideTree),
    Split(TermTree, TermTree),
    Distinct(u32, u32),
    Weaken(u32),
    Unfold(u32),
    Cut(Vec<u32>, HeapTree<'a>),
    Done,
    Choose(u32),
    PureRight(u32),
    Instantiate(u32, TermTree),
    Frame(u32, u32),
    UnfoldRight(u32, u32),
    Exec,
    Drop(u32),
    Link(LinkTree),
}

/// A node of a proof; the numbers of its premises count nodes from 0.
#[derive(Drop)]
pub struct NodeTree<'a> {
    pub judgement: JudgementTree<'a>,
    pub reason: ReasonTree<'a>,
    pub premises: Vec<u32>,
}

/// A proof file, which has at least one node.
#[derive(Drop)]
pub struct FileTree<'a> {
    pub version: Version,
    pub definitions: Vec<DefinitionTree<'a>>,
    pub lines: Vec<LineTree>,
    pub ends: Vec<EndTree<'a>>,
    pub nodes: Vec<NodeTree<'a>>,
}
