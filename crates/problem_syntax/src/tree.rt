//! Trees of problem files: what a text of the grammar says, with lists of any length and numbers of at most nine
//! digits.

use heap_syntax::Version;

/// A term: `nil`, a name, or a name with a prime after it.
#[derive(Clone, Copy)]
pub enum NameTree<'a> {
    Nil,
    Plain(&'a str),
    Primed(&'a str),
}

/// A symbolic heap over names.
pub type HeapTree<'a> = heap_syntax::HeapTree<'a, NameTree<'a>>;

/// A line of the program.
pub type LineTree<'a> = heap_syntax::lines::LineTree<&'a str>;

/// An end of the program.
pub type EndTree<'a> = heap_syntax::ends::EndTree<'a, NameTree<'a>>;

/// The definition of a predicate, which has at least one case; no name in the cases is primed.
#[derive(Drop)]
pub struct DefinitionTree<'a> {
    pub name: &'a str,
    pub parameters: Vec<&'a str>,
    pub cases: Vec<HeapTree<'a>>,
}

/// What is to be proved.
#[derive(Drop)]
pub enum GoalTree<'a> {
    /// The antecedent, and at least one disjunct.
    Entailment(HeapTree<'a>, Vec<HeapTree<'a>>),
    /// The number of a line, and the symbolic state there.
    From(u32, HeapTree<'a>),
}

/// A problem file.
#[derive(Drop)]
pub struct ProblemTree<'a> {
    pub version: Version,
    pub definitions: Vec<DefinitionTree<'a>>,
    pub lines: Vec<LineTree<'a>>,
    pub ends: Vec<EndTree<'a>>,
    pub goal: GoalTree<'a>,
}
