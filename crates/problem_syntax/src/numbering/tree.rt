//! Trees of problem files with numbers in place of names.

use heap_syntax::Version;

/// A term: `nil`, or a variable with its number from 0. A variable has two tokens where it is primed, and else one.
#[derive(Clone, Copy, PartialEq, Eq)]
pub enum NumberedTerm {
    Nil,
    /// In a case a parameter.
    Universal(usize, bool),
    /// In a case a local.
    Existential(usize, bool),
}

/// A symbolic heap over numbered terms.
pub type NumberedHeap<'a> = heap_syntax::HeapTree<'a, NumberedTerm>;

/// An end of the program.
pub type NumberedEnd<'a> = heap_syntax::ends::EndTree<'a, NumberedTerm>;

/// The definition of a predicate, with its parameters' names and its cases.
#[derive(Drop)]
pub struct NumberedDefinition<'a> {
    pub name: &'a str,
    pub parameters: Vec<&'a str>,
    pub cases: Vec<NumberedHeap<'a>>,
}

/// What is to be proved.
#[derive(Drop)]
pub enum NumberedGoal<'a> {
    /// The antecedent, and at least one disjunct.
    Entailment(NumberedHeap<'a>, Vec<NumberedHeap<'a>>),
    /// The number of a line, and the symbolic state there.
    From(u32, NumberedHeap<'a>),
}

/// A problem file.
#[derive(Drop)]
pub struct NumberedProblem<'a> {
    pub version: Version,
    pub definitions: Vec<NumberedDefinition<'a>>,
    pub lines: Vec<heap_syntax::lines::LineTree<usize>>,
    pub ends: Vec<NumberedEnd<'a>>,
    pub goal: NumberedGoal<'a>,
}
