//! Trees of model files: what a text of the grammar says, with lists of any length and numbers of at most nine digits.

use crate::version::ModelVersion;
use heap_syntax::definitions::{DefinitionTree, HeapTree};

/// A cell of the given heap, `address -> (fields)`, which has at least one field.
#[derive(Drop)]
pub struct CellTree {
    pub address: u32,
    pub fields: Vec<u32>,
}

/// A model file: its version, the definitions, the values of the stack, the cells in the order of the text, and the
/// asked formula.
#[derive(Drop)]
pub struct ModelTree<'a> {
    pub version: ModelVersion,
    pub definitions: Vec<DefinitionTree<'a>>,
    pub stack: Vec<u32>,
    pub cells: Vec<CellTree>,
    pub ask: HeapTree<'a>,
}
