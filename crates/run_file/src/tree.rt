//! Trees of run files: what a text of the grammar says, with lists of any length and numbers of at most nine digits.

ghost use Rattle.std.specs.Prelude.{◌≡◌};

use general_models::runs::Growth;
use heap_syntax::definitions::{DefinitionTree, EndTree, HeapTree};
use model_file::ModelVersion;
use model_file::syntax::CellTree;
use proof_syntax::LineTree;
use std::alloc::AllocError;

/// What a run picks: the address and the fields of a new cell, or whether a free branch jumps.
#[derive(Drop)]
pub enum PickTree {
    Cell(CellTree),
    Jumps(bool),
}

/// How a run ends.
#[derive(Drop)]
pub enum Outcome {
    /// The command at this line faults, after so many steps.
    Faults { line: u32, step: u32 },
    /// The state after `again` steps is that after `first` steps.
    Repeats { first: u32, again: u32 },
    /// The run comes back to a state like one before, with more.
    Grows(Growth),
    /// After so many steps the run stops at an end of which its state satisfies no disjunct. In version 3 alone.
    Breaks { step: u32 },
}

impl Clone for Outcome {
    ghost is_clone = { λ outcome copy. copy ≡ outcome };

    fn clone(&self) -> Result<Outcome, AllocError> {
        match self {
            Outcome::Faults { line, step } => Ok(Outcome::Faults {
                line: *line,
                step: *step,
            }),
            Outcome::Repeats { first, again } => Ok(Outcome::Repeats {
                first: *first,
                again: *again,
            }),
            Outcome::Grows(growth) => {
                let growth = growth.clone()?;
                Ok(Outcome::Grows(growth))
            }
            Outcome::Breaks { step } => Ok(Outcome::Breaks { step: *step }),
        }
    }
}

/// A run file: its version, a claim of termination with its definitions, lines and ends, the values of the stack, the
/// cells of the heap and the picks in the order of the text, and how the run ends.
#[derive(Drop)]
pub struct RunTree<'a> {
    pub version: ModelVersion,
    pub definitions: Vec<DefinitionTree<'a>>,
    pub lines: Vec<LineTree>,
    pub ends: Vec<EndTree<'a>>,
    pub line: u32,
    pub precondition: HeapTree<'a>,
    pub stack: Vec<u32>,
    pub cells: Vec<CellTree>,
    pub picks: Vec<PickTree>,
    pub outcome: Outcome,
}
