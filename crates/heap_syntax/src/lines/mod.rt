//! The lines of a program as trees over variables of any form: their grammar, and reading them from tokens.

mod form;
mod read_commands;
mod read_lines;
mod tree;

pub use form::{VariableForm, WrittenVariable};
pub use read_lines::{line, lines};
pub use tree::{ChangeTree, CommandTree, LineTree, OperandTree};
