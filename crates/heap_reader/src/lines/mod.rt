//! Commands as values, from trees over variables of any form, and the first flaw of the lines of a program: what is
//! ill-formed or passes a limit, and at which token.

mod command_values;
mod form;
mod line_walk;

pub use command_values::command;
pub use form::VariableReader;
pub use line_walk::walk_lines;
