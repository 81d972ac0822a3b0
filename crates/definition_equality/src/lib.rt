//! Whether two lists of definitions, or two programs, are one as data.
#![tactic(auto)]

mod commands;
mod definitions;

pub use commands::are_same_commands;
pub use definitions::are_same_definitions;
