//! Model files: a stack, a heap and the formula that is asked of them. Reading a text, with the exact place of each
//! fault, and writing one that is read again.
#![tactic(auto)]

mod cell_values;
mod file;
mod reading;
pub mod syntax;
mod trees;
mod version;
mod walk;
mod writing;

pub use file::Model;
pub use reading::read_model;
pub use version::{ModelVersion, read_model_version, write_model_version};
pub use writing::{bytes_spell_one_model, write_model, written_models_are_read_again};
