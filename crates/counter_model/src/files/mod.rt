//! Model files of counter-models: a problem's definitions and antecedent, with a stack and a heap that come from a
//! search.

mod model_files;
mod states;

pub use cyc_basics::memory::OutOfMemory;
pub use model_files::{model_for, plain_model};
