//! Scripts read: trees to formulas with sorts. Each name is resolved, each sort is checked, and what is defined stands
//! in its place. No call recurses: what is still to be read lies in a list.
#![tactic(auto)]

mod commands;
mod declarations;
mod faults;
mod globals;
mod machine;
mod scopes;
mod script;
mod terms;
pub mod trees;
mod values;
mod words;
mod work;

pub use cyc_basics::memory::OutOfMemory;
pub use faults::{IllScript, ScriptFault, ScriptLimit, Unsupported};
pub use script::{NamedScript, read_script};
