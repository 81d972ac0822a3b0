//! The rules of first-order logic with inductive definitions (Brotherston and Simpson 2011), as functions that compute
//! on plain data: the first fault or the premises, with their trace pairs. Each rule is locally sound.

mod faults;
pub mod laws;
mod premises;

pub use cyc_basics::memory::OutOfMemory;
pub use faults::{FoFault, FoRuleError};
pub use premises::FoPremise;
