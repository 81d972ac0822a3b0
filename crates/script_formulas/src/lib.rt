//! Scripts of the competition of solvers for separation logic (Sighireanu et al. 2019: SMT-LIB 2.6 with heaps) as plain
//! data, once names are resolved and sorts are checked. What they mean stands in specs/.
#![tactic(auto)]

pub mod cases;
mod formula;
pub mod goals;
pub mod laws;
mod limits;
pub mod problems;
mod script;

pub use formula::{ScriptAtom, ScriptFormula};
pub use heap_formula::{Args, OutOfMemory, Pure, Term};
pub use script::{Constant, Constructor, Predicate, Script};
