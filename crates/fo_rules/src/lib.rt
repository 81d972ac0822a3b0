//! The rules of first-order logic with inductive definitions carried out, and the test of links, as the table has them.
#![tactic(auto)]

mod book;
mod closing;
mod linking;
pub mod parts;
mod replacing;
mod right_cases;
mod splitting;
mod structural;
mod unfolding;

pub use book::premises;
pub use cyc_basics::memory::OutOfMemory;
pub use linking::{link_fault, premises_by_link};
pub use right_cases::cases;
pub use splitting::first_of;
