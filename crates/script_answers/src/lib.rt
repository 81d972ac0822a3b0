//! What is answered to scripts that cannot be read, or cannot be said; and the problems that the others become, as
//! texts.
#![tactic(auto)]

mod asked;
mod begins;
mod lines;
pub mod texts;
mod words;

pub use asked::{Asked, AskedScript, asked_of_script};
pub use begins::is_script;
pub use cyc_basics::memory::OutOfMemory;
pub use lines::answer_to_script_fault;
