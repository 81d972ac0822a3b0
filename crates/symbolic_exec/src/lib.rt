//! Symbolic execution of a command: what is left to prove of the program's runs from the lines to which the command
//! leads (Brotherston, Bornat and Calcagno 2008).
#![tactic(auto)]

mod cells;
mod commands;
mod exec;
mod states;

pub use cyc_basics::memory::OutOfMemory;
pub use exec::premises_exec;
