//! Rules that match the two sides of an entailment: Done, Choose, PureRight, Instantiate and Frame. None of them says
//! anything of a judgement on a program's runs.
#![tactic(auto)]

mod choose;
mod done;
mod frame;
mod instantiate;
mod pure_right;

pub use choose::premises_choose;
pub use cyc_basics::memory::OutOfMemory;
pub use done::premises_done;
pub use frame::premises_frame;
pub use instantiate::premises_instantiate;
pub use pure_right::premises_pure_right;
