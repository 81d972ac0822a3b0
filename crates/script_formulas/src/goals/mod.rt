//! Scripts of the competition as definitions and a goal.

mod antecedents;
mod building;
mod heaps;
mod names;
mod occurrences;
mod question;
mod reached;
mod refusal;
mod sorts;
mod succedents;
mod translation;
mod widths;

pub use crate::cases::Unsupported;
pub use question::{Question, ScriptGoal};
pub use refusal::{Place, ScriptRefusal};
pub use translation::goal_of_script;
