//! What every other crate uses: out of memory, the limits of the formats, words and facts about lists, sets of
//! positions.
#![tactic(auto)]

pub mod limits;
pub mod memory;
pub mod positions;
