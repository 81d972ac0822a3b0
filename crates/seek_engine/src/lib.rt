//! A search for cyclic proofs that does as it likes: one draft of a proof is grown depth first, by moves that a
//! strategy offers; here are those at entailments. A premise that is closed stays closed, so alternatives add up and do
//! not multiply. Nothing here is promised of what is found beyond its shape: it is checked before it counts.
#![tactic(auto)]

mod draft;
mod engine;
mod entailments;
mod frames;
mod moves;
mod setting;
mod traces;

pub use cyc_basics::memory::OutOfMemory;
pub use draft::{Draft, DraftEdge, DraftNode, MOST_DRAFT_NODES};
pub use engine::{Outcome, search};
pub use entailments::{
    Entailments, LAST_STAGE, Matcher, Matching, companions, distinct_for, first_equation,
    last_stage, no_moves, one_move, one_rule, stage_of, value_of,
};
pub use moves::{Aim, Move, Stage, Step, Strategy};
pub use seek_shapes::{args_of, arguments, is_alike, mentions, terms_of};
pub use setting::Setting;
pub use traces::{close_by_link, progresses};
