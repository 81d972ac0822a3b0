//! The moves of a free search at an entailment: those of the rules, and Cut by what a companion says (an application of
//! a lemma, as in Brotherston, Distefano and Petersen 2011) or by a part of the succedent.

mod applying;
mod disjuncts;
mod dividing;
mod forced;
mod matching;
mod offers;
mod predicates;
mod sequents;
mod strategy;
mod unfolding;

pub use forced::{distinct_for, first_equation};
pub use matching::{Matcher, Matching, value_of};
pub use offers::{companions, last_stage, no_moves, one_move, one_rule, stage_of};
pub use strategy::{Entailments, LAST_STAGE};
