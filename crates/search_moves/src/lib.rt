//! What the next goal of a partial derivation is offered: the links to be tried, and the rules in their order
//! (Brotherston, Gorogiannis and Petersen 2012).
#![tactic(auto)]

mod closing;
mod companions;
mod distincts;
mod entailments;
mod equations;
mod faults;
pub mod folds;
mod graphs;
mod instances;
mod offered;
mod offering;
mod places;
mod right_cases;
mod setting;
mod states;
mod ways;

pub use closing::leaves_premises;
pub use graphs::offers;
pub use offered::Offers;
pub use offering::{closing_offers, offers_of};
