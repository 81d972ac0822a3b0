//! Links from buds to companions (Brotherston, Gorogiannis and Petersen 2012): the first fault of a link, and all links
//! without a fault.
#![tactic(auto)]

mod covering;
mod faults;
mod listing;
mod matching;
mod outlook;
mod prospects;
mod shapes;
mod variables;

pub use faults::link_fault;
pub use listing::{all_links, no_link_is_left_out};
pub use variables::{some_spatial_has, stands_in_pure};
