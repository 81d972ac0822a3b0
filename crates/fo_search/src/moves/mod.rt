//! What a goal of first-order logic is offered in the search for a proof: rules that go before links, links to a
//! companion, and rules that come where no link is admitted.

mod after;
mod before;
mod choosing;
pub mod laws;
mod linking;
mod links;
mod rights;
mod settling;
mod subterms;
mod told;
mod trying;
mod variables;
mod walking;
mod wanted;

pub use after::rules_after;
pub use before::rules_before;
pub use cyc_basics::memory::OutOfMemory;
pub use links::links_to;
pub use told::RulesAfter;
