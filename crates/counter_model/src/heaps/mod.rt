//! The heaps of bounded size that may satisfy a formula without existential variables: none that does is left out.
//! They are built from the cases of the definitions up, as a least fixed point.

mod asking;
mod combining;
mod fitting;
mod refreshing;
mod small_heaps;
mod table;
mod values;

pub use fitting::{fitting_heaps, is_universal};
