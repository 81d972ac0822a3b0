//! Reading one definition or one heap out of a text, before the definitions after it are known.

mod items;
mod reading;

pub use items::Item;
pub use reading::{read_heap, read_pred};
