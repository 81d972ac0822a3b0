//! The tokens of a text that comes in pieces.
#![tactic(auto)]

mod batch;
mod bytes;
mod fronts;
mod lexer;
mod owned;
mod run;
mod spans;
mod taking;
mod text;
mod valid;

pub use bytes::joined;
pub use fronts::first_bad;
pub use lexer::{Lexer, feed_law};
pub use owned::OwnedToken;
pub use spans::{Span, take_statement, take_statements};
pub use taking::{Taken, take_token};
pub use text::Text;
pub use valid::{Valid, valid_front};
