//! Texts as tokens: cutting a text into them, the faults that its readers answer, and writing words back as a text.
#![tactic(auto)]

mod cuts;
mod cutting;
mod fault;
mod lexing;
mod place;
mod token;
mod writer;

pub use cuts::{Cut, count_tokens, cut_token, token_at};
pub use cutting::{fault_at, tokens};
pub use cyc_basics::memory::OutOfMemory;
pub use fault::{IllFault, LexFault, ReadFault, What};
pub use lexing::{check_len, first, lex_from, next, next_char, skip_comment};
pub use place::{Bad, Piece, Place, Run, Stop, goes_on, is_plain, is_space, starts_name};
pub use token::{Kind, Token, Tokens};
pub use writer::WordWriter;
