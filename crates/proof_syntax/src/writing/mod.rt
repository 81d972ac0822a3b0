//! Writing proof files: the lines of programs, judgements, reasons and nodes.

mod commands;
mod files;
mod lines;
mod reasons;

pub use files::write_tree;
pub use lines::write_lines;
