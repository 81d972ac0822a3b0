//! Proof files as texts: reading a whole text, with the exact place of each fault, and writing one that is read again.

mod line_trees;
mod reading;
mod trees;
mod upgrading;
mod values;
mod walk;
mod writing;

pub use reading::read_file;
pub use upgrading::upgrade;
pub use writing::{bytes_spell_one_file, write_file, written_files_are_read_again};
