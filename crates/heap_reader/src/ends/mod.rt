//! Programs with their ends: the first flaw of ends as trees, what they say together with the lines, and the trees of a
//! program's ends.

mod end_walk;
mod laws;
mod program_values;
mod trees;

pub use end_walk::walk_ends;
pub use laws::programs_are_lines_with_ends;
pub use program_values::program;
pub use trees::end_trees;
