//! What a program that answers problems prints beside its answers: notes before a certificate, the explanation of a
//! fault, and names that look like mistakes.

mod advice;
mod candidates;
mod choices;
mod explaining;
mod hints;
mod ill_formed;
mod laws;
mod lexical;
mod limits;
mod near;
mod notes;
mod parts;
mod places;
mod statements;
mod syntax;

pub use cyc_basics::memory::OutOfMemory;
pub use explaining::explained;
pub use hints::name_hints;
pub use laws::{ModelFiles, ProofFiles, TextFormat, notes_are_passed_over};
pub use notes::Notes;
pub use parts::Part;
