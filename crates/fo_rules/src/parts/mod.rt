//! Parts of first-order rules: terms in the place of signs, sizes, tests, trace pairs, and the faults that come last.

mod building;
mod changes;
mod limits;
mod pairing;
mod sizes;
mod tests;

pub use building::{
    atoms_and, atoms_without, changed_atom, one_premise, push_changed, sequent_with_left,
    sequent_with_right, two_premises,
};
pub use changes::Change;
pub use cyc_basics::memory::OutOfMemory;
pub use limits::{is_small_with, limited};
pub use pairing::{pairs_of_kept, pairs_of_same, push_children, push_copy};
pub use sizes::{
    size_of_atom, size_of_atoms, size_of_changed_atom, size_of_changed_atoms, size_of_sequent,
    size_of_terms,
};
pub use tests::{
    atom_at, has_variable, have_one_constructor, is_absurd, is_one_atom, is_one_sequent,
    is_one_term, only_variable,
};
