//! First-order logic with inductive definitions, as plain data, and what it means (Martin-Löf 1971; Brotherston and
//! Simpson 2011). The meaning stands in specs/, in the order Words, Values, Meaning, Validity.
#![tactic(auto)]

mod atoms;
pub mod laws;
mod nodes;
mod numbers;
mod sequents;
pub mod table;
mod terms;
mod theory;

pub use atoms::{FoAtom, FoAtoms, is_same_atom};
pub use cyc_basics::memory::OutOfMemory;
pub use heap_formula::{DefName, Pair, Pairs, Positions, Side};
pub use nodes::{FoFile, FoLink, FoNode, FoNodes, FoReason, FoRule, FoSubst};
pub use numbers::{Kind, bound_of_atoms, bound_of_sequent};
pub use sequents::{FoSequent, is_same_sequent};
pub use terms::{Sign, Term, Terms};
pub use theory::{Constructor, Constructors, FoCases, FoDefinition, FoDefinitions, FoTheory};
