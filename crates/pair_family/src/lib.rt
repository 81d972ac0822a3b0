//! Base pairs of predicates, and which symbolic heaps are satisfiable (Brotherston, Fuhs, Navarro Pérez and Gorogiannis
//! 2014). The definitions stand in specs/, in the order BasePairs, Combination, Family, Statements.
#![tactic(auto)]

pub mod laws;
pub mod states;
