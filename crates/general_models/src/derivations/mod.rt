//! Derivations that a heap satisfies a formula: which case of its definition is taken for each predicate atom, with
//! which values of the locals. Checking one is linear in it, where a question to `general_models` may be exponential.

mod derivations;
mod opening;
mod refuting;
mod steps;
mod taking;
mod terms;

pub use derivations::is_derivation;
pub use refuting::refutes_by_derivation;
pub use steps::CaseStep;
