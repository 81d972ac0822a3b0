//! Plans for large entailments: how each atom of the right side is made of atoms of the left side, as edges of graphs
//! are matched (after Cook, Haase, Ouaknine, Parkinson and Worrell 2011), and the joins that carry a plan out, each by
//! a lemma; and the parts of a goal that share no variable.
#![tactic(auto)]

mod folding;
mod guards;
mod joining;
mod needs;
mod parts;
mod plans;
mod successors;

pub use folding::make_joins;
pub use joining::convert;
pub use needs::converts;
pub use parts::divide;
pub use plans::{Join, plan};
