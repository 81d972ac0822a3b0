//! The answers of the command `disprove`: the first counter-model of a problem's goal, as a model file.

mod entailments;
mod laws;
mod model_files;

pub use entailments::Disprover;
pub use laws::{
    inputs_have_one_answer, refuted_goals_do_not_hold, refuted_goals_have_no_proof,
    written_models_hold,
};
