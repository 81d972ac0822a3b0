//! Questions for frames: whether a text asks for one, the problem that it speaks of, and the text of the problem that
//! says what was found.

mod asking;
mod places;
mod splicing;
mod writing;

pub use asking::is_frame_text;
pub use places::plain_text;
pub use splicing::framed_text;
pub use writing::{QuestionNames, question_names};
