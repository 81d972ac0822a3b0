// Answers before they are written.
ghost use Rattle.std.specs.Prelude.{◌≡◌, IfOk};

use crate::endings::Status;
use cyc_basics::memory::OutOfMemory;
use std::alloc::Global;

/// An answer before it is written: its line, and how the run ends once that is written.
#[derive(Drop)]
pub struct Answer {
    pub status: Status,
    pub text: Vec<u8>,
}

/// An answer whose line is known beforehand.
pub fn fixed_answer(alloc: Global, status: Status, text: &str) -> Result<Answer, OutOfMemory>
    ensures { IfOk result (λ a. (a.status ≡ status) × (a.text.items ≡ text.now)) }
{
    let text = Vec::from_slice(alloc, text.as_bytes())?;
    Ok(Answer { status, text })
}
