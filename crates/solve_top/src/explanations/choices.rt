//! Several things in a row, in words.

use crate::explanations::parts::{Part, push_part, push_text};
use cyc_basics::memory::OutOfMemory;

/// How many are named, at most.
const MOST_NAMED: usize = 8;

/// What stands before the thing with this number, counted from 0, of so many.
fn separator<'s>(number: usize, count: usize, last: &'s str) -> &'s str {
    if number == 0 {
        return "";
    }
    if number.saturating_add(1) == count {
        return last;
    }
    ", "
}

/// Appends things with a comma between neighbours, and this text before the last; where there are many, only the first.
pub fn push_choices(out: &mut String, choices: &[Part<'_>], last: &str) -> Result<(), OutOfMemory> {
    for (number, choice) in choices.iter().take(MOST_NAMED).enumerate() {
        push_text(out, separator(number, choices.len(), last))?;
        push_part(out, *choice)?;
    }
    if choices.len() > MOST_NAMED {
        push_text(out, " ..")?;
    }
    Ok(())
}
