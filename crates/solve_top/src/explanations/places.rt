//! The line of a text in which a fault stands, with a mark under its place.

use cyc_basics::memory::OutOfMemory;
use std::alloc::Global;

/// A place in a text: its line and its column in characters, counted from 1.
#[derive(Clone, Copy)]
pub struct Spot {
    pub line: usize,
    pub column: usize,
}

/// How many characters of a line are shown, at most.
const MOST_SHOWN: usize = 100;

/// How many of them stand before the mark, at most, where the line is longer.
const MOST_BEFORE: usize = 60;

/// The characters of a line that are shown: so many are left out at its start, and so many are shown.
#[derive(Clone, Copy)]
struct Window {
    left_out: usize,
    shown: usize,
}

impl Window {
    /// The window of a line with so many characters, in which the character with this number, counted from 0, is shown.
    fn around(count: usize, at: usize) -> Window {
        if count <= MOST_SHOWN {
            return Window {
                left_out: 0,
                shown: count,
            };
        }
        Window {
            left_out: at
                .saturating_sub(MOST_BEFORE)
                .min(count.saturating_sub(MOST_SHOWN)),
            shown: MOST_SHOWN,
        }
    }

    /// What stands for the characters that are left out at the start.
    fn start(self) -> &'static str {
        if self.left_out > 0 { ".." } else { "" }
    }

    /// What stands for those that are left out at the end of a line with so many.
    fn end(self, count: usize) -> &'static str {
        if self.left_out.saturating_add(self.shown) < count {
            ".."
        } else {
            ""
        }
    }
}

/// The bytes of the line with this number, without its line feed; none past the last line.
fn line_bytes(text: &[u8], number: usize) -> &[u8] {
    let mut lines = text.split(|byte| *byte == b'\n');
    match lines.nth(number.saturating_sub(1)) {
        Some(line) => line,
        None => &[],
    }
}

/// A character as it is shown: a tab as one space, and what cannot be seen as `?`.
fn visible(c: char) -> char {
    if c == '\t' {
        return ' ';
    }
    if c.is_control() || c == '\u{FFFD}' {
        return '?';
    }
    c
}

fn push_window(out: &mut String, line: &str, window: Window) -> Result<(), OutOfMemory> {
    for c in line.chars().skip(window.left_out).take(window.shown) {
        out.push(visible(c))?;
    }
    Ok(())
}

fn push_spaces(out: &mut String, count: usize) -> Result<(), OutOfMemory> {
    for _ in 0..count {
        out.push(' ')?;
    }
    Ok(())
}

/// Appends a line that is not blank, shortened, and below it a mark under the character with this number, counted from
/// 0.
fn push_marked(out: &mut String, line: &str, at: usize) -> Result<(), OutOfMemory> {
    let count = line.chars().count();
    let at = at.min(count);
    let window = Window::around(count, at);
    out.push_str("  ")?;
    out.push_str(window.start())?;
    push_window(out, line, window)?;
    out.push_str(window.end(count))?;
    out.push_str("\n  ")?;
    push_spaces(out, window.start().len())?;
    push_spaces(out, at.saturating_sub(window.left_out))?;
    out.push_str("^\n")?;
    Ok(())
}

/// Appends the line in which a spot stands, and a mark under it; nothing where the line is blank.
pub fn push_source(
    alloc: Global,
    out: &mut String,
    text: &[u8],
    spot: Spot,
) -> Result<(), OutOfMemory> {
    let line = String::from_utf8_lossy(alloc, line_bytes(text, spot.line))?;
    let line = line.as_str().trim_end();
    if line.is_empty() {
        return Ok(());
    }
    push_marked(out, line, spot.column.saturating_sub(1))
}
