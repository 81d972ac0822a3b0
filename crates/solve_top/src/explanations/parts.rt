//! Parts of lines.

ghost use Rattle.std.specs.Prelude.{◌≡◌, ◌++◌, OnOk};
ghost use Rattle.std.specs.String.{string_bytes};
ghost use Rattle.solve_top.specs.Lines.{shown, shown_text, part_text, parts_text, IsLine};

use cyc_basics::memory::OutOfMemory;
use itoa::Buffer;

/// A part of a line: a text, a name that is written in quotes, or a number that is written in decimal.
#[derive(Clone, Copy)]
pub enum Part<'p> {
    Text(&'p str),
    Name(&'p str),
    Number(u64),
}

/// A character as it is written.
fn shown(c: char) -> char
    ensures { result ≡ shown c }
{
    if c == '\n' { '?' } else { c }
}

/// Appends a text, with `?` for each line feed.
pub fn push_text(line: &mut String, text: &str) -> Result<(), OutOfMemory>
    ensures text { OnOk result (string_bytes line.new ≡ string_bytes line.old ++ shown_text text.now) }
    ensures fits { OnOk result (IsLine (shown_text text.now)) }
{
    for c in text.chars() {
        line.push(shown(c))?;
    }
    Ok(())
}

fn push_name(line: &mut String, name: &str) -> Result<(), OutOfMemory>
    ensures text { OnOk result (string_bytes line.new ≡ string_bytes line.old ++ part_text (Part.Name name.entry)) }
    ensures fits { OnOk result (IsLine (part_text (Part.Name name.entry))) }
{
    line.push_str("\"")?;
    push_text(line, name)?;
    line.push_str("\"")?;
    Ok(())
}

fn push_number(line: &mut String, n: u64) -> Result<(), OutOfMemory>
    ensures text { OnOk result (string_bytes line.new ≡ string_bytes line.old ++ part_text (Part.Number n)) }
    ensures fits { OnOk result (IsLine (part_text (Part.Number n))) }
{
    let mut buffer = Buffer::new();
    line.push_str(buffer.format(n))?;
    Ok(())
}

/// Appends a part of a line.
pub fn push_part(line: &mut String, part: Part<'_>) -> Result<(), OutOfMemory>
    ensures text { OnOk result (string_bytes line.new ≡ string_bytes line.old ++ part_text part.entry) }
    ensures fits { OnOk result (IsLine (part_text part.entry)) }
{
    match part {
        Part::Text(text) => push_text(line, text),
        Part::Name(name) => push_name(line, name),
        Part::Number(n) => push_number(line, n),
    }
}

/// Appends the parts of a line.
pub fn push_parts(line: &mut String, parts: &[Part<'_>]) -> Result<(), OutOfMemory>
    ensures text { OnOk result (string_bytes line.new ≡ string_bytes line.old ++ parts_text parts.now) }
    ensures fits { OnOk result (IsLine (parts_text parts.now)) }
{
    for part in parts {
        push_part(line, *part)?;
    }
    Ok(())
}
