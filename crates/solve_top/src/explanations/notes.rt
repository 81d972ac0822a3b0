//! Comment lines that stand before a certificate.

ghost use Rattle.std.specs.Prelude.{◌≡◌, ◌++◌, [], length, IfOk, OnOk, OnErr, nat_eq};
ghost use Rattle.std.specs.String.{string_bytes};
ghost use Rattle.solve_top.specs.Notes.{AreNotes};
ghost use Rattle.solve_top.specs.Lines.{note_text};

use crate::explanations::parts::{Part, push_parts};
use cyc_basics::memory::OutOfMemory;
use std::alloc::Global;
use std::marker::Model;

/// Comment lines, each of which begins with `# `. They may stand before any text that is read: what it says stays the
/// same.
#[derive(Drop)]
pub struct Notes {
    bytes: Vec<u8>,
}

impl Model for Notes {
    ghost use Rattle.std.specs.Prelude.{List, ℕ};
    ghost use Rattle.solve_top.specs.Notes.{AreNotes};

    ghost Value = { List ℕ };

    ghost view = { λ n. n.bytes.items };

    ghost invariant = { λ n. AreNotes n.bytes.items };
}

/// A comment line.
fn comment(alloc: Global, parts: &[Part<'_>]) -> Result<String, OutOfMemory>
    ensures text { IfOk result (λ line. string_bytes line ≡ note_text parts.now) }
    ensures note { IfOk result (λ line. AreNotes (string_bytes line)) }
{
    let mut line = String::from_str(alloc, "# ")?;
    push_parts(&mut line, parts)?;
    line.push_str("\n")?;
    Ok(line)
}

impl Notes {
    /// No lines.
    pub fn new(alloc: Global) -> Notes
        ensures { result ≡ [] }
    {
        Notes {
            bytes: Vec::new(alloc),
        }
    }

    /// Whether there are no lines.
    pub fn is_empty(&self) -> bool
        ensures { result ≡ nat_eq (length self.now) 0 }
    {
        self.bytes.is_empty()
    }

    /// Appends a line. A line feed within it would end it, and is written as `?`.
    pub fn line(&mut self, parts: &[Part<'_>]) -> Result<(), OutOfMemory>
        ensures ok { OnOk result (self.new ≡ self.old ++ note_text parts.now) }
        ensures err { OnErr result (self.new ≡ self.old) }
    {
        let line = comment(*self.bytes.allocator(), parts)?;
        self.bytes.extend_from_slice(line.as_bytes())?;
        Ok(())
    }

    /// Appends the lines of others.
    pub fn append(&mut self, others: &Notes) -> Result<(), OutOfMemory>
        ensures ok { OnOk result (self.new ≡ self.old ++ others.now) }
        ensures err { OnErr result (self.new ≡ self.old) }
    {
        self.bytes.extend_from_slice(others.bytes.as_slice())?;
        Ok(())
    }

    /// The lines.
    pub fn as_slice(&self) -> &[u8]
        ensures bytes { result.now ≡ self.now }
        ensures notes { AreNotes result.now }
    {
        self.bytes.as_slice()
    }

    /// The lines.
    pub fn into_bytes(self) -> Vec<u8>
        ensures bytes { result.items ≡ self }
        ensures notes { AreNotes result.items }
    {
        self.bytes
    }
}
