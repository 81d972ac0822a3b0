// A line that is being made.
ghost use Rattle.std.specs.Prelude.{◌≡◌, ◌++◌, [], codes, decimal, IfOk, OnOk};

use cyc_basics::memory::OutOfMemory;
use itoa::Buffer;
use std::alloc::Global;
use std::marker::Model;

/// A line that is being made, for a program's own answers: its bytes so far, the line feed at its end not among them.
#[derive(Drop)]
pub struct Line {
    bytes: Vec<u8>,
}

impl Model for Line {
    ghost use Rattle.std.specs.Prelude.{List, ℕ};

    ghost Value = { List ℕ };

    ghost view = { λ l. l.bytes.items };
}

impl Line {
    /// The empty line.
    pub fn new(alloc: Global) -> Line
        ensures { result ≡ [] }
    {
        Line {
            bytes: Vec::new(alloc),
        }
    }

    /// Appends a text.
    pub fn text(&mut self, text: &str) -> Result<(), OutOfMemory>
        ensures { OnOk result (self.new ≡ self.old ++ text.now) }
    {
        self.bytes.extend_from_slice(text.as_bytes())?;
        Ok(())
    }

    /// Appends a number in decimal.
    pub fn number(&mut self, n: u64) -> Result<(), OutOfMemory>
        ensures { OnOk result (self.new ≡ self.old ++ decimal n) }
    {
        let mut buffer = Buffer::new();
        self.bytes.extend_from_slice(buffer.format(n).as_bytes())?;
        Ok(())
    }

    /// The whole line, with its line feed.
    pub fn end(mut self) -> Result<Vec<u8>, OutOfMemory>
        ensures { IfOk result (λ bytes. bytes.items ≡ self ++ codes "\n") }
    {
        self.text("\n")?;
        Ok(self.bytes)
    }
}
