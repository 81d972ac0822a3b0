//! A text that is being made.
ghost use Rattle.std.specs.Prelude.{◌≡◌, ◌++◌, ◌∷◌, [], decimal, OnOk};
ghost use Rattle.draw_top.specs.Quoting.{escaped, marked_up, quoted};

use crate::escapes::{entity_of, escape_of};
use cyc_basics::memory::OutOfMemory;
use itoa::Buffer;
use std::alloc::Global;
use std::marker::Model;

/// The bytes of a text so far.
#[derive(Drop)]
pub struct DotText {
    bytes: Vec<u8>,
}

impl Model for DotText {
    ghost use Rattle.std.specs.Prelude.{List, ℕ};

    ghost Value = { List ℕ };

    ghost view = { λ t. t.bytes.items };
}

impl DotText {
    /// The empty text.
    pub fn new(alloc: Global) -> DotText
        ensures { result ≡ [] }
    {
        DotText {
            bytes: Vec::new(alloc),
        }
    }

    /// Appends a text as it is.
    pub fn text(&mut self, text: &str) -> Result<(), OutOfMemory>
        ensures { OnOk result (self.new ≡ self.old ++ text.now) }
    {
        self.bytes.extend_from_slice(text.as_bytes())?;
        Ok(())
    }

    /// Appends a number in decimal.
    pub fn number(&mut self, n: u32) -> Result<(), OutOfMemory>
        ensures { OnOk result (self.new ≡ self.old ++ decimal n) }
    {
        let mut buffer = Buffer::new();
        self.bytes.extend_from_slice(buffer.format(n).as_bytes())?;
        Ok(())
    }

    fn byte(&mut self, byte: u8) -> Result<(), OutOfMemory>
        ensures { OnOk result (self.new ≡ self.old ++ byte ∷ []) }
    {
        self.bytes.push(byte)?;
        Ok(())
    }

    /// Appends a quoted string that says the text.
    pub fn quoted(&mut self, text: &str) -> Result<(), OutOfMemory>
        ensures { OnOk result (self.new ≡ self.old ++ quoted text.now) }
    {
        self.text("\"")?;
        self.escaped(text.as_bytes())?;
        self.text("\"")
    }

    fn escaped(&mut self, bytes: &[u8]) -> Result<(), OutOfMemory>
        ensures { OnOk result (self.new ≡ self.old ++ escaped bytes.now) }
    {
        for byte in bytes {
            match escape_of(*byte) {
                Some(escape) => self.text(escape)?,
                None => self.byte(*byte)?,
            }
        }
        Ok(())
    }

    /// Appends the bytes as a label says them.
    pub fn marked_up(&mut self, bytes: &[u8]) -> Result<(), OutOfMemory>
        ensures { OnOk result (self.new ≡ self.old ++ marked_up bytes.now) }
    {
        for byte in bytes {
            match entity_of(*byte) {
                Some(entity) => self.text(entity)?,
                None => self.byte(*byte)?,
            }
        }
        Ok(())
    }

    /// The whole text.
    pub fn into_bytes(self) -> Vec<u8>
        ensures { result.items ≡ self }
    {
        self.bytes
    }
}
