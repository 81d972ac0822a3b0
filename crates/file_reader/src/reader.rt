//! A reader of proof files that is fed a text in pieces.

ghost use Rattle.std.specs.Prelude.{◌≡◌, ◌+◌, ◌-◌, ◌<◌, ◌^◌, [], length, OnErr, OnOk};
ghost use Rattle.proof_file.specs.Reading.{Reads};
ghost use Rattle.file_reader.specs.Stages.{fresh, outcome};
ghost use Rattle.file_reader.specs.Pieces.{IsLost, KeepsLaw, Tells, bytes_fed};

use crate::feeding::{bytes_fed, feed};
use crate::finishing::finish;
use crate::held::{Held, Opening};
use cyc_lex::{OutOfMemory, ReadFault};
use proof_file::ProofFile;
use std::alloc::Global;
use std::marker::Model;
use std::mem;

/// A reader of a proof file that is fed the text in pieces, of fewer than 4,294,967,295 bytes in all, and answers at
/// its end what the text comes to. A contract sees what the text comes to with any bytes that may follow.
#[derive(Drop)]
pub struct FileReader {
    alloc: Global,
    held: Held,
}

impl Model for FileReader {
    ghost use Rattle.file_reader.specs.Stages.{Parts};

    ghost Value = { Parts };

    ghost use Rattle.file_reader.specs.Helds.{parts_of, IsHeld};

    ghost view = { λ r. parts_of r.held };

    ghost invariant = { λ r. IsHeld r.held };
}

impl FileReader {
    /// A reader that was fed nothing.
    pub fn new(alloc: Global) -> FileReader
        ensures value { result ≡ fresh }
    {
        FileReader {
            alloc,
            held: Held::Opening(Opening {
                all: Vec::new(alloc),
                enough: 0,
            }),
        }
    }

    /// Takes the next piece of the text. After out of memory every later call answers out of memory.
    pub fn feed(&mut self, piece: &[u8]) -> Result<(), OutOfMemory>
        requires { bytes_fed self.old + length piece.now < 2 ^ 32 - 1 }
        // Whatever comes: what the text came to, with the piece and the rest, it comes to with the rest.
        ensures law { OnOk result (KeepsLaw self.old piece.now self.new) }
        ensures memory { OnErr result (IsLost self.new) }
        ensures lost { OnOk result (IsLost self.old → ⊥) }
        ensures count { bytes_fed self.new ≡ bytes_fed self.old + length piece.now }
    {
        let fed = bytes_fed(&self.held) + piece.len() as u32;
        let held = mem::replace(&mut self.held, Held::Lost(fed));
        self.held = feed(self.alloc, held, piece)?;
        Ok(())
    }

    /// Takes the end of the text: the file that it says, or its first fault.
    pub fn finish(self) -> Result<ProofFile, ReadFault>
        requires { bytes_fed self < 2 ^ 32 - 1 }
        ensures { Tells (outcome self []) result }
    {
        let FileReader { alloc, held } = self;
        finish(alloc, held)
    }
}

/// The proof file that the bytes spell, or the first fault of the text: one piece, and the end.
pub fn read_file(alloc: Global, bytes: &[u8]) -> Result<ProofFile, ReadFault>
    requires { length bytes.now < 2 ^ 32 - 1 }
    ensures { Reads bytes.now result }
{
    let mut reader = FileReader::new(alloc);
    reader.feed(bytes)?;
    reader.finish()
}
