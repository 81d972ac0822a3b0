//! Sources of bytes and sinks for bytes, which count their faults.
#![tactic(auto)]

mod memory;
mod plain;
mod streams;
mod words;

ghost use Rattle.std.specs.Prelude.{◌≡◌, ◌+◌, ◌<◌, ◌≤◌, ℕ, List, Option, length, OnOk, OnErr, IfOk, IsErrOf, ◌⊎◌};
ghost use Rattle.std.specs.Io.{ReadsAtMost, WritesAtMost};
ghost use Rattle.std.specs.Io.KnownBytes.{ReadConsumes, WriteAppends, Consumes, Appends, IsAtEnd};
ghost use Rattle.cyc_io.specs.Causes.{HasCause, Rose};
ghost use Rattle.cyc_io.specs.Bytes.{Came, CameAtMost, AppendsProperPrefix};

pub use cyc_basics::memory::OutOfMemory;
pub use memory::{MemSink, MemSource};
pub use plain::{PlainSink, PlainSource};
use std::alloc::{AllocError, Global};
pub use streams::{StdSink, StdSource};
use thiserror::Error;
pub use words::command_words;

/// A call to the outside failed: it took or appended nothing, and the count of faults rose.
#[derive(Clone, Copy)]
pub struct Failed;

/// Where bytes come from. A contract sees the bytes still to come, in order, and a count of faults.
pub trait Source {
    /// The bytes still to come, where the source tells them.
    ghost left: { Self → Option (List ℕ) };

    /// How often a read has failed. At the greatest `u64` the count stands still, and is taken as
    /// risen.
    ghost faults: { Self → ℕ };

    /// Puts the next bytes at the front of the buffer, and answers how many. `Ok(0)` at a buffer that
    /// isn't empty is the end. `Failed` comes only where the count of faults rose.
    fn read(&mut self, buf: &mut [u8]) -> Result<usize, Failed>
        ensures bound { ReadsAtMost result buf.new }
        ensures bytes { ReadConsumes (left self.old) (left self.new) result buf.new }
        ensures cause { HasCause (faults self.old) (faults self.new) result };
}

/// Where bytes go. A contract sees the bytes that were written, in order, and a count of faults.
pub trait Sink {
    /// The bytes that were written, where the sink tells them.
    ghost written: { Self → Option (List ℕ) };

    /// How often a write has failed. At the greatest `u64` the count stands still, and is taken as
    /// risen.
    ghost faults: { Self → ℕ };

    /// Appends some bytes from the front of the piece, at least one unless the piece is empty, and
    /// answers how many. `Failed` comes only where the count of faults rose.
    fn write(&mut self, piece: &[u8]) -> Result<usize, Failed>
        ensures bound { WritesAtMost result piece.now }
        ensures progress { IfOk result (λ n. 0 < length piece.now → 0 < n) }
        ensures bytes { WriteAppends (written self.old) (written self.new) result piece.now }
        ensures cause { HasCause (faults self.old) (faults self.new) result };
}

/// Why `read_all` gave up.
#[derive(Clone, Copy, Debug, PartialEq, Eq, Error)]
pub enum ReadAll {
    /// A read failed.
    #[error("the input cannot be read")]
    ReadFault,
    /// There are more bytes than the limit.
    #[error("the input is too large")]
    TooLarge,
    /// Memory was wanted and refused.
    #[error("out of memory")]
    OutOfMemory,
}

impl From<AllocError> for ReadAll {
    ghost use Rattle.std.specs.Prelude.{◌≡◌};
    ghost use Rattle.cyc_io.specs.declared.ReadAll.TheVariants.{OutOfMemory};

    ghost from_gives = { λ _ error. error ≡ OutOfMemory };

    fn from(_error: AllocError) -> ReadAll {
        ReadAll::OutOfMemory
    }
}

/// A write failed before all of the bytes were written.
#[derive(Clone, Copy, Debug, PartialEq, Eq)]
pub struct WriteFault;

// The greatest number of bytes that one read asks for.
const CHUNK: usize = 4096;

/// Reads the source to its end and answers its bytes, or gives up after a failed read or after
/// `limit + 1` bytes. Each turn takes a byte or is the last.
pub fn read_all<S: Source>(alloc: Global, src: &mut S, limit: usize) -> Result<Vec<u8>, ReadAll>
    requires { limit < usize.MAX }
    // All that was to come, and then nothing is left.
    ensures all { IfOk result (λ all. Consumes (S.left src.old) (S.left src.new) all.items × IsAtEnd (S.left src.new)) }
    ensures within { IfOk result (λ all. length all.items ≤ limit) }
    // More than `limit` bytes came before an end or a fault.
    ensures too_large { IsErrOf result ReadAll.TooLarge → Came (S.left src.old) (S.left src.new) (limit + 1) }
    ensures read_fault { IsErrOf result ReadAll.ReadFault → Rose (S.faults src.old) (S.faults src.new) }
    ensures before_fault { IsErrOf result ReadAll.ReadFault → CameAtMost (S.left src.old) (S.left src.new) limit }
    ensures taken { CameAtMost (S.left src.old) (S.left src.new) (limit + 1) }
    // Without a failed read the count stands.
    ensures no_faults { IsErrOf result ReadAll.ReadFault ⊎ (S.faults src.new ≡ S.faults src.old) }
    ensures counted { S.faults src.old ≤ S.faults src.new }
{
    let mut bytes = Vec::new(alloc);
    let mut chunk = [0u8; CHUNK];
    while bytes.len() <= limit {
        let room = (limit - bytes.len() + 1).min(CHUNK);
        let count = match src.read(&mut chunk[..room]) {
            Ok(count) => count,
            Err(Failed) => return Err(ReadAll::ReadFault),
        };
        if count == 0 {
            return Ok(bytes);
        }
        bytes.extend_from_slice(&chunk[..count])?;
    }
    Err(ReadAll::TooLarge)
}

/// Writes all of the bytes in order, a piece at a time, or gives up at the first failed write. It
/// takes no memory.
pub fn write_all<K: Sink>(sink: &mut K, bytes: &[u8]) -> Result<(), WriteFault>
    ensures all { OnOk result (Appends (K.written sink.old) (K.written sink.new) bytes.now) }
    ensures prefix { OnErr result (AppendsProperPrefix (K.written sink.old) (K.written sink.new) bytes.now) }
    ensures cause { HasCause (K.faults sink.old) (K.faults sink.new) result }
{
    let mut done = 0;
    while done < bytes.len() {
        match sink.write(&bytes[done..]) {
            Ok(count) => done += count,
            Err(Failed) => return Err(WriteFault),
        }
    }
    Ok(())
}
