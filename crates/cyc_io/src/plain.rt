//! Sources and sinks in memory, none of whose calls fail but for want of room.
ghost use Rattle.std.specs.Prelude.{◌≡◌, ◌+◌, ◌-◌, ◌<◌, ◌≤◌, ◌++◌, ◌↔◌, [], length, min, take, drop, Some, OnOk, OnErr};
ghost use Rattle.std.specs.Prelude.{IfOk, IsOk, IsErr};
ghost use Rattle.std.specs.Io.{ReadsAtMost, WritesAtMost};
ghost use Rattle.std.specs.Io.KnownBytes.{ReadConsumes, WriteAppends};
ghost use Rattle.cyc_io.specs.Causes.{HasCause, risen};

use crate::{Failed, OutOfMemory, Sink, Source};
use std::alloc::Global;
use std::marker::Model;

// Copies as much as fits, and at most `piece` bytes, to the front of the buffer.
pub(crate) fn copy_front(buf: &mut [u8], bytes: &[u8], piece: usize) -> usize
    ensures count { result ≡ min (min (length buf.old) piece) (length bytes.now) }
    ensures copied { buf.new ≡ take result bytes.now ++ drop result buf.old }
{
    let count = buf.len().min(piece).min(bytes.len());
    buf[..count].copy_from_slice(&bytes[..count]);
    count
}

/// Bytes in memory, given out in pieces. No call fails.
#[derive(Drop)]
pub struct PlainSource {
    bytes: Vec<u8>,
    at: usize,
    piece: usize,
}

impl Model for PlainSource {
    ghost use Rattle.std.specs.Prelude.{◌<◌, ◌≤◌, length, drop};
    ghost use Rattle.cyc_io.specs.Memory.{PlainInput};

    ghost Value = { PlainInput };

    ghost view = { λ s. record {
      left = drop s.at s.bytes.items;
      piece = s.piece;
    } };

    ghost invariant = { λ s. (s.at ≤ length s.bytes.items) × (0 < s.piece) };
}

impl PlainSource {
    /// A source of these bytes, of which a call gives at most `piece`.
    pub fn new(bytes: Vec<u8>, piece: usize) -> Self
        requires { 0 < piece }
        ensures left { result.left ≡ bytes.items }
        ensures piece { result.piece ≡ piece }
    {
        PlainSource {
            bytes,
            at: 0,
            piece,
        }
    }

    /// The bytes still to come.
    pub fn left(&self) -> &[u8]
        ensures { result.now ≡ self.now.left }
    {
        &self.bytes[self.at..]
    }
}

impl Source for PlainSource {
    ghost left = { λ s. Some s.left };

    ghost faults = { λ _. 0 };

    fn read(&mut self, buf: &mut [u8]) -> Result<usize, Failed>
        ensures bound { ReadsAtMost result buf.new }
        ensures bytes { ReadConsumes (Some self.old.left) (Some self.new.left) result buf.new }
        ensures cause { HasCause 0 0 result }
        ensures never { IsOk result }
        ensures count { IfOk result (λ n. n ≡ min (min (length buf.old) self.old.piece) (length self.old.left)) }
        ensures same { self.new.piece ≡ self.old.piece }
    {
        let count = copy_front(buf, &self.bytes[self.at..], self.piece);
        self.at += count;
        Ok(count)
    }
}

/// Bytes collected in memory, in pieces, up to a room that was taken when it was made. A call fails,
/// and raises the count of faults, exactly where a piece that isn't empty meets a full room.
#[derive(Drop)]
pub struct PlainSink {
    bytes: Vec<u8>,
    len: usize,
    piece: usize,
    faults: u64,
}

impl Model for PlainSink {
    ghost use Rattle.std.specs.Prelude.{◌<◌, ◌≤◌, length, take};
    ghost use Rattle.cyc_io.specs.Memory.{PlainOutput};

    ghost Value = { PlainOutput };

    ghost view = { λ s. record {
      written = take s.len s.bytes.items;
      room = length s.bytes.items;
      piece = s.piece;
      faults = s.faults;
    } };

    ghost invariant = { λ s. (s.len ≤ length s.bytes.items) × (0 < s.piece) };
}

impl PlainSink {
    /// An empty sink with room for so many bytes, of which a call takes at most `piece`.
    pub fn new(alloc: Global, room: usize, piece: usize) -> Result<Self, OutOfMemory>
        requires { 0 < piece }
        ensures empty { IfOk result (λ s. s.written ≡ []) }
        ensures room { IfOk result (λ s. s.room ≡ room) }
        ensures piece { IfOk result (λ s. s.piece ≡ piece) }
        ensures fresh { IfOk result (λ s. s.faults ≡ 0) }
    {
        let bytes = vec![in alloc; 0u8; room]?;
        Ok(PlainSink {
            bytes,
            len: 0,
            piece,
            faults: 0,
        })
    }

    /// What was written.
    pub fn written(&self) -> &[u8]
        ensures { result.now ≡ self.now.written }
    {
        &self.bytes[..self.len]
    }

    /// How often a call has failed.
    pub fn faults(&self) -> u64
        ensures { result ≡ self.now.faults }
    {
        self.faults
    }
}

impl Sink for PlainSink {
    ghost written = { λ s. Some s.written };

    ghost faults = { λ s. s.faults };

    fn write(&mut self, piece: &[u8]) -> Result<usize, Failed>
        ensures bound { WritesAtMost result piece.now }
        ensures progress { IfOk result (λ n. 0 < length piece.now → 0 < n) }
        ensures bytes { WriteAppends (Some self.old.written) (Some self.new.written) result piece.now }
        ensures cause { HasCause self.old.faults self.new.faults result }
        ensures fails { IsErr result ↔ ((0 < length piece.now) × (self.old.room ≤ length self.old.written)) }
        ensures raised { OnErr result (self.new.faults ≡ risen self.old.faults) }
        ensures no_faults { OnOk result (self.new.faults ≡ self.old.faults) }
        ensures count { IfOk result (λ n. n
            ≡ min (min (length piece.now) self.old.piece) (self.old.room - length self.old.written)) }
        ensures same { (self.new.room ≡ self.old.room) × (self.new.piece ≡ self.old.piece) }
    {
        let room = self.bytes.len() - self.len;
        if !piece.is_empty() && room == 0 {
            self.faults = self.faults.saturating_add(1);
            return Err(Failed);
        }
        let count = piece.len().min(self.piece).min(room);
        self.bytes[self.len..self.len + count].copy_from_slice(&piece[..count]);
        self.len += count;
        Ok(count)
    }
}
