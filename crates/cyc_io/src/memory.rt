//! Sources and sinks in memory, of which chosen calls fail.
ghost use Rattle.std.specs.Prelude.{◌≡◌, ◌+◌, ◌-◌, ◌<◌, ◌≤◌, ◌↔◌, [], length, min, take, Some, OnOk, OnErr, IfOk};
ghost use Rattle.std.specs.Prelude.{IsErr};
ghost use Rattle.std.specs.Io.{ReadsAtMost, WritesAtMost};
ghost use Rattle.std.specs.Io.KnownBytes.{ReadConsumes, WriteAppends};
ghost use Rattle.cyc_io.specs.Causes.{HasCause, risen};
ghost use Rattle.cyc_io.specs.Memory.{InputFails, OutputFails, SameInput, SameOutput};

use crate::plain::copy_front;
use crate::{Failed, OutOfMemory, Sink, Source};
use std::alloc::Global;
use std::marker::Model;

/// Bytes in memory, given out in pieces. A call fails, and raises the count of faults, exactly where
/// its number is listed.
#[derive(Drop)]
pub struct MemSource {
    bytes: Vec<u8>,
    at: usize,
    piece: usize,
    failing: Vec<u64>,
    calls: u64,
    faults: u64,
}

impl Model for MemSource {
    ghost use Rattle.std.specs.Prelude.{◌<◌, ◌≤◌, length, drop};
    ghost use Rattle.cyc_io.specs.Memory.{MemoryInput};

    ghost Value = { MemoryInput };

    ghost view = { λ s. record {
      left = drop s.at s.bytes.items;
      piece = s.piece;
      failing = s.failing.items;
      calls = s.calls;
      faults = s.faults;
    } };

    ghost invariant = { λ s. (s.at ≤ length s.bytes.items) × (0 < s.piece) };
}

impl MemSource {
    /// A source of these bytes. `piece` is the greatest number of bytes that a call gives, and
    /// `failing` the numbers of the calls that fail, the first call being number 1. A number that has
    /// reached the greatest `u64` stays there.
    pub fn new(bytes: Vec<u8>, piece: usize, failing: Vec<u64>) -> Self
        requires { 0 < piece }
        ensures left { result.left ≡ bytes.items }
        ensures piece { result.piece ≡ piece }
        ensures failing { result.failing ≡ failing.items }
        ensures fresh { (result.calls ≡ 0) × (result.faults ≡ 0) }
    {
        MemSource {
            bytes,
            at: 0,
            piece,
            failing,
            calls: 0,
            faults: 0,
        }
    }

    /// The bytes still to come.
    pub fn left(&self) -> &[u8]
        ensures { result.now ≡ self.now.left }
    {
        &self.bytes[self.at..]
    }

    /// How often a call has failed.
    pub fn faults(&self) -> u64
        ensures { result ≡ self.now.faults }
    {
        self.faults
    }

    /// How often it was called.
    pub fn calls(&self) -> u64
        ensures { result ≡ self.now.calls }
    {
        self.calls
    }
}

impl Source for MemSource {
    ghost left = { λ s. Some s.left };

    ghost faults = { λ s. s.faults };

    fn read(&mut self, buf: &mut [u8]) -> Result<usize, Failed>
        ensures bound { ReadsAtMost result buf.new }
        ensures bytes { ReadConsumes (Some self.old.left) (Some self.new.left) result buf.new }
        ensures cause { HasCause self.old.faults self.new.faults result }
        ensures fails { IsErr result ↔ InputFails self.old }
        ensures raised { OnErr result (self.new.faults ≡ risen self.old.faults) }
        ensures no_faults { OnOk result (self.new.faults ≡ self.old.faults) }
        ensures count { IfOk result (λ n. n ≡ min (min (length buf.old) self.old.piece) (length self.old.left)) }
        ensures calls { self.new.calls ≡ risen self.old.calls }
        ensures same { SameInput self.old self.new }
    {
        self.calls = self.calls.saturating_add(1);
        if self.failing.contains(&self.calls) {
            self.faults = self.faults.saturating_add(1);
            return Err(Failed);
        }
        let count = copy_front(buf, &self.bytes[self.at..], self.piece);
        self.at += count;
        Ok(count)
    }
}

/// Bytes collected in memory, in pieces, up to a room that was taken when it was made. A call fails,
/// and raises the count of faults, exactly where its number is listed or where a piece that isn't
/// empty meets a full room.
#[derive(Drop)]
pub struct MemSink {
    bytes: Vec<u8>,
    len: usize,
    piece: usize,
    failing: Vec<u64>,
    calls: u64,
    faults: u64,
}

impl Model for MemSink {
    ghost use Rattle.std.specs.Prelude.{◌<◌, ◌≤◌, length, take};
    ghost use Rattle.cyc_io.specs.Memory.{MemoryOutput};

    ghost Value = { MemoryOutput };

    ghost view = { λ s. record {
      written = take s.len s.bytes.items;
      room = length s.bytes.items;
      piece = s.piece;
      failing = s.failing.items;
      calls = s.calls;
      faults = s.faults;
    } };

    ghost invariant = { λ s. (s.len ≤ length s.bytes.items) × (0 < s.piece) };
}

impl MemSink {
    /// An empty sink with room for so many bytes. `piece` is the greatest number of bytes that a call
    /// takes, and `failing` the numbers of the calls that fail, the first call being number 1. A
    /// number that has reached the greatest `u64` stays there.
    pub fn new(
        alloc: Global,
        room: usize,
        piece: usize,
        failing: Vec<u64>,
    ) -> Result<Self, OutOfMemory>
        requires { 0 < piece }
        ensures empty { IfOk result (λ s. s.written ≡ []) }
        ensures room { IfOk result (λ s. s.room ≡ room) }
        ensures piece { IfOk result (λ s. s.piece ≡ piece) }
        ensures failing { IfOk result (λ s. s.failing ≡ failing.items) }
        ensures fresh { IfOk result (λ s. (s.calls ≡ 0) × (s.faults ≡ 0)) }
    {
        let bytes = vec![in alloc; 0u8; room]?;
        Ok(MemSink {
            bytes,
            len: 0,
            piece,
            failing,
            calls: 0,
            faults: 0,
        })
    }

    /// What was written.
    pub fn written(&self) -> &[u8]
        ensures { result.now ≡ self.now.written }
    {
        &self.bytes[..self.len]
    }

    /// How often a call has failed.
    pub fn faults(&self) -> u64
        ensures { result ≡ self.now.faults }
    {
        self.faults
    }

    /// How often it was called.
    pub fn calls(&self) -> u64
        ensures { result ≡ self.now.calls }
    {
        self.calls
    }
}

impl Sink for MemSink {
    ghost written = { λ s. Some s.written };

    ghost faults = { λ s. s.faults };

    fn write(&mut self, piece: &[u8]) -> Result<usize, Failed>
        ensures bound { WritesAtMost result piece.now }
        ensures progress { IfOk result (λ n. 0 < length piece.now → 0 < n) }
        ensures bytes { WriteAppends (Some self.old.written) (Some self.new.written) result piece.now }
        ensures cause { HasCause self.old.faults self.new.faults result }
        ensures fails { IsErr result ↔ OutputFails self.old piece.now }
        ensures raised { OnErr result (self.new.faults ≡ risen self.old.faults) }
        ensures no_faults { OnOk result (self.new.faults ≡ self.old.faults) }
        ensures count { IfOk result (λ n. n
            ≡ min (min (length piece.now) self.old.piece) (self.old.room - length self.old.written)) }
        ensures calls { self.new.calls ≡ risen self.old.calls }
        ensures same { SameOutput self.old self.new }
    {
        self.calls = self.calls.saturating_add(1);
        let room = self.bytes.len() - self.len;
        if self.failing.contains(&self.calls) || (!piece.is_empty() && room == 0) {
            self.faults = self.faults.saturating_add(1);
            return Err(Failed);
        }
        let count = piece.len().min(self.piece).min(room);
        self.bytes[self.len..self.len + count].copy_from_slice(&piece[..count]);
        self.len += count;
        Ok(count)
    }
}
