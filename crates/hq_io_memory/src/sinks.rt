ghost use Rattle.std.specs.Prelude.{◌≡◌, ◌↔◌, ◌⊎◌, ◌<◌, ◌≤◌, [], length, IfOk, IsErr, is_err, Some, None, min};
ghost use Rattle.std.specs.Io.KnownBytes.{WriteAppends};
ghost use Rattle.hq_io.specs.Causes.{HasCause};
ghost use Rattle.hq_io_memory.specs.Calls.{calls_from, IsToFail, after};
ghost use Rattle.hq_io_memory.specs.Contents.{Output, free};

use crate::Calls;
use hq_base::{List, Memory};
use hq_io::{NumList, Sink, WriteFailed};
use std::alloc::Global;
use std::marker::Model;

/// A sink in memory with room for so many bytes. Contracts see what was written to it, its room, and its calls.
#[derive(Drop)]
pub struct MemSink {
    out: Vec<u8>,
    room: usize,
    calls: Calls,
}

impl Model for MemSink {
    ghost use Rattle.std.specs.Prelude.{◌≤◌, vec_len, vec_capacity};
    ghost use Rattle.hq_io_memory.specs.Contents.{Output};

    ghost Value = { Output };

    ghost view = { λ s. record { written = s.out.items; room = s.room; calls = s.calls } };

    ghost invariant = { λ s. (vec_len s.out ≤ s.room) × (s.room ≤ vec_capacity s.out) };
}

impl MemSink {
    /// A sink with room for so many bytes, whose memory it takes now. Later calls take none.
    pub fn new(alloc: Global, room: usize, failing: NumList) -> Result<Self, Memory>
        ensures { IfOk result (λ sink. sink ≡ record { written = []; room = room; calls = calls_from failing }) }
    {
        Ok(MemSink {
            out: Vec::with_capacity(alloc, room)?,
            room,
            calls: Calls::new(failing),
        })
    }

    /// A sink without room. It takes no memory.
    pub fn full(alloc: Global) -> Self
        ensures { result ≡ record { written = []; room = 0; calls = calls_from [] } }
    {
        MemSink {
            out: Vec::new(alloc),
            room: 0,
            calls: Calls::new(List::new(alloc)),
        }
    }

    /// What was written.
    pub fn bytes(&self) -> &[u8]
        ensures { result.now ≡ self.now.written }
    {
        &self.out
    }
}

impl Sink for MemSink {
    ghost written = { λ s. Some s.written };

    ghost faults = { λ s. s.calls.faults };

    fn faults(&self) -> u64 {
        self.calls.faults
    }

    /// Fails exactly where the call's number is one of those that are to fail, or where there are bytes to write and
    /// no room is left. Else it takes as much of the piece as there is room for.
    fn write(&mut self, piece: &[u8]) -> Result<usize, WriteFailed>
        ensures bound { IfOk result (λ n. n ≤ length piece.now) }
        ensures some { IfOk result (λ n. 0 < length piece.now → 0 < n) }
        ensures bytes { WriteAppends (Some self.old.written) (Some self.new.written) result piece.now }
        ensures cause { HasCause self.old.calls.faults self.new.calls.faults result }
        ensures count { IfOk result (λ n. n ≡ min (length piece.now) (free self.old)) }
        ensures fails { IsErr result ↔ (IsToFail self.old.calls ⊎ (0 < length piece.now) × (free self.old ≡ 0)) }
        ensures calls { self.new.calls ≡ after (is_err result) self.old.calls }
        ensures room { self.new.room ≡ self.old.room }
    {
        let free = self.room - self.out.len();
        if self.calls.next_fails() || (free == 0 && !piece.is_empty()) {
            self.calls.fault();
            return Err(WriteFailed);
        }
        let count = piece.len().min(free);
        self.out.extend_from_slice(&piece[..count]).unwrap();
        Ok(count)
    }
}

/// A sink that never fails, and neither keeps nor tells what is written to it.
#[derive(Drop)]
pub struct SureSink;

impl SureSink {
    pub fn new() -> Self {
        SureSink
    }
}

impl Sink for SureSink {
    ghost written = { λ _. None };

    ghost faults = { λ _. 0 };

    fn faults(&self) -> u64 {
        0
    }

    fn write(&mut self, piece: &[u8]) -> Result<usize, WriteFailed> {
        Ok(piece.len())
    }
}
