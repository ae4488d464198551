ghost use Rattle.std.specs.Prelude.{◌≡◌, ◌<◌, ◌≤◌, ◌↔◌, ◌⊎◌, [], length, IfOk, IsErr, is_err, Some, None, min};
ghost use Rattle.std.specs.Io.{ReadsAtMost};
ghost use Rattle.std.specs.Io.KnownBytes.{ReadConsumes, WriteAppends};
ghost use Rattle.hq_io.specs.Causes.{HasCause};
ghost use Rattle.hq_io_memory.specs.Calls.{calls_from, IsToFail, after};
ghost use Rattle.hq_io_memory.specs.Contents.{free};

use crate::{MemSink, MemSource, SureSink, SureSource};
use hq_base::{Bytes, List, Memory};
use hq_io::{Link, NumList, ReadFailed, Sink, Source, WriteFailed};
use std::alloc::Global;

/// A link in memory: a source and a sink.
#[derive(Drop)]
pub struct MemLink {
    pub input: MemSource,
    pub out: MemSink,
}

impl MemLink {
    /// A link with these bytes to read, and room for so many bytes, whose memory it takes now. Later calls take none.
    pub fn new(
        alloc: Global,
        input: Bytes,
        room: usize,
        failing_reads: NumList,
        failing_writes: NumList,
    ) -> Result<Self, Memory>
        ensures input { IfOk result (λ link. link.input ≡ record { left = input; calls = calls_from failing_reads }) }
        ensures out { IfOk result (λ link. link.out ≡ record { written = []; room = room; calls = calls_from failing_writes }) }
    {
        Ok(MemLink {
            input: MemSource::new(input, failing_reads),
            out: MemSink::new(alloc, room, failing_writes)?,
        })
    }

    /// A link without input and without room.
    pub fn empty(alloc: Global) -> Self
        ensures input { result.input ≡ record { left = []; calls = calls_from [] } }
        ensures out { result.out ≡ record { written = []; room = 0; calls = calls_from [] } }
    {
        MemLink {
            input: MemSource::new(Bytes::new(alloc), List::new(alloc)),
            out: MemSink::full(alloc),
        }
    }
}

impl Link for MemLink {
    ghost left = { λ l. Some l.input.left };

    ghost written = { λ l. Some l.out.written };

    ghost read_faults = { λ l. l.input.calls.faults };

    ghost write_faults = { λ l. l.out.calls.faults };

    fn read_faults(&self) -> u64 {
        self.input.faults()
    }

    fn write_faults(&self) -> u64 {
        self.out.faults()
    }

    fn read(&mut self, buf: &mut [u8]) -> Result<usize, ReadFailed>
        ensures bound { ReadsAtMost result buf.new }
        ensures bytes { ReadConsumes (Some self.old.input.left) (Some self.new.input.left) result buf.new }
        ensures cause { HasCause self.old.input.calls.faults self.new.input.calls.faults result }
        ensures out { self.new.out ≡ self.old.out }
        ensures count { IfOk result (λ n. n ≡ min (length self.old.input.left) (length buf.new)) }
        ensures fails { IsErr result ↔ IsToFail self.old.input.calls }
        ensures calls { self.new.input.calls ≡ after (is_err result) self.old.input.calls }
    {
        self.input.read(buf)
    }

    fn write(&mut self, piece: &[u8]) -> Result<usize, WriteFailed>
        ensures bound { IfOk result (λ n. n ≤ length piece.now) }
        ensures some { IfOk result (λ n. 0 < length piece.now → 0 < n) }
        ensures bytes { WriteAppends (Some self.old.out.written) (Some self.new.out.written) result piece.now }
        ensures cause { HasCause self.old.out.calls.faults self.new.out.calls.faults result }
        ensures input { self.new.input ≡ self.old.input }
        ensures count { IfOk result (λ n. n ≡ min (length piece.now) (free self.old.out)) }
        ensures fails { IsErr result ↔ (IsToFail self.old.out.calls ⊎ (0 < length piece.now) × (free self.old.out ≡ 0)) }
        ensures calls { self.new.out.calls ≡ after (is_err result) self.old.out.calls }
        ensures room { self.new.out.room ≡ self.old.out.room }
    {
        self.out.write(piece)
    }
}

/// A link in memory that never fails, and neither keeps nor tells what is written to it.
#[derive(Drop)]
pub struct SureLink {
    pub input: SureSource,
    pub out: SureSink,
}

impl SureLink {
    /// A link with these bytes to read.
    pub fn new(input: Bytes) -> Self
        ensures { result.input ≡ input }
    {
        SureLink {
            input: SureSource::new(input),
            out: SureSink::new(),
        }
    }
}

impl Link for SureLink {
    ghost left = { λ l. Some l.input };

    ghost written = { λ _. None };

    ghost read_faults = { λ _. 0 };

    ghost write_faults = { λ _. 0 };

    fn read_faults(&self) -> u64 {
        0
    }

    fn write_faults(&self) -> u64 {
        0
    }

    fn read(&mut self, buf: &mut [u8]) -> Result<usize, ReadFailed> {
        self.input.read(buf)
    }

    fn write(&mut self, piece: &[u8]) -> Result<usize, WriteFailed> {
        self.out.write(piece)
    }
}
