ghost use Rattle.std.specs.Prelude.{◌≡◌, ◌<◌, ◌≤◌, length, None, IfOk};
ghost use Rattle.std.specs.Io.{ReadsAtMost};
ghost use Rattle.std.specs.Io.KnownBytes.{ReadConsumes, WriteAppends};
ghost use Rattle.hq_io.specs.Causes.{HasCause};

use crate::interrupted;
use hq_io::{Link, ReadFailed, WriteFailed, count_fault};
use std::io;
use std::io::{Read, Write};
use std::net::{OpenStream, Shutdown};
use std::time::{Clock, Duration, Instant};

/// How long a read or a write waits for the peer, in seconds. One that waits longer is a fault.
pub const PATIENCE: u64 = 60;

// How long the first read behind a write waits for the peer, in seconds: it has had its reply, and may be done.
const IDLE: u64 = 5;

// How long input is taken that is thrown away, in milliseconds, and how many bytes of it.
const DRAINING: u64 = 1_000;

const MOST_DRAINED: usize = 1_048_576;

/// A connection of the system, whose faults are counted. That it takes nothing of a piece is one of them.
#[derive(Drop)]
pub struct TcpLink<S> {
    stream: S,
    /// How long a read waits now, in seconds.
    limit: u64,
    /// Whether nothing was read since the last write.
    written: bool,
    read_faults: u64,
    write_faults: u64,
}

/// Limits how long the peer of a stream is waited for, to 60 seconds, and lets each reply leave at once.
pub fn set_limits<S: OpenStream>(stream: &S) -> io::Result<()> {
    stream.set_read_timeout(Some(Duration::from_secs(PATIENCE)))?;
    stream.set_write_timeout(Some(Duration::from_secs(PATIENCE)))?;
    stream.set_nodelay(true)
}

// Reads what comes, and throws it away: up to so many bytes, until the time is up, the input ends or reading fails.
fn drain<R: Clock, S: Read + OpenStream>(rt: &R, stream: &mut S) -> io::Result<()> {
    let start = Instant::now(rt)?;
    let mut buf = [0u8; 16_384];
    let mut left = MOST_DRAINED;
    'pieces: while left > 0 {
        let time = Duration::from_millis(DRAINING).saturating_sub(start.elapsed(rt)?);
        stream.set_read_timeout(Some(time))?;
        let count = interrupted::read(stream, &mut buf)?;
        if count == 0 {
            return Ok(());
        }
        left = left.saturating_sub(count);
    }
    Ok(())
}

impl<S: Read + Write + OpenStream> TcpLink<S> {
    /// The connection of this stream, which gets its limits.
    pub fn new(stream: S) -> io::Result<Self>
    where
        S: Drop,
    {
        set_limits(&stream)?;
        Ok(TcpLink {
            stream,
            limit: PATIENCE,
            written: false,
            read_faults: 0,
            write_faults: 0,
        })
    }

    // Limits how long the next read waits.
    fn limit_read(&mut self) -> io::Result<()>
        ensures stream { self.new.stream ≡ self.old.stream }
        ensures read_faults { self.new.read_faults ≡ self.old.read_faults }
        ensures write_faults { self.new.write_faults ≡ self.old.write_faults }
    {
        let limit = if self.written { IDLE } else { PATIENCE };
        self.written = false;
        if limit != self.limit {
            self.stream
                .set_read_timeout(Some(Duration::from_secs(limit)))?;
            self.limit = limit;
        }
        Ok(())
    }

    // Reads within the limit.
    fn read_limited(&mut self, buf: &mut [u8]) -> io::Result<usize>
        ensures bound { ReadsAtMost result buf.new }
        ensures read_faults { self.new.read_faults ≡ self.old.read_faults }
        ensures write_faults { self.new.write_faults ≡ self.old.write_faults }
        ensures given { ReadConsumes (S.remaining self.old.stream) (S.remaining self.new.stream) result buf.new }
    {
        self.limit_read()?;
        interrupted::read(&mut self.stream, buf)
    }

    /// Ends what is written, so that the peer sees its end. Where input may be `unread`, some of it is taken first: a
    /// system that closes a stream with input left resets it, and the peer may lose what it has not read yet.
    pub fn close<R: Clock>(mut self, rt: &R, unread: bool)
    where
        S: Drop,
    {
        let _ = self.stream.shutdown(Shutdown::Write);
        if unread {
            let _ = drain(rt, &mut self.stream);
        }
    }
}

impl<S: Read + Write + OpenStream> Link for TcpLink<S> {
    ghost left = { λ _. None };

    ghost written = { λ _. None };

    ghost read_faults = { λ l. l.read_faults };

    ghost write_faults = { λ l. l.write_faults };

    fn read_faults(&self) -> u64 {
        self.read_faults
    }

    fn write_faults(&self) -> u64 {
        self.write_faults
    }

    /// Hands on what the stream gives.
    fn read(&mut self, buf: &mut [u8]) -> Result<usize, ReadFailed>
        ensures bound { ReadsAtMost result buf.new }
        ensures cause { HasCause self.old.read_faults self.new.read_faults result }
        ensures write_faults { self.new.write_faults ≡ self.old.write_faults }
        ensures given { ReadConsumes (S.remaining self.old.stream) (S.remaining self.new.stream) result buf.new }
    {
        match self.read_limited(buf) {
            Ok(count) => Ok(count),
            Err(_) => {
                count_fault(&mut self.read_faults);
                Err(ReadFailed)
            }
        }
    }

    /// Hands on what the stream takes.
    fn write(&mut self, piece: &[u8]) -> Result<usize, WriteFailed>
        ensures bound { IfOk result (λ n. n ≤ length piece.now) }
        ensures some { IfOk result (λ n. 0 < length piece.now → 0 < n) }
        ensures cause { HasCause self.old.write_faults self.new.write_faults result }
        ensures read_faults { self.new.read_faults ≡ self.old.read_faults }
        ensures taken { WriteAppends (S.contents self.old.stream) (S.contents self.new.stream) result piece.now }
    {
        self.written = true;
        match interrupted::write(&mut self.stream, piece) {
            Ok(count) if count > 0 || piece.is_empty() => Ok(count),
            _ => {
                count_fault(&mut self.write_faults);
                Err(WriteFailed)
            }
        }
    }
}
