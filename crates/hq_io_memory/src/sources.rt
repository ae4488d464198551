ghost use Rattle.std.specs.Prelude.{◌≡◌, ◌+◌, ◌↔◌, ◌<◌, ◌≤◌, ◌++◌, ℕ, List, [], length, drop, take, IfOk, IsErr, is_err, Some, min};
ghost use Rattle.std.specs.Io.{ReadsAtMost};
ghost use Rattle.std.specs.Io.KnownBytes.{ReadConsumes};
ghost use Rattle.hq_io.specs.Causes.{HasCause};
ghost use Rattle.hq_io_memory.specs.Calls.{calls_from, IsToFail, after};
ghost use Rattle.hq_io_memory.specs.Contents.{Input};

use crate::Calls;
use hq_base::Bytes;
use hq_io::{NumList, ReadFailed, Source};
use std::marker::Model;

/// A source in memory. Contracts see what is left of it, and its calls.
#[derive(Drop)]
pub struct MemSource {
    input: Bytes,
    at: usize,
    calls: Calls,
}

impl Model for MemSource {
    ghost use Rattle.std.specs.Prelude.{◌≤◌, drop, length};
    ghost use Rattle.hq_io_memory.specs.Contents.{Input};

    ghost Value = { Input };

    ghost view = { λ s. record { left = drop s.at s.input; calls = s.calls } };

    ghost invariant = { λ s. s.at ≤ length s.input };
}

impl MemSource {
    /// A source of these bytes.
    pub fn new(input: Bytes, failing: NumList) -> Self
        ensures { result ≡ record { left = input; calls = calls_from failing } }
    {
        MemSource {
            input,
            at: 0,
            calls: Calls::new(failing),
        }
    }
}

// Puts as many bytes into the front of the buffer as there are and as it has.
fn copy_front(bytes: &[u8], buf: &mut [u8]) -> usize
    ensures count { result ≡ min (length bytes.now) (length buf.new) }
    ensures copied { take result buf.new ≡ take result bytes.now }
{
    let count = bytes.len().min(buf.len());
    buf[..count].copy_from_slice(&bytes[..count]);
    count
}

// Goes on in the input by as many bytes as the buffer takes.
fn take_front(input: &[u8], at: &mut usize, buf: &mut [u8]) -> usize
    requires { at.old ≤ length input.now }
    ensures within { at.new ≤ length input.now }
    ensures count { result ≡ min (length (drop at.old input.now)) (length buf.new) }
    ensures taken { drop at.old input.now ≡ take result buf.new ++ drop at.new input.now }
    ensures end { result ≡ 0 → 0 < length buf.new → drop at.new input.now ≡ [] }
{
    let (_, left) = input.split_at(*at);
    let count = copy_front(left, buf);
    *at += count;
    count
}

impl Source for MemSource {
    ghost left = { λ s. Some s.left };

    ghost faults = { λ s. s.calls.faults };

    fn faults(&self) -> u64 {
        self.calls.faults
    }

    /// Fails exactly where the call's number is one of those that are to fail. Else it fills the buffer as far as
    /// bytes are left.
    fn read(&mut self, buf: &mut [u8]) -> Result<usize, ReadFailed>
        ensures bound { ReadsAtMost result buf.new }
        ensures bytes { ReadConsumes (Some self.old.left) (Some self.new.left) result buf.new }
        ensures cause { HasCause self.old.calls.faults self.new.calls.faults result }
        ensures count { IfOk result (λ n. n ≡ min (length self.old.left) (length buf.new)) }
        ensures fails { IsErr result ↔ IsToFail self.old.calls }
        ensures calls { self.new.calls ≡ after (is_err result) self.old.calls }
    {
        if self.calls.next_fails() {
            self.calls.fault();
            return Err(ReadFailed);
        }
        Ok(take_front(self.input.as_slice(), &mut self.at, buf))
    }
}

/// A source in memory that never fails. Contracts see what is left of it.
#[derive(Drop)]
pub struct SureSource {
    input: Bytes,
    at: usize,
}

impl Model for SureSource {
    ghost use Rattle.std.specs.Prelude.{◌≤◌, ℕ, List, drop, length};

    ghost Value = { List ℕ };

    ghost view = { λ s. drop s.at s.input };

    ghost invariant = { λ s. s.at ≤ length s.input };
}

impl SureSource {
    /// A source of these bytes.
    pub fn new(input: Bytes) -> Self
        ensures { result ≡ input }
    {
        SureSource { input, at: 0 }
    }
}

impl Source for SureSource {
    ghost left = { λ s. Some s };

    ghost faults = { λ _. 0 };

    fn faults(&self) -> u64 {
        0
    }

    fn read(&mut self, buf: &mut [u8]) -> Result<usize, ReadFailed> {
        Ok(take_front(self.input.as_slice(), &mut self.at, buf))
    }
}
