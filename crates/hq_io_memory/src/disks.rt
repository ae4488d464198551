ghost use Rattle.std.specs.Prelude.{◌≡◌, ◌↔◌, ◌⊎◌, ◌+◌, ◌-◌, ◌<◌, ◌≤◌, ◌++◌, [], length, take, drop, max, min, vec_len, vec_capacity, IfOk, IsErr, is_err, OnErr, OnOk, Some};
ghost use Rattle.std.specs.Io.{ReadsAtMost};
ghost use Rattle.hq_io.specs.Causes.{HasCause};
ghost use Rattle.hq_io.specs.Disks.{Holds, HoldsAt};
ghost use Rattle.hq_io_memory.specs.Calls.{calls_from, IsToFail, after};
ghost use Rattle.hq_io_memory.specs.Contents.{Held};

use crate::Calls;
use hq_base::{Memory, Txt};
use hq_io::{Disk, DiskFailed, NumList};
use std::alloc::Global;
use std::marker::Model;

/// A disk in memory with room for so many bytes. Contracts see the bytes that it has, its room, and its calls.
#[derive(Drop)]
pub struct MemDisk {
    bytes: Vec<u8>,
    room: usize,
    calls: Calls,
}

impl Model for MemDisk {
    ghost use Rattle.std.specs.Prelude.{◌≤◌, vec_len, vec_capacity};
    ghost use Rattle.hq_io_memory.specs.Contents.{Held};

    ghost Value = { Held };

    ghost view = { λ d. record { bytes = d.bytes.items; room = d.room; calls = d.calls } };

    ghost invariant = { λ d. (vec_len d.bytes ≤ d.room) × (d.room ≤ vec_capacity d.bytes) };
}

impl MemDisk {
    /// A disk of these bytes with room for so many, whose memory it takes now. Later calls take none.
    pub fn new(alloc: Global, held: &[u8], room: usize, failing: NumList) -> Result<Self, Memory>
        requires { length held.now ≤ room }
        ensures { IfOk result (λ disk. disk ≡ record { bytes = held.now; room = room; calls = calls_from failing }) }
    {
        let mut bytes = Vec::with_capacity(alloc, room)?;
        bytes.extend_from_slice(held).unwrap();
        Ok(MemDisk {
            bytes,
            room,
            calls: Calls::new(failing),
        })
    }

    /// The bytes that it has.
    pub fn bytes(&self) -> &[u8]
        ensures { result.now ≡ self.now.bytes }
    {
        &self.bytes
    }

    /// How many calls were made. At its last value the count stays.
    pub fn calls(&self) -> u64
        ensures { result ≡ self.now.calls.made }
    {
        self.calls.made
    }
}

// Puts the piece at its place. There is room for it.
fn put(bytes: &mut Vec<u8>, at: usize, piece: &[u8])
    requires inside { at ≤ vec_len bytes.old }
    requires room { at + length piece.now ≤ vec_capacity bytes.old }
    ensures bytes { bytes.new.items ≡ take at bytes.old.items ++ piece.now ++ drop (at + length piece.now) bytes.old.items }
    ensures capacity { vec_capacity bytes.old ≤ vec_capacity bytes.new }
{
    let over = piece.len().min(bytes.len() - at);
    let (front, back) = piece.split_at(over);
    bytes[at..at + over].copy_from_slice(front);
    bytes.extend_from_slice(back).unwrap();
}

// Puts the bytes from this place on into the front of the buffer, as many as there are and as it has.
fn copy_from(bytes: &[u8], at: u64, buf: &mut [u8]) -> usize
    ensures count { result ≡ min (length buf.new) (length bytes.now - at) }
    ensures copied { HoldsAt (Some bytes.now) at (take result buf.new) }
{
    let from = at.min(bytes.len() as u64) as usize;
    let (_, left) = bytes.split_at(from);
    let count = left.len().min(buf.len());
    buf[..count].copy_from_slice(&left[..count]);
    count
}

impl Disk for MemDisk {
    ghost size = { λ d. length d.bytes };

    ghost held = { λ d. Some d.bytes };

    ghost calls = { λ d. Some d.calls.made };

    ghost faults = { λ d. d.calls.faults };

    fn faults(&self) -> u64 {
        self.calls.faults
    }

    /// Fails exactly where the call's number is one of those that are to fail.
    fn start(&mut self, _name: &Txt) -> Result<(), DiskFailed>
        ensures bytes { OnOk result (self.new.bytes ≡ []) }
        ensures bytes_err { OnErr result (self.new.bytes ≡ self.old.bytes) }
        ensures cause { HasCause self.old.calls.faults self.new.calls.faults result }
        ensures fails { IsErr result ↔ IsToFail self.old.calls }
        ensures calls { self.new.calls ≡ after (is_err result) self.old.calls }
        ensures room { self.new.room ≡ self.old.room }
    {
        if self.calls.next_fails() {
            self.calls.fault();
            return Err(DiskFailed);
        }
        self.bytes.clear();
        Ok(())
    }

    /// Fails exactly where the call's number is one of those that are to fail, or where the piece ends past the room.
    fn write_at(&mut self, at: u64, piece: &[u8]) -> Result<(), DiskFailed>
        requires { at ≤ length self.old.bytes }
        ensures size { OnOk result (length self.new.bytes ≡ max (length self.old.bytes) (at + length piece.now)) }
        ensures bytes { OnOk result (Holds (Some self.old.bytes) at piece.now (Some self.new.bytes)) }
        ensures bytes_err { OnErr result (self.new.bytes ≡ self.old.bytes) }
        ensures cause { HasCause self.old.calls.faults self.new.calls.faults result }
        ensures fails { IsErr result ↔ (IsToFail self.old.calls ⊎ self.old.room < at + length piece.now) }
        ensures calls { self.new.calls ≡ after (is_err result) self.old.calls }
        ensures room { self.new.room ≡ self.old.room }
    {
        let at = at as usize;
        if self.calls.next_fails() || piece.len() > self.room - at {
            self.calls.fault();
            return Err(DiskFailed);
        }
        put(&mut self.bytes, at, piece);
        Ok(())
    }

    /// Fails exactly where the call's number is one of those that are to fail.
    fn read_at(&mut self, at: u64, buf: &mut [u8]) -> Result<usize, DiskFailed>
        ensures bound { ReadsAtMost result buf.new }
        ensures copied { IfOk result (λ n. HoldsAt (Some self.old.bytes) at (take n buf.new)) }
        ensures count { IfOk result (λ n. n ≡ min (length buf.new) (length self.old.bytes - at)) }
        ensures bytes { self.new.bytes ≡ self.old.bytes }
        ensures cause { HasCause self.old.calls.faults self.new.calls.faults result }
        ensures fails { IsErr result ↔ IsToFail self.old.calls }
        ensures calls { self.new.calls ≡ after (is_err result) self.old.calls }
        ensures room { self.new.room ≡ self.old.room }
    {
        if self.calls.next_fails() {
            self.calls.fault();
            return Err(DiskFailed);
        }
        Ok(copy_from(&self.bytes, at, buf))
    }

    ghost use Rattle.std.specs.Prelude.{refl};

    ghost told_size = { λ d. refl };
}
