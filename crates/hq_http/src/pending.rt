ghost use Rattle.std.specs.Prelude.{◌≡◌, ◌+◌, ◌-◌, ◌<◌, ◌≤◌, [], length, take, drop, IfOk, OnErr};
ghost use Rattle.std.specs.Io.KnownBytes.{Consumes, IsAtEnd};
ghost use Rattle.hq_io.specs.Causes.{HasCause};
ghost use Rattle.hq_http.specs.Pending.{Fills};

use hq_base::Memory;
use hq_io::{Link, ReadFailed};
use std::alloc::Global;
use std::marker::Model;

/// The most bytes of a request: a head and a body.
pub const ROOM: usize = 1_064_960;

/// The bytes at hand: those that were read and belong to no request that was answered.
#[derive(Drop)]
pub struct PendingBytes {
    room: Vec<u8>,
    start: usize,
    end: usize,
}

impl Model for PendingBytes {
    ghost use Rattle.std.specs.Prelude.{◌≡◌, ◌≤◌, List, ℕ, drop, take, vec_len};

    ghost Value = { List ℕ };

    ghost view = { λ h. drop h.start (take h.end h.room.items) };

    ghost invariant = { λ h. (h.start ≤ h.end) × (h.end ≤ vec_len h.room) × (vec_len h.room ≡ 1064960) };
}

// Moves what lies from `start` to `end` to the front.
fn slide(room: &mut [u8], start: usize, end: usize)
    requires { (start ≤ end) × (end ≤ length room.old) }
    ensures front { take (end - start) room.new ≡ drop start (take end room.old) }
    ensures len { length room.new ≡ length room.old }
{
    if start == 0 {
        return;
    }
    let mut i = 0;
    'moved: while start + i < end {
        room[i] = room[start + i];
        i += 1;
    }
}

// Reads behind the first `end` bytes.
fn read_behind<L: Link>(link: &mut L, room: &mut [u8], end: usize) -> Result<usize, ReadFailed>
    requires { end < length room.old }
    ensures front { take end room.new ≡ take end room.old }
    ensures len { length room.new ≡ length room.old }
    ensures bound { IfOk result (λ n. end + n ≤ length room.new) }
    ensures bytes { IfOk result (λ n. Consumes (L.left link.old) (L.left link.new) (take n (drop end room.new))) }
    ensures over { IfOk result (λ n. n ≡ 0 → IsAtEnd (L.left link.new)) }
    ensures kept { OnErr result (L.left link.new ≡ L.left link.old) }
    ensures cause { HasCause (L.read_faults link.old) (L.read_faults link.new) result }
    ensures written { L.written link.new ≡ L.written link.old }
    ensures write_faults { L.write_faults link.new ≡ L.write_faults link.old }
{
    link.read(&mut room[end..])
}

impl PendingBytes {
    /// No bytes, with room for a request.
    pub fn new(alloc: Global) -> Result<PendingBytes, Memory>
        ensures { IfOk result (λ h. h ≡ []) }
    {
        Ok(PendingBytes {
            room: Vec::from_elem(alloc, 0u8, ROOM)?,
            start: 0,
            end: 0,
        })
    }

    /// The bytes.
    pub fn as_slice(&self) -> &[u8]
        ensures { result.now ≡ self.now }
    {
        self.room
            .as_slice()
            .split_at(self.end)
            .0
            .split_at(self.start)
            .1
    }

    /// Takes so many bytes from the front.
    pub fn advance(&mut self, n: usize)
        requires { n ≤ length self.old }
        ensures { self.new ≡ drop n self.old }
    {
        self.start += n;
    }

    /// Reads more bytes behind them. None come exactly at the end of what is told.
    pub fn fill<L: Link>(&mut self, link: &mut L) -> Result<usize, ReadFailed>
        requires { length self.old < 1064960 }
        ensures read { IfOk result (λ n. Fills (L.left link.old) (L.left link.new) self.old self.new n) }
        ensures fits { length self.new ≤ 1064960 }
        ensures kept { OnErr result (self.new ≡ self.old) }
        ensures kept_left { OnErr result (L.left link.new ≡ L.left link.old) }
        ensures cause { HasCause (L.read_faults link.old) (L.read_faults link.new) result }
        ensures written { L.written link.new ≡ L.written link.old }
        ensures write_faults { L.write_faults link.new ≡ L.write_faults link.old }
    {
        slide(&mut self.room, self.start, self.end);
        self.end -= self.start;
        self.start = 0;
        let n = read_behind(link, &mut self.room, self.end)?;
        self.end += n;
        Ok(n)
    }
}
