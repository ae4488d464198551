ghost use Rattle.std.specs.Prelude.{◌≡◌, ◌≤◌, ◌+◌, ◌-◌, max, min, ℕ, List, [], length, take, IfOk, OnOk, OnErr, IfSome, IsNone, Some};
ghost use Rattle.std.specs.Io.{ReadsAtMost};
ghost use Rattle.std.specs.Option.{option_map};
ghost use Rattle.std.specs.declared.option.Option.{Option};
ghost use Rattle.hq_io.specs.Causes.{HasCause, one_more};
ghost use Rattle.hq_io.specs.Disks.{Holds, HoldsAt};

use hq_base::Txt;
use thiserror::Error;

/// A call of a disk failed, and the count of faults rose. The disk has the bytes that it had.
#[derive(Clone, Copy, Debug, PartialEq, Eq, Error)]
#[error("disk failed")]
pub struct DiskFailed;

/// A run of bytes that is written and read at places.
pub trait Disk {
    /// How many bytes it has, also where they are not told.
    ghost size: { Self → ℕ };

    /// The bytes, where they are told.
    ghost held: { Self → Option (List ℕ) };

    /// How many calls of `start`, `write_at` and `read_at` were made, where it is told. At the last value of a `u64`
    /// the count stays.
    ghost calls: { Self → Option ℕ };

    /// How often it has failed.
    ghost faults: { Self → ℕ };

    /// How often it has failed. At its last value the count stays.
    fn faults(&self) -> u64
        ensures { result ≡ faults self.now };

    /// Begins anew, under this name, without bytes.
    fn start(&mut self, name: &Txt) -> Result<(), DiskFailed>
        ensures size { OnOk result (size self.new ≡ 0) }
        ensures held { OnOk result (IfSome (held self.old) (λ _. held self.new ≡ Some [])) }
        ensures untold { IsNone (held self.old) → IsNone (held self.new) }
        ensures size_err { OnErr result (size self.new ≡ size self.old) }
        ensures held_err { OnErr result (held self.new ≡ held self.old) }
        ensures calls { calls self.new ≡ option_map one_more (calls self.old) }
        ensures cause { HasCause (faults self.old) (faults self.new) result };

    /// Puts the piece at this place, which is at most the size. What it had there goes, and all else stays.
    fn write_at(&mut self, at: u64, piece: &[u8]) -> Result<(), DiskFailed>
        requires { at ≤ size self.old }
        ensures size { OnOk result (size self.new ≡ max (size self.old) (at + length piece.now)) }
        ensures held { OnOk result (Holds (held self.old) at piece.now (held self.new)) }
        ensures untold { IsNone (held self.old) → IsNone (held self.new) }
        ensures size_err { OnErr result (size self.new ≡ size self.old) }
        ensures held_err { OnErr result (held self.new ≡ held self.old) }
        ensures calls { calls self.new ≡ option_map one_more (calls self.old) }
        ensures cause { HasCause (faults self.old) (faults self.new) result };

    /// Puts the bytes from this place on into the front of the buffer, and answers how many: as many as the buffer
    /// has or as there are.
    fn read_at(&mut self, at: u64, buf: &mut [u8]) -> Result<usize, DiskFailed>
        ensures bound { ReadsAtMost result buf.new }
        ensures bytes { IfOk result (λ n. HoldsAt (held self.old) at (take n buf.new)) }
        ensures count { IfOk result (λ n. n ≡ min (length buf.new) (size self.old - at)) }
        ensures size { size self.new ≡ size self.old }
        ensures held { held self.new ≡ held self.old }
        ensures calls { calls self.new ≡ option_map one_more (calls self.old) }
        ensures cause { HasCause (faults self.old) (faults self.new) result };

    /// The size is that of the bytes.
    ghost told_size: { (disk : Self) → IfSome (held disk) (λ bytes. length bytes ≡ size disk) };
}
