ghost use Rattle.std.specs.Prelude.{◌≡◌, ◌<◌, ◌≤◌, ℕ, List, length, IfOk, IsNone, OnErr};
ghost use Rattle.std.specs.Io.{ReadsAtMost};
ghost use Rattle.std.specs.Io.KnownBytes.{ReadConsumes, WriteAppends};
ghost use Rattle.std.specs.declared.option.Option.{Option};
ghost use Rattle.hq_io.specs.Causes.{HasCause};

use crate::{ReadFailed, WriteFailed};

/// A connection, which is read and written, with a count of faults for each.
pub trait Link {
    /// The bytes that are left to read, where they are told.
    ghost left: { Self → Option (List ℕ) };

    /// The bytes that were written, where they are told.
    ghost written: { Self → Option (List ℕ) };

    /// How often a read has failed.
    ghost read_faults: { Self → ℕ };

    /// How often a write has failed.
    ghost write_faults: { Self → ℕ };

    /// How often a read has failed. At its last value the count stays.
    fn read_faults(&self) -> u64
        ensures { result ≡ read_faults self.now };

    /// How often a write has failed. At its last value the count stays.
    fn write_faults(&self) -> u64
        ensures { result ≡ write_faults self.now };

    /// Puts the next bytes into the front of the buffer, and answers how many. 0 for a buffer that is not empty is
    /// the end. It may wait for the peer.
    fn read(&mut self, buf: &mut [u8]) -> Result<usize, ReadFailed>
        ensures bound { ReadsAtMost result buf.new }
        ensures bytes { ReadConsumes (left self.old) (left self.new) result buf.new }
        ensures failed { OnErr result (left self.new ≡ left self.old) }
        ensures untold { IsNone (left self.old) → IsNone (left self.new) }
        ensures cause { HasCause (read_faults self.old) (read_faults self.new) result }
        ensures written { written self.new ≡ written self.old }
        ensures write_faults { write_faults self.new ≡ write_faults self.old };

    /// Takes bytes from the front of the piece, and answers how many: at least one of a piece that is not empty. It
    /// may wait for the peer.
    fn write(&mut self, piece: &[u8]) -> Result<usize, WriteFailed>
        ensures bound { IfOk result (λ n. n ≤ length piece.now) }
        ensures some { IfOk result (λ n. 0 < length piece.now → 0 < n) }
        ensures bytes { WriteAppends (written self.old) (written self.new) result piece.now }
        ensures failed { OnErr result (written self.new ≡ written self.old) }
        ensures untold { IsNone (written self.old) → IsNone (written self.new) }
        ensures cause { HasCause (write_faults self.old) (write_faults self.new) result }
        ensures left { left self.new ≡ left self.old }
        ensures read_faults { read_faults self.new ≡ read_faults self.old };
}
