ghost use Rattle.std.specs.Prelude.{◌≡◌, ◌<◌, ◌≤◌, ℕ, List, length, IfOk, IsNone, OnErr};
ghost use Rattle.std.specs.Io.KnownBytes.{WriteAppends};
ghost use Rattle.std.specs.declared.option.Option.{Option};
ghost use Rattle.hq_io.specs.Causes.{HasCause};

use thiserror::Error;

/// A write failed, and the count of faults rose. Nothing was written.
#[derive(Clone, Copy, Debug, PartialEq, Eq, Error)]
#[error("write failed")]
pub struct WriteFailed;

/// Something to write bytes to.
pub trait Sink {
    /// The bytes that were written, where they are told.
    ghost written: { Self → Option (List ℕ) };

    /// How often it has failed.
    ghost faults: { Self → ℕ };

    /// How often it has failed. At its last value the count stays.
    fn faults(&self) -> u64
        ensures { result ≡ faults self.now };

    /// Takes bytes from the front of the piece, and answers how many: at least one of a piece that is not empty.
    fn write(&mut self, piece: &[u8]) -> Result<usize, WriteFailed>
        ensures bound { IfOk result (λ n. n ≤ length piece.now) }
        ensures some { IfOk result (λ n. 0 < length piece.now → 0 < n) }
        ensures bytes { WriteAppends (written self.old) (written self.new) result piece.now }
        ensures failed { OnErr result (written self.new ≡ written self.old) }
        ensures untold { IsNone (written self.old) → IsNone (written self.new) }
        ensures cause { HasCause (faults self.old) (faults self.new) result };
}
