ghost use Rattle.std.specs.Prelude.{◌≡◌, ℕ, List, IsNone, OnErr};
ghost use Rattle.std.specs.Io.{ReadsAtMost};
ghost use Rattle.std.specs.Io.KnownBytes.{ReadConsumes};
ghost use Rattle.std.specs.declared.option.Option.{Option};
ghost use Rattle.hq_io.specs.Causes.{HasCause};

use thiserror::Error;

/// A read failed, and the count of faults rose. Nothing was read.
#[derive(Clone, Copy, Debug, PartialEq, Eq, Error)]
#[error("read failed")]
pub struct ReadFailed;

/// Something to read bytes from.
pub trait Source {
    /// The bytes that are left, where they are told.
    ghost left: { Self → Option (List ℕ) };

    /// How often it has failed.
    ghost faults: { Self → ℕ };

    /// How often it has failed. At its last value the count stays.
    fn faults(&self) -> u64
        ensures { result ≡ faults self.now };

    /// Puts the next bytes into the front of the buffer, and answers how many. 0 for a buffer that is not empty is
    /// the end.
    fn read(&mut self, buf: &mut [u8]) -> Result<usize, ReadFailed>
        ensures bound { ReadsAtMost result buf.new }
        ensures bytes { ReadConsumes (left self.old) (left self.new) result buf.new }
        ensures failed { OnErr result (left self.new ≡ left self.old) }
        ensures untold { IsNone (left self.old) → IsNone (left self.new) }
        ensures cause { HasCause (faults self.old) (faults self.new) result };
}
