ghost use Rattle.std.specs.Prelude.{◌≡◌};
ghost use Rattle.hq_gql_lexer.specs.declared.refusal.LexRefusal.TheVariants.{Memory as Out};

use hq_base::Memory;
use std::alloc::{AllocError, AllocFailed};
use thiserror::Error;

/// Why a text has no tokens. Each place is that of a byte, from 0.
#[derive(Clone, Copy, Debug, Error)]
pub enum LexRefusal {
    /// No token, comment or ignored character begins here, or a string or comment cannot hold this character.
    #[error("no token begins at byte {at}")]
    BadByte { at: u64 },
    /// A `\` of a string without a valid escape.
    #[error("no escape is at byte {at}")]
    BadEscape { at: u64 },
    /// The opening quote of a string that is not closed.
    #[error("the string at byte {at} is not closed")]
    OpenString { at: u64 },
    /// The start of a number with a leading zero, or that is followed by a digit, a `.` or a name.
    #[error("no number is at byte {at}")]
    BadNumber { at: u64 },
    /// The bytes of a string or comment are not UTF-8 from here on.
    #[error("not UTF-8 at byte {at}")]
    NotUtf8 { at: u64 },
    #[error("out of memory")]
    Memory,
}

impl From<Memory> for LexRefusal {
    ghost from_gives = { λ _ e. e ≡ Out };

    fn from(_: Memory) -> Self {
        LexRefusal::Memory
    }
}

impl From<AllocError> for LexRefusal {
    ghost from_gives = { λ _ e. e ≡ Out };

    fn from(_: AllocError) -> Self {
        LexRefusal::Memory
    }
}

impl<T: Drop> From<AllocFailed<T>> for LexRefusal {
    ghost from_gives = { λ _ e. e ≡ Out };

    fn from(_: AllocFailed<T>) -> Self {
        LexRefusal::Memory
    }
}
