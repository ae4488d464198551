ghost use Rattle.std.specs.Prelude.{◌≡◌};
ghost use Rattle.hq_gql_parser.specs.declared.stop.Stop.TheVariants.{Memory as Out};

use hq_base::Memory;
use std::alloc::{AllocError, AllocFailed};

/// Where parsing stops, by the number of tokens that are left from there on.
#[derive(Clone, Copy)]
pub(crate) enum Stop {
    Unexpected(usize),
    TooDeep(usize),
    Memory,
}

impl From<Memory> for Stop {
    ghost from_gives = { λ _ e. e ≡ Out };

    fn from(_: Memory) -> Self {
        Stop::Memory
    }
}

impl From<AllocError> for Stop {
    ghost from_gives = { λ _ e. e ≡ Out };

    fn from(_: AllocError) -> Self {
        Stop::Memory
    }
}

impl<T: Drop> From<AllocFailed<T>> for Stop {
    ghost from_gives = { λ _ e. e ≡ Out };

    fn from(_: AllocFailed<T>) -> Self {
        Stop::Memory
    }
}
