ghost use Rattle.std.specs.Prelude.{◌≡◌};
ghost use Rattle.hq_request_coerce.specs.declared.refusal.CoerceRefusal.TheVariants as refusal;

use hq_base::Memory as OutOfMemory;
use hq_gql_tree::Fault;
use std::alloc::{AllocError, AllocFailed};
use thiserror::Error;

/// Why values are not coerced.
#[derive(Debug, Drop, Error)]
pub enum CoerceRefusal {
    #[error("the request has a fault")]
    Fault(Fault),
    #[error("out of memory")]
    Memory,
}

impl From<OutOfMemory> for CoerceRefusal {
    ghost from_gives = { λ _ e. e ≡ refusal.Memory };

    fn from(_: OutOfMemory) -> Self {
        CoerceRefusal::Memory
    }
}

impl From<AllocError> for CoerceRefusal {
    ghost from_gives = { λ _ e. e ≡ refusal.Memory };

    fn from(_: AllocError) -> Self {
        CoerceRefusal::Memory
    }
}

impl<T: Drop> From<AllocFailed<T>> for CoerceRefusal {
    ghost from_gives = { λ _ e. e ≡ refusal.Memory };

    fn from(_: AllocFailed<T>) -> Self {
        CoerceRefusal::Memory
    }
}
