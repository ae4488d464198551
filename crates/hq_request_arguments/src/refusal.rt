ghost use Rattle.std.specs.Prelude.{◌≡◌};
ghost use Rattle.hq_request_arguments.specs.declared.refusal.ArgRefusal.TheVariants as refusal;

use hq_base::Memory as OutOfMemory;
use hq_gql_tree::RuleId;
use std::alloc::{AllocError, AllocFailed};
use thiserror::Error;

/// Why the arguments of a field are not coerced: the rule that they break, whose fault stands at the field.
#[derive(Debug, Drop, Error)]
pub enum ArgRefusal {
    #[error("an argument breaks a rule")]
    Rule(RuleId),
    #[error("out of memory")]
    Memory,
}

impl From<OutOfMemory> for ArgRefusal {
    ghost from_gives = { λ _ e. e ≡ refusal.Memory };

    fn from(_: OutOfMemory) -> Self {
        ArgRefusal::Memory
    }
}

impl From<AllocError> for ArgRefusal {
    ghost from_gives = { λ _ e. e ≡ refusal.Memory };

    fn from(_: AllocError) -> Self {
        ArgRefusal::Memory
    }
}

impl<T: Drop> From<AllocFailed<T>> for ArgRefusal {
    ghost from_gives = { λ _ e. e ≡ refusal.Memory };

    fn from(_: AllocFailed<T>) -> Self {
        ArgRefusal::Memory
    }
}
