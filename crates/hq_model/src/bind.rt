use crate::Want;
use hq_base::{Memory, Txt};
use std::alloc::{AllocError, AllocFailed};
use thiserror::Error;

/// Why a filter cannot be bound for a session: the first operand in read order that has no value.
#[derive(Debug, Drop, Error)]
pub enum BindRefusal {
    /// The session has no variable of this name.
    #[error("session variable {name:?} is missing")]
    NoVariable { name: Txt },
    /// The variable's text cannot be read as what is wanted.
    #[error("session variable {name:?} cannot be read as {want:?}")]
    BadVariable { name: Txt, want: Want },
    #[error("out of memory")]
    Memory,
}

impl From<Memory> for BindRefusal {
    ghost use Rattle.std.specs.Prelude.{◌≡◌};
    ghost use Rattle.hq_model.specs.declared.bind.BindRefusal.TheVariants as refusal;

    ghost from_gives = { λ _ e. e ≡ refusal.Memory };

    fn from(_: Memory) -> Self {
        BindRefusal::Memory
    }
}

impl From<AllocError> for BindRefusal {
    ghost use Rattle.std.specs.Prelude.{◌≡◌};
    ghost use Rattle.hq_model.specs.declared.bind.BindRefusal.TheVariants as refusal;

    ghost from_gives = { λ _ e. e ≡ refusal.Memory };

    fn from(_: AllocError) -> Self {
        BindRefusal::Memory
    }
}

impl<T: Drop> From<AllocFailed<T>> for BindRefusal {
    ghost use Rattle.std.specs.Prelude.{◌≡◌};
    ghost use Rattle.hq_model.specs.declared.bind.BindRefusal.TheVariants as refusal;

    ghost from_gives = { λ _ e. e ≡ refusal.Memory };

    fn from(_: AllocFailed<T>) -> Self {
        BindRefusal::Memory
    }
}
