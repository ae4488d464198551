use hq_base::Memory;
use thiserror::Error;

/// Why a call on a connection failed.
#[derive(Clone, Copy, Debug, PartialEq, Eq, Error)]
pub enum LinkRefusal {
    /// The connection failed, and its count of faults rose.
    #[error("link failed")]
    Failed,
    #[error("out of memory")]
    Memory,
}

impl From<Memory> for LinkRefusal {
    ghost use Rattle.std.specs.Prelude.{◌≡◌};
    ghost use Rattle.hq_messages.specs.declared.refusal.LinkRefusal.TheVariants as refusal;

    ghost from_gives = { λ _ e. e ≡ refusal.Memory };

    fn from(_: Memory) -> Self {
        LinkRefusal::Memory
    }
}
