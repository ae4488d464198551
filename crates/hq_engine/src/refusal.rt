use hq_base::Memory;
use thiserror::Error;

/// Why a request has no reply.
#[derive(Clone, Copy, Debug, PartialEq, Eq, Error)]
pub enum EngineRefusal {
    /// The database failed. Its count of faults rose from `before` to `after`.
    #[error("database failed {before} {after}")]
    Database { before: u64, after: u64 },
    #[error("out of memory")]
    Memory,
}

impl From<Memory> for EngineRefusal {
    ghost use Rattle.std.specs.Prelude.{◌≡◌};
    ghost use Rattle.hq_engine.specs.declared.refusal.EngineRefusal.TheVariants as refusal;

    ghost from_gives = { λ _ e. e ≡ refusal.Memory };

    fn from(_: Memory) -> Self {
        EngineRefusal::Memory
    }
}
