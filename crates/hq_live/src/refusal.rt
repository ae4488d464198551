use hq_base::Memory;
use thiserror::Error;

/// Why an event was refused. All subscriptions and their last replies are as before.
#[derive(Clone, Copy, Debug, PartialEq, Eq, Error)]
pub enum StepRefusal {
    /// The subscriber has a subscription of this name.
    #[error("repeated")]
    Repeated,
    /// The subscriber has 100 subscriptions.
    #[error("too many")]
    TooMany,
    #[error("out of memory")]
    Memory,
    /// Taking the next database failed, and the asker's count of faults rose from the first to the second.
    #[error("reload failed")]
    ReloadFailed { before: u64, after: u64 },
}

impl From<Memory> for StepRefusal {
    ghost use Rattle.std.specs.Prelude.{◌≡◌};
    ghost use Rattle.hq_live.specs.declared.refusal.StepRefusal.TheVariants as refusal;

    ghost from_gives = { λ _ e. e ≡ refusal.Memory };

    fn from(_: Memory) -> Self {
        StepRefusal::Memory
    }
}
