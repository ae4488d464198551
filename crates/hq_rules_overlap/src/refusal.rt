use hq_base::Memory;
use thiserror::Error;

/// Why the rule on fields that cannot be merged has no answer.
#[derive(Clone, Copy, Debug, PartialEq, Eq, Error)]
pub enum OverlapRefusal {
    /// The selection sets at fault have more fields and spreads than are compared in pairs.
    #[error("too many selection sets at fault")]
    TooMuchAtFault,
    #[error("out of memory")]
    Memory,
}

impl From<Memory> for OverlapRefusal {
    ghost use Rattle.std.specs.Prelude.{◌≡◌};
    ghost use Rattle.hq_rules_overlap.specs.declared.refusal.OverlapRefusal.TheVariants as refusal;

    ghost from_gives = { λ _ e. e ≡ refusal.Memory };

    fn from(_: Memory) -> Self {
        OverlapRefusal::Memory
    }
}
