use hq_base::Memory;
use thiserror::Error;

/// Why there is no text of a part of a copy.
#[derive(Clone, Copy, Debug, Error)]
pub enum PartRefusal {
    /// The copy has no part of this name.
    #[error("the copy has no such part")]
    NoSuchPart,
    /// The text has more than 268,435,456 bytes.
    #[error("the part is too large")]
    TooLarge,
    #[error("out of memory")]
    Memory,
}

impl From<Memory> for PartRefusal {
    ghost use Rattle.std.specs.Prelude.{◌≡◌};
    ghost use Rattle.hq_copy_text.specs.declared.refusal.PartRefusal.TheVariants as refusal;

    ghost from_gives = { λ _ e. e ≡ refusal.Memory };

    fn from(_: Memory) -> Self {
        PartRefusal::Memory
    }
}
