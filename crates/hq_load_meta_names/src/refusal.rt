ghost use Rattle.std.specs.Prelude.{◌≡◌};
ghost use Rattle.hq_load_meta_names.specs.declared.refusal.NameRefusal.TheVariants as refusal;

use hq_base::{Memory as OutOfMemory, Txt};
use thiserror::Error;

/// Why the names of a metadata make no schema.
#[derive(Debug, Drop, Error)]
pub enum NameRefusal {
    /// A name stands twice in its list. The path is that of the later one: the entry of its table, or the name of its
    /// relationship.
    #[error("a name is repeated")]
    Repeated { path: Txt },
    #[error("out of memory")]
    Memory,
}

impl From<OutOfMemory> for NameRefusal {
    ghost from_gives = { λ _ e. e ≡ refusal.Memory };

    fn from(_: OutOfMemory) -> Self {
        NameRefusal::Memory
    }
}
