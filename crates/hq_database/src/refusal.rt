use hq_base::Memory;
use thiserror::Error;

/// Why a text was not answered.
#[derive(Clone, Copy, Debug, PartialEq, Eq, Error)]
pub enum DbRefusal {
    /// The bytes are the text of no statement.
    #[error("not SQL")]
    NotSql,
    /// The statement is not well-formed for the database's catalog.
    #[error("not typed")]
    NotTyped,
    /// The database failed. Its count of faults rose.
    #[error("failed")]
    Failed { before: u64, after: u64 },
    #[error("out of memory")]
    Memory,
}

impl From<Memory> for DbRefusal {
    ghost use Rattle.std.specs.Prelude.{◌≡◌};
    ghost use Rattle.hq_database.specs.declared.refusal.DbRefusal.TheVariants as refusal;

    ghost from_gives = { λ _ e. e ≡ refusal.Memory };

    fn from(_: Memory) -> Self {
        DbRefusal::Memory
    }
}
