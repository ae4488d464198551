use hq_base::{Memory, Txt};
use hq_model::Want;
use thiserror::Error;

/// Why no copy is made for a session. A table is told by its schema and its name, joined by a point.
#[derive(Debug, Drop, Error)]
pub enum CopyRefusal {
    /// The session has no variable of this name, which a filter of a copied table asks for.
    #[error("session variable {name:?} is missing")]
    NoVariable { name: Txt },
    /// The variable's text cannot be read as what is wanted.
    #[error("session variable {name:?} cannot be read as {want:?}")]
    BadVariable { name: Txt, want: Want },
    /// A name of the original is kept for the columns that a copy adds, or two types or two root fields of the copy would have it.
    #[error("the name {name:?} is taken")]
    NameTaken { name: Txt },
    /// A column of the table's key shows in some rows only.
    #[error("the key of {table:?} is masked")]
    MaskedKey { table: Txt },
    /// The copy's table would have more than 200 columns.
    #[error("the copy of {table:?} has more than 200 columns")]
    TooWide { table: Txt },
    /// The rows could not be read: the store's count of faults rose from the one number to the other.
    #[error("rows could not be read: {before} faults before, {after} after")]
    Failed { before: u64, after: u64 },
    /// A text that the file of a table would not give back: at this row, counted from 1, or at 0 the name of the first column.
    #[error("row {position} of the copy of {table:?} cannot be written")]
    NotWritable { table: Txt, position: u64 },
    #[error("out of memory")]
    Memory,
}

impl From<Memory> for CopyRefusal {
    ghost use Rattle.std.specs.Prelude.{◌≡◌};
    ghost use Rattle.hq_copy_definition.specs.declared.refusal.CopyRefusal.TheVariants as refusal;

    ghost from_gives = { λ _ e. e ≡ refusal.Memory };

    fn from(_: Memory) -> Self {
        CopyRefusal::Memory
    }
}
