ghost use Rattle.std.specs.Prelude.{◌≡◌};
ghost use Rattle.hq_load_tables.specs.declared.load.refusal.LoadRefusal.TheVariants as refusal;

use crate::field::FieldRefusal;
use hq_base::Memory;
use std::alloc::AllocFailed;
use thiserror::Error;

/// Why a table file is refused: the first fault, by record. Records are numbered from 1, the header, and the fields of a
/// record from 1.
#[derive(Clone, Copy, Debug, Error)]
pub enum LoadRefusal {
    /// The first record is not the table's column names, each once.
    #[error("the header is not the table's column names")]
    Header,
    /// A record has more or fewer fields than the header.
    #[error("record {line} has another number of fields")]
    Width { line: u64 },
    #[error("field {col} of record {line} is not UTF-8")]
    NotUtf8 { line: u64, col: u64 },
    #[error("field {col} of record {line} has a zero byte")]
    ZeroByte { line: u64, col: u64 },
    /// The field is no whole number in the column's range.
    #[error("field {col} of record {line} is no whole number of its column")]
    NotInteger { line: u64, col: u64 },
    /// The field is none of `t`, `f`, `true` and `false`.
    #[error("field {col} of record {line} is no truth value")]
    NotBoolean { line: u64, col: u64 },
    /// The field is no uuid in its one form.
    #[error("field {col} of record {line} is no uuid in its one form")]
    NotUuid { line: u64, col: u64 },
    #[error("field {col} of record {line} is NULL")]
    NullInNotNull { line: u64, col: u64 },
    /// The file ends inside a quoted field of this record, its last.
    #[error("the file ends inside a quoted field of record {line}")]
    Unclosed { line: u64 },
    /// The record's key is that of an earlier one.
    #[error("the key of record {line} is that of record {earlier}")]
    RepeatedKey { line: u64, earlier: u64 },
    #[error("out of memory")]
    Memory,
}

impl From<Memory> for LoadRefusal {
    ghost from_gives = { λ _ e. e ≡ refusal.Memory };

    fn from(_: Memory) -> Self {
        LoadRefusal::Memory
    }
}

impl<T: Drop> From<AllocFailed<T>> for LoadRefusal {
    ghost from_gives = { λ _ e. e ≡ refusal.Memory };

    fn from(_: AllocFailed<T>) -> Self {
        LoadRefusal::Memory
    }
}

impl LoadRefusal {
    ghost use Rattle.hq_load_tables.specs.Unclosed.{refused_record, unclosed_unless};

    /// The number of the record that it is of. Want of memory is of none.
    pub fn record(self) -> Option<u64>
        ensures { result ≡ refused_record self }
    {
        match self {
            LoadRefusal::Header => Some(1),
            LoadRefusal::Width { line }
            | LoadRefusal::NotUtf8 { line, .. }
            | LoadRefusal::ZeroByte { line, .. }
            | LoadRefusal::NotInteger { line, .. }
            | LoadRefusal::NotBoolean { line, .. }
            | LoadRefusal::NotUuid { line, .. }
            | LoadRefusal::NullInNotNull { line, .. }
            | LoadRefusal::Unclosed { line }
            | LoadRefusal::RepeatedKey { line, .. } => Some(line),
            LoadRefusal::Memory => None,
        }
    }

    /// The refusal of a file that ends inside a quoted field of its last record, where this one is due of its records.
    pub fn or_unclosed(self, last: u64) -> LoadRefusal
        ensures { result ≡ unclosed_unless last self }
    {
        match self.record() {
            Some(line) if line >= last => LoadRefusal::Unclosed { line: last },
            _ => self,
        }
    }
}

impl FieldRefusal {
    ghost use Rattle.hq_load_tables.specs.Load.{refusal_at};

    /// The refusal with the field's place.
    pub fn at(self, line: u64, col: u64) -> LoadRefusal
        ensures { result ≡ refusal_at line col self }
    {
        match self {
            FieldRefusal::NotUtf8 => LoadRefusal::NotUtf8 { line, col },
            FieldRefusal::ZeroByte => LoadRefusal::ZeroByte { line, col },
            FieldRefusal::NotInteger => LoadRefusal::NotInteger { line, col },
            FieldRefusal::NotBoolean => LoadRefusal::NotBoolean { line, col },
            FieldRefusal::NotUuid => LoadRefusal::NotUuid { line, col },
            FieldRefusal::NullInNotNull => LoadRefusal::NullInNotNull { line, col },
            FieldRefusal::Memory => LoadRefusal::Memory,
        }
    }
}
