ghost use Rattle.std.specs.Prelude.{◌≡◌};
ghost use Rattle.hq_load_catalog.specs.declared.refusal.CatalogRefusal.TheVariants as refusal;

use hq_base::{Memory as OutOfMemory, Txt};
use thiserror::Error;

/// Why a file is no catalog. A path tells a place in the file, such as `$.tables[0].columns[2].type`; an absent
/// member has the path that it would have.
#[derive(Debug, Drop, Error)]
pub enum CatalogRefusal {
    /// The bytes are no JSON value of whole numbers and texts without a zero byte.
    #[error("not JSON")]
    NotJson,
    /// A member is absent or of another kind, a type is unknown, a table has no column, a key or a foreign key names
    /// what is not there, or a foreign key's columns cannot be compared with those that they refer to.
    #[error("a part of the catalog has not its form")]
    Shape { path: Txt },
    /// Two tables have one name when schema and name are joined by a point, or a table has two columns of one name, or
    /// a primary key names a column twice. The name is that of the table, so joined, or of the column.
    #[error("a name is repeated")]
    Repeated { name: Txt },
    /// A table's primary key has no column. The table is told by schema and name, joined by a point.
    #[error("a table has no key")]
    NoKey { table: Txt },
    /// A schema's, table's or column's name has no byte, or more than 63.
    #[error("a name has not 1 to 63 bytes")]
    NameLength { name: Txt },
    /// There are more than 500 tables, or more than 200 columns in a table: `tables` or `columns`, and how many.
    #[error("too many tables or columns")]
    TooMany { what: Txt, count: u64 },
    #[error("out of memory")]
    Memory,
}

impl From<OutOfMemory> for CatalogRefusal {
    ghost from_gives = { λ _ e. e ≡ refusal.Memory };

    fn from(_: OutOfMemory) -> Self {
        CatalogRefusal::Memory
    }
}
