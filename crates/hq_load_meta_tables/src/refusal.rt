ghost use Rattle.std.specs.Prelude.{◌≡◌};
ghost use Rattle.hq_load_meta_tables.specs.declared.refusal.MetaRefusal.TheVariants as refusal;
ghost use Rattle.hq_load_meta_tables.specs.Refused.{filter_refusal, name_refusal};

use hq_base::{Memory as OutOfMemory, Txt};
use hq_load_filter::FilterRefusal;
use hq_load_meta_names::NameRefusal;
use thiserror::Error;

/// Why a file is no metadata that fits the catalog. A path tells a place in the file, such as
/// `$.sources[0].tables[1].select_permissions[0].permission.columns[1]`, or with version 2 `$.tables[1]` and so on; an absent member has the path that it would have.
/// Where the file is wrapped, `$` is what stands in the wrapper.
#[derive(Debug, Drop, Error)]
pub enum MetaRefusal {
    /// The bytes are no JSON value of whole numbers and texts without a zero byte.
    #[error("not JSON")]
    NotJson,
    /// The version is neither 2 nor 3. It is told as compact JSON, and is empty where there is none.
    #[error("the version is neither 2 nor 3")]
    Version { found: Txt },
    /// A member is absent or of another kind, a name of a table, root field or relationship is no GraphQL Name that a schema
    /// may give, or a member stands there that would change names or what a role may see.
    #[error("a part of the metadata has not its form")]
    Shape { path: Txt },
    /// A table is not in the catalog, or a remote table, or one that a filter asks for, is not tracked.
    #[error("a table is unknown")]
    UnknownTable { path: Txt },
    /// A table has no such column.
    #[error("a column is unknown")]
    UnknownColumn { path: Txt },
    /// No foreign key of the catalog has these columns.
    #[error("there is no such foreign key")]
    NoForeignKey { path: Txt },
    /// An operator of a filter is unknown or not of the column's type, its operand can't be read, or the values of two columns
    /// that it compares can't be.
    #[error("an operand can't be read")]
    BadOperand { path: Txt },
    /// A mapping of columns is empty, or pairs columns whose values can't be compared.
    #[error("a mapping of columns can't be joined by")]
    BadMapping { path: Txt },
    /// A table is tracked twice, or two types, two root fields, or two fields or inputs of a type have one name.
    #[error("a name is repeated")]
    RepeatedName { path: Txt },
    /// A role has two permissions on one table.
    #[error("a role is repeated")]
    RepeatedRole { path: Txt },
    /// There is not exactly one source, but so many.
    #[error("there is not one source")]
    Sources { count: u64 },
    #[error("out of memory")]
    Memory,
}

impl From<OutOfMemory> for MetaRefusal {
    ghost from_gives = { λ _ e. e ≡ refusal.Memory };

    fn from(_: OutOfMemory) -> Self {
        MetaRefusal::Memory
    }
}

impl From<FilterRefusal> for MetaRefusal {
    ghost from_gives = { λ cause e. e ≡ filter_refusal cause };

    fn from(cause: FilterRefusal) -> Self {
        match cause {
            FilterRefusal::Shape { path } => MetaRefusal::Shape { path },
            FilterRefusal::UnknownTable { path } => MetaRefusal::UnknownTable { path },
            FilterRefusal::UnknownColumn { path } => MetaRefusal::UnknownColumn { path },
            FilterRefusal::BadOperand { path } => MetaRefusal::BadOperand { path },
            FilterRefusal::Memory => MetaRefusal::Memory,
        }
    }
}

impl From<NameRefusal> for MetaRefusal {
    ghost from_gives = { λ cause e. e ≡ name_refusal cause };

    fn from(cause: NameRefusal) -> Self {
        match cause {
            NameRefusal::Repeated { path } => MetaRefusal::RepeatedName { path },
            NameRefusal::Memory => MetaRefusal::Memory,
        }
    }
}
