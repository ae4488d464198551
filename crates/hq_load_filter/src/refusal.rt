ghost use Rattle.std.specs.Prelude.{◌≡◌, ◌⊎◌};
ghost use Rattle.hq_load_filter.specs.declared.refusal.FilterRefusal.TheVariants as refusal;

use hq_base::{Memory as OutOfMemory, Txt};
use std::alloc::{AllocError, AllocFailed, Global};
use thiserror::Error;

/// Why JSON is no filter over a table, or names no table: what is wrong at the first bad node, and the node's path in the file, such as
/// `$.sources[0].tables[1].select_permissions[0].permission.filter._and[0].id._eq`.
#[derive(Debug, Drop, Error)]
pub enum FilterRefusal {
    /// A filter is no object, the value of `_and` or `_or` no list, that of `_exists` no object of `_table` and `_where`, the
    /// name of a column to compare with no text, or a table is not named as one is.
    #[error("a part of the filter has not its form")]
    Shape { path: Txt },
    /// A table is not in the catalog, or not tracked where it must be.
    #[error("a table is unknown")]
    UnknownTable { path: Txt },
    /// A member names neither a column of the table nor a relationship, or a column to compare with is not in the table.
    #[error("the filter names an unknown column")]
    UnknownColumn { path: Txt },
    /// An operator is unknown or not of the column's type, or an operand is no constant of it: a null, a value of a
    /// wrong kind or out of range, a pattern that ends in an escape, a session variable where none can stand, or a column
    /// whose values can't be compared with this one's. The path is that of the operand: of an operator's member, of an
    /// element of its list, or of the column where the operand stands for `_eq`.
    #[error("the filter has a bad operand")]
    BadOperand { path: Txt },
    #[error("out of memory")]
    Memory,
}

/// The refusal of the node at this path, for its form.
pub fn misshaped(alloc: Global, path: &Txt) -> FilterRefusal
    ensures { (result ≡ FilterRefusal.Memory) ⊎ (result ≡ FilterRefusal.Shape path.now) }
{
    match path.copy(alloc) {
        Ok(path) => FilterRefusal::Shape { path },
        Err(_) => FilterRefusal::Memory,
    }
}

/// The refusal of the table that the node at this path names.
pub fn unknown_table(alloc: Global, path: &Txt) -> FilterRefusal
    ensures { (result ≡ FilterRefusal.Memory) ⊎ (result ≡ FilterRefusal.UnknownTable path.now) }
{
    match path.copy(alloc) {
        Ok(path) => FilterRefusal::UnknownTable { path },
        Err(_) => FilterRefusal::Memory,
    }
}

/// The refusal of a name at this path that is no column's.
pub fn unknown_column(alloc: Global, path: &Txt) -> FilterRefusal
    ensures { (result ≡ FilterRefusal.Memory) ⊎ (result ≡ FilterRefusal.UnknownColumn path.now) }
{
    match path.copy(alloc) {
        Ok(path) => FilterRefusal::UnknownColumn { path },
        Err(_) => FilterRefusal::Memory,
    }
}

/// The refusal of the operand or operator at this path.
pub fn bad_operand(alloc: Global, path: &Txt) -> FilterRefusal
    ensures { (result ≡ FilterRefusal.Memory) ⊎ (result ≡ FilterRefusal.BadOperand path.now) }
{
    match path.copy(alloc) {
        Ok(path) => FilterRefusal::BadOperand { path },
        Err(_) => FilterRefusal::Memory,
    }
}

impl From<OutOfMemory> for FilterRefusal {
    ghost from_gives = { λ _ e. e ≡ refusal.Memory };

    fn from(_: OutOfMemory) -> Self {
        FilterRefusal::Memory
    }
}

impl From<AllocError> for FilterRefusal {
    ghost from_gives = { λ _ e. e ≡ refusal.Memory };

    fn from(_: AllocError) -> Self {
        FilterRefusal::Memory
    }
}

impl<T: Drop> From<AllocFailed<T>> for FilterRefusal {
    ghost from_gives = { λ _ e. e ≡ refusal.Memory };

    fn from(_: AllocFailed<T>) -> Self {
        FilterRefusal::Memory
    }
}
