//! The most rows that are selected of a table.
ghost use Rattle.std.specs.Prelude.{◌≡◌};
ghost use Rattle.hq_model.specs.Selected.{smaller};
ghost use Rattle.hq_compile_tables.specs.Contexts.{context_granted};
ghost use Rattle.hq_compile_tables.specs.Limits.{row_limit};

use crate::context::Context;
use hq_model::TableId;

/// What rows are selected for.
#[derive(Clone, Copy)]
pub enum RowUse {
    /// Their objects.
    List,
    /// Values over them.
    Aggregate,
}

/// A number of rows in 64 bits.
pub fn wide(rows: Option<u32>) -> Option<u64>
    ensures { result ≡ rows }
{
    match rows {
        Some(rows) => Some(u64::from(rows)),
        None => None,
    }
}

// The smaller of the request's own limit and the permission's.
fn smaller(own: Option<u32>, permission: Option<u64>) -> Option<u64>
    ensures { result ≡ smaller own permission }
{
    match (own, permission) {
        (None, limit) => limit,
        (Some(limit), None) => Some(u64::from(limit)),
        (Some(own), Some(permission)) => Some(u64::from(own).min(permission)),
    }
}

// The permission's limit on the rows of a list.
fn permission_limit(context: &Context, t: TableId) -> Option<u64>
    ensures { result ≡ (context_granted context.now).limit t }
{
    match context.granted(t) {
        Some(granted) => granted.limit,
        None => None,
    }
}

/// The most rows of table t, by the request's own limit and for a list also the permission's, which is none on what an aggregate is over.
pub fn row_limit(context: &Context, t: TableId, rows: RowUse, own: Option<u32>) -> Option<u64>
    ensures { result ≡ row_limit (context_granted context.now) t rows own }
{
    match rows {
        RowUse::List => smaller(own, permission_limit(context, t)),
        RowUse::Aggregate => wide(own),
    }
}
