//! Pinning all tables of a store, and their rows.
ghost use Rattle.std.specs.Prelude.{◌≡◌, ◌≤◌, ◌<◌, ℕ, true, length, IfErr, IfOk, IfSome, OnOk};
ghost use Rattle.hq_copy_filter.specs.Lent.{database_of, rows_lent};
ghost use Rattle.hq_copy_filter.specs.Pinned.{RoseFor};
ghost use Rattle.hq_model.specs.Database.{is_database};
ghost use Rattle.hq_model.specs.Seen.{table_rows};

use hq_base::Memory;
use hq_load_tables::{Rows, StoreRefusal, Tables};
use hq_model::TableId;
use std::alloc::Global;

/// The rows of a table, where there is one.
pub(crate) fn rows_at<'d>(tables: &[&'d Rows], t: TableId) -> Option<&'d Rows>
    ensures { rows_lent result ≡ table_rows (database_of tables.now) t }
{
    match tables.get(t.at()) {
        Some(rows) => Some(*rows),
        None => None,
    }
}

/// Pins all tables, in ascending order, up to the first that fails to be read.
pub fn pin_all<T: Tables>(alloc: Global, tables: &mut T) -> Result<(), StoreRefusal>
    ensures pinned { OnOk result ((t : ℕ) → t < length (T.tables tables.old) → T.is_pinned tables.new t ≡ true) }
    ensures failed { IfErr result (RoseFor (T.faults tables.old) (T.faults tables.new)) }
    ensures tables { T.tables tables.new ≡ T.tables tables.old }
    ensures database { T.database tables.new ≡ T.database tables.old }
    ensures later { T.faults tables.old ≤ T.faults tables.new }
{
    let count = tables.catalog().tables.len();
    for at in 0..count {
        tables.pin(alloc, TableId::new(at))?;
    }
    Ok(())
}

/// The rows of all tables, which are pinned. They are a database for the catalog, and the told one where one is told.
pub fn all_rows<'d, T: Tables>(alloc: Global, tables: &'d T) -> Result<Vec<&'d Rows>, Memory>
    requires { (t : ℕ) → t < length (T.tables tables.now) → T.is_pinned tables.now t ≡ true }
    ensures valid { IfOk result (λ rows. is_database (T.tables tables.now) (database_of rows.items) ≡ true) }
    ensures told { IfOk result (λ rows. IfSome (T.database tables.now) (λ d. database_of rows.items ≡ d)) }
{
    let count = tables.catalog().tables.len();
    let mut all = Vec::with_capacity(alloc, count)?;
    for at in 0..count {
        all.push(tables.pinned(TableId::new(at)))?;
    }
    Ok(all)
}
