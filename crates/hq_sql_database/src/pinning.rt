//! Pinning the tables of a statement.
ghost use Rattle.std.specs.Prelude.{◌≡◌, ◌≤◌, ◌<◌, ℕ, true, length, IfErr, OnOk};
ghost use Rattle.hq_sql_check.specs.Scans.{scans};
ghost use Rattle.hq_sql_tree.specs.View.{select_view};
ghost use Rattle.hq_sql_database.specs.Failures.{IsFailure, RoseFor};

use hq_database::DbRefusal;
use hq_load_tables::{StoreRefusal, Tables};
use hq_model::TableId;
use hq_sql_check::scanned;
use hq_sql_tree::Select;
use std::alloc::Global;

// Pins a table beside those that are pinned.
fn pin<T: Tables>(alloc: Global, tables: &mut T, t: TableId) -> Result<(), DbRefusal>
    requires { t < length (T.tables tables.old) }
    ensures pinned { OnOk result (T.is_pinned tables.new t ≡ true) }
    ensures kept { OnOk result ((u : ℕ) → T.is_pinned tables.old u ≡ true → T.is_pinned tables.new u ≡ true) }
    ensures others { IfErr result IsFailure }
    ensures failed { IfErr result (RoseFor (T.faults tables.old) (T.faults tables.new)) }
    ensures tables { T.tables tables.new ≡ T.tables tables.old }
    ensures database { T.database tables.new ≡ T.database tables.old }
    ensures later { T.faults tables.old ≤ T.faults tables.new }
{
    match tables.pin(alloc, t) {
        Ok(()) => Ok(()),
        Err(StoreRefusal::Failed { before, after }) => Err(DbRefusal::Failed { before, after }),
        Err(StoreRefusal::Memory) => Err(DbRefusal::Memory),
    }
}

/// Pins the tables that a statement takes rows from, in ascending order.
pub fn pin_tables<T: Tables>(
    alloc: Global,
    tables: &mut T,
    select: &Select,
) -> Result<(), DbRefusal>
    ensures pinned { OnOk result ((t : ℕ) → scans (select_view select.now) (T.tables tables.old) t ≡ true → T.is_pinned tables.new t ≡ true) }
    ensures within { OnOk result ((t : ℕ) → scans (select_view select.now) (T.tables tables.old) t ≡ true → t < length (T.tables tables.old)) }
    ensures others { IfErr result IsFailure }
    ensures failed { IfErr result (RoseFor (T.faults tables.old) (T.faults tables.new)) }
    ensures tables { T.tables tables.new ≡ T.tables tables.old }
    ensures database { T.database tables.new ≡ T.database tables.old }
    ensures later { T.faults tables.old ≤ T.faults tables.new }
{
    let marks = scanned(alloc, select, tables.catalog().tables.as_slice())?;
    for (at, is_scanned) in marks.iter().enumerate() {
        if *is_scanned {
            pin(alloc, tables, TableId::new(at))?;
        }
    }
    Ok(())
}
