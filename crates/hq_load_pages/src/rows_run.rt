//! The run of a table's rows.
ghost use Rattle.std.specs.Prelude.{◌≡◌, true, flat_map, length, IfOk, OnOk, Some};
ghost use Rattle.hq_base.specs.Lists.{Each};
ghost use Rattle.hq_model.specs.Database.{are_rows};
ghost use Rattle.hq_load_pages.specs.Cells.{ReadsBack};
ghost use Rattle.hq_load_pages.specs.Directory.{rows_of_run};
ghost use Rattle.hq_load_pages.specs.DiskPages.{rows_bytes};
ghost use Rattle.hq_load_pages.specs.Runs.{run_of};

use crate::run::write_run;
use hq_base::Memory;
use hq_load_tables::Rows;
use hq_model::Table;
use std::alloc::Global;

// The bytes of the cells of all rows.
fn cells_run(alloc: Global, rows: &Rows) -> Result<Vec<u8>, Memory>
    ensures bytes { IfOk result (λ bytes. bytes.items ≡ run_of (flat_map (λ row. row) rows.now)) }
    ensures back { OnOk result (Each ReadsBack (flat_map (λ row. row) rows.now)) }
{
    let mut run = Vec::new(alloc);
    let mut at = 0;
    'rows: while at < rows.len() {
        write_run(&mut run, rows.row(at))?;
        at += 1;
    }
    Ok(run)
}

/// The run of a table's rows, from which they read back.
pub fn rows_run(alloc: Global, rows: &Rows, table: &Table) -> Result<Vec<u8>, Memory>
    requires { are_rows table.now rows.now ≡ true }
    ensures bytes { IfOk result (λ bytes. bytes.items ≡ rows_bytes rows.now) }
    ensures back { IfOk result (λ bytes. rows_of_run table.now (length rows.now) bytes.items ≡ Some rows.now) }
{
    let _columns = table.columns.len();
    cells_run(alloc, rows)
}
