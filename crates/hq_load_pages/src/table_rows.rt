//! The rows of a table, out of its pages.
ghost use Rattle.std.specs.Prelude.{◌≡◌, ◌≤◌, ◌<◌, ◌+◌, ◌*◌, ◌^◌, true, false, length, IfOk, OnOk, OnErr, IsErrOf, Some};
ghost use Rattle.std.specs.Map.{keys_of};
ghost use Rattle.hq_io.specs.Causes.{Rose};
ghost use Rattle.hq_model.specs.Database.{are_rows};
ghost use Rattle.hq_load_pages.specs.Counts.{Rises};
ghost use Rattle.hq_load_pages.specs.Directory.{reads_rows, rows_of_run, table_read};
ghost use Rattle.hq_load_pages.specs.Held.{are_pieces, WhereTold};
ghost use Rattle.hq_load_pages.specs.Touch.{missed_from, touched_from, TouchesSome};
ghost use Rattle.hq_load_pages.specs.declared.cache.TouchRefusal.TheVariants as refusal;

use crate::Header;
use crate::cache::{Pieces, TouchRefusal};
use crate::pages::touch_run;
use crate::run::read_run;
use crate::table_run::TableRun;
use hq_io::Disk;
use hq_load_tables::Rows;
use hq_model::Table;
use std::alloc::Global;

// The rows of a run of bytes, where it has so many valid ones of the table.
fn rows_in(alloc: Global, bytes: &[u8], count: usize, table: &Table) -> Result<Rows, TouchRefusal>
    requires { count * length table.now.columns < 2 ^ 63 }
    ensures rows { IfOk result (λ rows. rows_of_run table.now count bytes.now ≡ Some rows) }
    ensures valid { IfOk result (λ rows. are_rows table.now rows ≡ true) }
    ensures broken { IsErrOf result refusal.Broken → reads_rows table.now (rows_of_run table.now count bytes.now) ≡ false }
    ensures no_fault { IsErrOf result refusal.Failed → ⊥ }
{
    let Some(values) = read_run(alloc, count * table.columns.len(), bytes)? else {
        return Err(TouchRefusal::Broken);
    };
    match Rows::tested(alloc, values, count, table)? {
        Some(rows) => Ok(rows),
        None => Err(TouchRefusal::Broken),
    }
}

/// The rows of a table. Its pages are touched in ascending order.
pub fn read_table<K: Disk>(
    alloc: Global,
    pieces: &mut Pieces,
    disk: &mut K,
    headers: &[Header],
    run: TableRun,
    table: &Table,
) -> Result<Rows, TouchRefusal>
    requires inside { run.first + run.pages ≤ length headers.now }
    requires small { length headers.now ≤ 2 ^ 51 }
    requires cells { run.rows * length table.now.columns < 2 ^ 63 }
    requires pieces { WhereTold (K.held disk.old) (λ held. are_pieces (λ v. v.items) headers.now held pieces.old.entries ≡ true) }
    ensures cached { OnOk result (keys_of pieces.new.entries ≡ touched_from run.first run.pages pieces.old.cap (keys_of pieces.old.entries)) }
    ensures refused { OnErr result (TouchesSome run.first run.pages pieces.old.cap (keys_of pieces.old.entries) (keys_of pieces.new.entries)) }
    ensures cap { pieces.new.cap ≡ pieces.old.cap }
    ensures rows { IfOk result (λ rows. WhereTold (K.held disk.old) (λ held. table_read headers.now held table.now run ≡ Some rows)) }
    ensures valid { IfOk result (λ rows. are_rows table.now rows ≡ true) }
    ensures pieces { WhereTold (K.held disk.old) (λ held. are_pieces (λ v. v.items) headers.now held pieces.new.entries ≡ true) }
    ensures broken { IsErrOf result refusal.Broken → WhereTold (K.held disk.old) (λ held. reads_rows table.now (table_read headers.now held table.now run) ≡ false) }
    ensures calls { OnOk result (Rises (K.calls disk.old) (K.calls disk.new) (missed_from run.first run.pages pieces.old.cap (keys_of pieces.old.entries))) }
    ensures failed { IsErrOf result refusal.Failed → Rose (K.faults disk.old) (K.faults disk.new) }
    ensures held { K.held disk.new ≡ K.held disk.old }
    ensures later { K.faults disk.old ≤ K.faults disk.new }
{
    let bytes = touch_run(alloc, pieces, disk, headers, run.first, run.pages)?;
    rows_in(alloc, &bytes, run.rows, table)
}
