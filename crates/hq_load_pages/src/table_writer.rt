//! Writes the rows of tables, one table behind the other.
ghost use Rattle.std.specs.Prelude.{◌≡◌, ◌≤◌, ◌<◌, ◌+◌, ◌-◌, ◌*◌, ◌^◌, true, length, is_some, IfOk, OnOk, IsErrOf};
ghost use Rattle.hq_io.specs.Causes.{Rose};
ghost use Rattle.hq_model.specs.Database.{are_rows, is_database};
ghost use Rattle.hq_load_pages.specs.Counts.{Rises};
ghost use Rattle.hq_load_pages.specs.Directory.{are_inside};
ghost use Rattle.hq_load_pages.specs.DiskPages.{Grows, disk_pages, rows_bytes, run_pages};
ghost use Rattle.hq_load_pages.specs.Held.{WhereTold};
ghost use Rattle.hq_load_pages.specs.Writes.{Stores, WroteRows};
ghost use Rattle.hq_load_pages.specs.declared.refusal.PageRefusal.TheVariants as refusal;

use crate::Header;
use crate::page_writer::write_pages;
use crate::refusal::PageRefusal;
use crate::rows_run::rows_run;
use crate::table_run::TableRun;
use hq_io::Disk;
use hq_load_tables::Rows;
use hq_model::Table;
use std::alloc::Global;

// Writes the pages of a table, and tells where its rows lie.
fn write_table<K: Disk>(
    alloc: Global,
    disk: &mut K,
    headers: &mut Vec<Header>,
    number: u32,
    table: &Table,
    rows: &Rows,
) -> Result<TableRun, PageRefusal>
    requires valid { are_rows table.now rows.now ≡ true }
    requires size { K.size disk.old ≡ 4096 * length headers.old.items }
    requires few { length headers.old.items ≤ 2 ^ 51 }
    ensures size { OnOk result (K.size disk.new ≡ 4096 * length headers.new.items) }
    ensures count { OnOk result (length headers.old.items ≤ length headers.new.items) }
    ensures few { OnOk result (length headers.new.items ≤ 2 ^ 51) }
    ensures first { IfOk result (λ run. run.first ≡ length headers.old.items) }
    ensures pages { IfOk result (λ run. run.first + run.pages ≡ length headers.new.items) }
    ensures rows { IfOk result (λ run. run.rows < 2 ^ 31) }
    ensures wrote { IfOk result (λ run. WroteRows (K.held disk.old) (K.held disk.new) headers.old.items headers.new.items table.now run rows.now) }
    ensures grown { OnOk result (Grows (K.held disk.old) (K.held disk.new) (run_pages number (rows_bytes rows.now))) }
    ensures told { OnOk result (is_some (K.held disk.new) ≡ is_some (K.held disk.old)) }
    ensures calls { OnOk result (Rises (K.calls disk.old) (K.calls disk.new) (length headers.new.items - length headers.old.items)) }
    ensures failed { IsErrOf result refusal.Failed → Rose (K.faults disk.old) (K.faults disk.new) }
    ensures later { K.faults disk.old ≤ K.faults disk.new }
{
    let run = rows_run(alloc, rows, table)?;
    if run.len() > u32::MAX as usize {
        return Err(PageRefusal::Memory);
    }
    let first = headers.len();
    write_pages(alloc, disk, headers, number, &run)?;
    Ok(TableRun {
        first,
        pages: headers.len() - first,
        rows: rows.len(),
    })
}

/// What the headers of the pages of a disk are, and where the rows of each table lie among them.
#[derive(Drop)]
pub struct Directory {
    pub headers: Vec<Header>,
    pub runs: Vec<TableRun>,
}

/// Writes the pages of all tables to an empty disk.
pub fn write_tables<K: Disk>(
    alloc: Global,
    disk: &mut K,
    tables: &[Table],
    all: &[Rows],
) -> Result<Directory, PageRefusal>
    requires valid { is_database tables.now all.now ≡ true }
    requires few { length tables.now ≤ 500 }
    requires empty { K.size disk.old ≡ 0 }
    ensures stores { IfOk result (λ d. WhereTold (K.held disk.new) (Stores d.headers.items d.runs.items tables.now all.now)) }
    ensures bytes { OnOk result (WhereTold (K.held disk.new) (λ held. held ≡ disk_pages 0 all.now)) }
    ensures inside { IfOk result (λ d. are_inside (length d.headers.items) d.runs.items ≡ true) }
    ensures each { IfOk result (λ d. length d.runs.items ≡ length tables.now) }
    ensures pages { IfOk result (λ d. length d.headers.items ≤ 2 ^ 51) }
    ensures told { OnOk result (is_some (K.held disk.new) ≡ is_some (K.held disk.old)) }
    ensures calls { IfOk result (λ d. Rises (K.calls disk.old) (K.calls disk.new) (length d.headers.items)) }
    ensures failed { IsErrOf result refusal.Failed → Rose (K.faults disk.old) (K.faults disk.new) }
    ensures later { K.faults disk.old ≤ K.faults disk.new }
{
    let mut headers = Vec::new(alloc);
    let mut runs = Vec::new(alloc);
    let mut at = 0;
    'tables: while at < tables.len() {
        let run = write_table(alloc, disk, &mut headers, at as u32, &tables[at], &all[at])?;
        runs.push(run)?;
        at += 1;
    }
    Ok(Directory { headers, runs })
}
