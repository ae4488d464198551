ghost use Rattle.std.specs.Prelude.{◌≡◌, ◌≤◌, ◌^◌, length, IfOk};
ghost use Rattle.hq_load_index.specs.Grids.{rows_in};
ghost use Rattle.hq_load_tables.specs.Keys.{rows_read};
ghost use Rattle.hq_load_tables.specs.Layouts.{columns_of, names_of};
ghost use Rattle.hq_load_tables.specs.Readers.{IsReading, left_of};

use super::layout::Layout;
use super::record::read_row;
use super::records::{FileReader, next_record};
use crate::LoadRefusal;
use csv::ByteRecord;
use hq_base::Memory;
use hq_load_index::Grid;
use std::alloc::Global;

/// Rows of records, and why the record behind them has none, where one has none.
#[derive(Drop)]
pub struct ReadRows {
    pub grid: Grid,
    pub refusal: Option<LoadRefusal>,
}

/// The rows of the records that are left, of which the first has the number 2, up to the first record that has none.
pub fn read_rows(
    alloc: Global,
    layout: &Layout<'_>,
    reader: &mut FileReader<'_>,
) -> Result<ReadRows, Memory>
    requires reading { IsReading reader.old }
    requires few { length (left_of reader.old) ≤ 2 ^ 31 }
    ensures { IfOk result (λ read. rows_read 2 layout.now.table.now (names_of layout.now) (columns_of layout.now) (left_of reader.old) ≡ (rows_in read.grid, read.refusal)) }
{
    let width = layout.table.columns.len();
    let mut fields = ByteRecord::new(alloc);
    let mut values = Vec::new(alloc);
    let mut rows = Vec::new(alloc);
    let mut count = 0usize;
    while next_record(reader, &mut fields)? {
        let line = count as u64 + 2;
        match read_row(alloc, line, layout, &fields, &mut values, &mut rows) {
            Ok(()) => count += 1,
            Err(LoadRefusal::Memory) => return Err(Memory),
            Err(refusal) => {
                return Ok(ReadRows {
                    grid: Grid::of(width, count, rows),
                    refusal: Some(refusal),
                });
            }
        }
    }
    Ok(ReadRows {
        grid: Grid::of(width, count, rows),
        refusal: None,
    })
}
