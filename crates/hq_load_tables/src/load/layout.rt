ghost use Rattle.std.specs.Prelude.{◌≡◌, true, length, map, Some, IfOk, IfSome, option_map};
ghost use Rattle.csv.specs.Records.{fields_of};
ghost use Rattle.hq_load_tables.specs.Header.{header_due, names_differ, places_named};
ghost use Rattle.hq_load_tables.specs.Places.{are_places};

use super::header::{columns_named, places_named};
use csv::ByteRecord;
use hq_base::Memory;
use hq_model::{Column, Table};
use std::alloc::Global;

/// Where the fields of a table file's records go.
#[derive(Drop)]
pub struct Layout<'a> {
    pub table: &'a Table,
    pub header: &'a ByteRecord,
    /// The columns, in the file's order.
    pub columns: Vec<&'a Column>,
    /// For each column of the table, in its order, the place of its field from 0.
    pub places: Vec<usize>,
    ghost named: { header_due table.now.columns (fields_of header.now) ≡ Some (map (λ c. c.now) columns.items) },
    ghost placed: { places_named table.now.columns (fields_of header.now) ≡ Some places.items },
    ghost apart: { are_places (length columns.items) places.items ≡ true },
}

impl<'a> Layout<'a> {
    /// The layout under this header; None where it is not the table's column names, each once.
    pub fn of(
        alloc: Global,
        table: &'a Table,
        header: &'a ByteRecord,
    ) -> Result<Option<Layout<'a>>, Memory>
        requires { names_differ table.now.columns ≡ true }
        ensures columns { IfOk result (λ found. option_map (λ l. map (λ c. c.now) l.columns.items) found ≡ header_due table.now.columns (fields_of header.now)) }
        ensures parts { IfOk result (λ found. IfSome found (λ l. (l.table.now ≡ table.now) × (l.header.now ≡ header.now))) }
    {
        let columns = table.columns.as_slice();
        if header.len() != columns.len() {
            return Ok(None);
        }
        let Some(places) = places_named(alloc, columns, header)? else {
            return Ok(None);
        };
        let Some(columns) = columns_named(alloc, columns, header)? else {
            return Ok(None);
        };
        Ok(Some(Layout {
            table,
            header,
            columns,
            places,
        }))
    }
}
