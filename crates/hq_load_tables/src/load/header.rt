ghost use Rattle.std.specs.Prelude.{◌≡◌, ◌<◌, [], length, map, IfOk, find, bytes_eq, option_copied, option_map, slice_index_or};
ghost use Rattle.std.specs.List.{position_from};
ghost use Rattle.csv.specs.Records.{fields_of};
ghost use Rattle.hq_load_tables.specs.Header.{columns_named, places_named};

use csv::ByteRecord;
use hq_base::Memory;
use hq_model::Column;
use std::alloc::Global;

/// The field at this place, counted from 0.
pub fn field(fields: &ByteRecord, at: usize) -> &[u8]
    requires { at < length (fields_of fields.now) }
    ensures { result.now ≡ slice_index_or (fields_of fields.now) at [] }
{
    fields.get(at).unwrap()
}

// The column of this name.
fn column_named<'a>(columns: &'a [Column], name: &[u8]) -> Option<&'a Column>
    ensures { option_copied result ≡ find (λ c. bytes_eq c.name name.now) columns.now }
{
    columns.iter().find(|column| column.name.as_bytes() == name)
}

/// The columns that the header names, in its order; None where it names another.
pub fn columns_named<'a>(
    alloc: Global,
    columns: &'a [Column],
    header: &ByteRecord,
) -> Result<Option<Vec<&'a Column>>, Memory>
    ensures { IfOk result (λ found. option_map (λ v. map (λ c. c.now) v.items) found ≡ columns_named columns.now (fields_of header.now)) }
{
    let mut found = Vec::new(alloc);
    for at in 0..header.len() {
        let Some(column) = column_named(columns, field(header, at)) else {
            return Ok(None);
        };
        found.push(column)?;
    }
    Ok(Some(found))
}

// The place of a name in the header, from 0.
fn place_of(header: &ByteRecord, name: &[u8]) -> Option<usize>
    ensures { result ≡ position_from (bytes_eq name.now) 0 (fields_of header.now) }
{
    for at in 0..header.len() {
        if name == field(header, at) {
            return Some(at);
        }
    }
    None
}

/// For each column the place of its name in the header, from 0; None where the header leaves one out.
pub fn places_named(
    alloc: Global,
    columns: &[Column],
    header: &ByteRecord,
) -> Result<Option<Vec<usize>>, Memory>
    ensures { IfOk result (λ found. option_map (λ v. v.items) found ≡ places_named columns.now (fields_of header.now)) }
{
    let mut places = Vec::new(alloc);
    for column in columns {
        let Some(place) = place_of(header, column.name.as_bytes()) else {
            return Ok(None);
        };
        places.push(place)?;
    }
    Ok(Some(places))
}
