//! The file of a table (PostgreSQL, COPY TO with FORMAT csv, HEADER and NULL '\N').
ghost use Rattle.std.specs.Prelude.{◌≡◌, ◌++◌, IfOk, OnOk, map};
ghost use Rattle.csv.specs.Writing.{default_writer, row_text};
ghost use Rattle.hq_laws_written.specs.Tables.Written.{field_of, file_of};

use csv::{Error, WriterBuilder};
use hq_base::{Bytes, Memory, Val};
use hq_load_tables::Rows;
use hq_model::{Column, Table};
use itoa::Buffer;
use std::alloc::Global;

// The field of a value.
fn field_of(alloc: Global, value: &Val) -> Result<Bytes, Memory>
    ensures { IfOk result (λ field. field ≡ field_of value.now) }
{
    match value {
        Val::Null => Bytes::from_slice(alloc, b"\\N"),
        Val::Int(n) => {
            let mut digits = Buffer::new();
            Bytes::from_slice(alloc, digits.format(*n).as_bytes())
        }
        Val::Text(text) => Bytes::from_slice(alloc, text.as_bytes()),
        Val::Bool(true) => Bytes::from_slice(alloc, b"t"),
        Val::Bool(false) => Bytes::from_slice(alloc, b"f"),
    }
}

// The text of one record.
fn row_text(alloc: Global, fields: &[&[u8]]) -> Result<Vec<u8>, Error>
    ensures { IfOk result (λ text. text.items ≡ row_text default_writer (map (λ f. f.now) fields.now)) }
{
    let mut writer = WriterBuilder::new().from_writer(Vec::new(alloc));
    writer.write_fields(fields)?;
    match writer.into_inner() {
        Ok(text) => Ok(text),
        Err(refusal) => Err(refusal.into_error()),
    }
}

// A record, behind others.
fn push_record(alloc: Global, fields: &[&[u8]], file: &mut Bytes) -> Result<(), Memory>
    ensures { OnOk result (file.new ≡ file.old ++ row_text default_writer (map (λ f. f.now) fields.now)) }
{
    match row_text(alloc, fields) {
        Ok(text) => file.append(text.as_slice()),
        Err(_) => Err(Memory),
    }
}

// The fields of a row.
fn fields_of(alloc: Global, row: &[Val]) -> Result<Vec<Bytes>, Memory>
    ensures { IfOk result (λ fields. fields.items ≡ map field_of row.now) }
{
    let mut fields = Vec::with_capacity(alloc, row.len())?;
    for value in row {
        fields.push(field_of(alloc, value)?)?;
    }
    Ok(fields)
}

// The bytes of fields, lent.
fn lent<'d>(alloc: Global, fields: &'d [Bytes]) -> Result<Vec<&'d [u8]>, Memory>
    ensures { IfOk result (λ all. map (λ f. f.now) all.items ≡ fields.now) }
{
    let mut all = Vec::with_capacity(alloc, fields.len())?;
    for field in fields {
        all.push(field.as_slice())?;
    }
    Ok(all)
}

// A row, behind others.
fn push_row(alloc: Global, row: &[Val], file: &mut Bytes) -> Result<(), Memory>
    ensures { OnOk result (file.new ≡ file.old ++ row_text default_writer (map field_of row.now)) }
{
    let fields = fields_of(alloc, row)?;
    let fields = lent(alloc, &fields)?;
    push_record(alloc, &fields, file)
}

// The names of columns, lent.
fn names_of<'d>(alloc: Global, columns: &'d [Column]) -> Result<Vec<&'d [u8]>, Memory>
    ensures { IfOk result (λ all. map (λ f. f.now) all.items ≡ map (λ c. c.name) columns.now) }
{
    let mut all = Vec::with_capacity(alloc, columns.len())?;
    for column in columns {
        all.push(column.name.as_bytes())?;
    }
    Ok(all)
}

/// The file of a table: the names of its columns, and its rows.
pub fn file_of(alloc: Global, table: &Table, rows: &Rows) -> Result<Bytes, Memory>
    ensures { IfOk result (λ file. file ≡ file_of table.now rows.now) }
{
    let mut file = Bytes::new(alloc);
    let names = names_of(alloc, table.columns.as_slice())?;
    push_record(alloc, &names, &mut file)?;
    for at in 0..rows.len() {
        push_row(alloc, rows.row(at), &mut file)?;
    }
    Ok(file)
}
