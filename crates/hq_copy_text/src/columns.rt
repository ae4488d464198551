//! Names of columns and tables.
ghost use Rattle.std.specs.Prelude.{◌≡◌, ◌∷◌, [], IfOk, codes, map, slice_get};
ghost use Rattle.hq_base.specs.Json.{json_view, str};
ghost use Rattle.hq_load_meta_tables.specs.Field.{field_name};
ghost use Rattle.hq_load_meta_tables.specs.Found.{columns_of};
ghost use Rattle.hq_load_meta_tables.specs.declared.field.Field.TheVariants as field;
ghost use Rattle.hq_laws_written.specs.Catalog.Written.{name_at};
ghost use Rattle.hq_laws_written.specs.Json.Building.{object, texts};
ghost use Rattle.hq_laws_written.specs.Metadata.Written.{table_ref};

use crate::building::{array, object, push_text, text_json};
use hq_base::{Json, Memory, Txt};
use hq_load_meta_tables::field::Field;
use hq_model::{ColId, Column, Table, TableId};
use std::alloc::Global;

/// The columns of a table, none where it is not there.
pub fn columns_of(tables: &[Table], t: TableId) -> &[Column]
    ensures { result.now ≡ columns_of tables.now t }
{
    match tables.get(t.at()) {
        Some(table) => table.columns.as_slice(),
        None => &[],
    }
}

/// The name of a column, none where it is not there.
pub fn name_at(alloc: Global, columns: &[Column], c: ColId) -> Result<Txt, Memory>
    ensures { IfOk result (λ name. name ≡ name_at columns.now c) }
{
    match columns.get(c.at()) {
        Some(column) => column.name.copy(alloc),
        None => Ok(Txt::new(alloc)),
    }
}

/// The array of the names of columns.
pub fn names_json(alloc: Global, columns: &[Column], places: &[ColId]) -> Result<Json, Memory>
    ensures { IfOk result (λ json. json_view json ≡ texts (map (name_at columns.now) places.now)) }
{
    let mut names = Vec::new(alloc);
    for c in places {
        let name = name_at(alloc, columns, *c)?;
        names.push(text_json(alloc, &name)?)?;
    }
    Ok(array(names))
}

// The object of a schema's name and a table's.
fn ref_json(alloc: Global, schema: &Txt, name: &Txt) -> Result<Json, Memory>
    ensures { IfOk result (λ json. json_view json ≡ object ((codes "schema", str schema.now) ∷ (field_name field.Name, str name.now) ∷ [])) }
{
    let mut members = Vec::new(alloc);
    push_text(alloc, "schema", schema, &mut members)?;
    push_text(alloc, Field::Name.name(), name, &mut members)?;
    Ok(object(members))
}

/// What names a table: its schema and its name.
pub fn table_json(alloc: Global, tables: &[Table], t: TableId) -> Result<Json, Memory>
    ensures { IfOk result (λ json. json_view json ≡ table_ref (slice_get tables.now t)) }
{
    match tables.get(t.at()) {
        Some(table) => ref_json(alloc, &table.schema, &table.name),
        None => {
            let none = Txt::new(alloc);
            ref_json(alloc, &none, &none)
        }
    }
}
