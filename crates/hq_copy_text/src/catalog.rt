//! A catalog as a JSON value.
ghost use Rattle.std.specs.Prelude.{◌≡◌, ◌++◌, ◌∷◌, [], IfOk, OnOk, map, slice_get};
ghost use Rattle.hq_base.specs.Json.{json_view, member_view, str};
ghost use Rattle.hq_base.specs.Types.{catalog_name};
ghost use Rattle.hq_load_catalog.specs.Field.{field_name};
ghost use Rattle.hq_load_catalog.specs.declared.field.Field.TheVariants as field;
ghost use Rattle.hq_laws_written.specs.Catalog.Written.{catalog_json, column_json, foreign_json, has_of, of_members, table_json, table_ref};
ghost use Rattle.hq_laws_written.specs.Json.Building.{list, object};

use crate::building::{array, object, push_member, push_text, single, text};
use crate::columns::{columns_of, names_json as column_names};
use hq_base::{Json, Members, Memory, Txt, Ty};
use hq_model::{Column, ForeignKey, Table, TableId};
use std::alloc::Global;

// The name of a type in a catalog.
fn type_json(alloc: Global, ty: Ty) -> Result<Json, Memory>
    ensures { IfOk result (λ json. json_view json ≡ str (catalog_name ty)) }
{
    Ok(Json::Str(text(alloc, ty.catalog_name())?))
}

// Whether PostgreSQL's name of a column's type is written: that of an opaque column always is.
fn has_of(column: &Column) -> bool
    ensures { result ≡ has_of column.now }
{
    match column.ty {
        Ty::Opaque => true,
        Ty::Integer | Ty::Bigint | Ty::Text | Ty::Boolean | Ty::Uuid => {
            !column.of.as_bytes().is_empty()
        }
    }
}

// That name, where it is written, behind other members.
#[tactic(auto, unfolding(hq_load_catalog::specs::Field::field_name))]
fn push_of(alloc: Global, column: &Column, members: &mut Members) -> Result<(), Memory>
    ensures { OnOk result (map member_view members.new.items ≡ map member_view members.old.items ++ of_members column.now) }
{
    if has_of(column) {
        push_text(alloc, "of", &column.of, members)?;
    }
    Ok(())
}

// A column: its name, its type, perhaps with PostgreSQL's name of it, and whether it may hold NULL.
#[tactic(auto, unfolding(hq_load_catalog::specs::Field::field_name))]
fn column_json(alloc: Global, column: &Column) -> Result<Json, Memory>
    ensures { IfOk result (λ json. json_view json ≡ column_json column.now) }
{
    let mut members = Vec::new(alloc);
    push_text(alloc, "name", &column.name, &mut members)?;
    push_member(alloc, "type", type_json(alloc, column.ty)?, &mut members)?;
    push_of(alloc, column, &mut members)?;
    push_member(alloc, "nullable", Json::Bool(column.nullable), &mut members)?;
    Ok(object(members))
}

// The columns of a table.
fn columns_json(alloc: Global, columns: &[Column]) -> Result<Json, Memory>
    ensures { IfOk result (λ json. json_view json ≡ list (map column_json columns.now)) }
{
    let mut all = Vec::new(alloc);
    for column in columns {
        all.push(column_json(alloc, column)?)?;
    }
    Ok(array(all))
}

// A schema's name and a table's.
#[tactic(auto, unfolding(hq_load_catalog::specs::Field::field_name))]
fn names_json(alloc: Global, schema: &Txt, name: &Txt) -> Result<Json, Memory>
    ensures { IfOk result (λ json. json_view json ≡ object ((field_name field.Schema, str schema.now) ∷ (field_name field.Name, str name.now) ∷ [])) }
{
    let mut members = Vec::new(alloc);
    push_text(alloc, "schema", schema, &mut members)?;
    push_text(alloc, "name", name, &mut members)?;
    Ok(object(members))
}

// The table that a foreign key refers to: its schema and its name.
fn ref_json(alloc: Global, tables: &[Table], t: TableId) -> Result<Json, Memory>
    ensures { IfOk result (λ json. json_view json ≡ table_ref (slice_get tables.now t)) }
{
    match tables.get(t.at()) {
        Some(table) => names_json(alloc, &table.schema, &table.name),
        None => {
            let none = Txt::new(alloc);
            names_json(alloc, &none, &none)
        }
    }
}

// A foreign key: its columns, the table that they refer to, and the columns of that table.
#[tactic(auto, unfolding(hq_load_catalog::specs::Field::field_name))]
fn foreign_json(
    alloc: Global,
    tables: &[Table],
    table: &Table,
    key: &ForeignKey,
) -> Result<Json, Memory>
    ensures { IfOk result (λ json. json_view json ≡ foreign_json tables.now table.now key.now) }
{
    let own = column_names(alloc, table.columns.as_slice(), key.columns.as_slice())?;
    let remote = columns_of(tables, key.remote);
    let references = column_names(alloc, remote, key.references.as_slice())?;
    let table = ref_json(alloc, tables, key.remote)?;
    let mut members = Vec::new(alloc);
    push_member(alloc, "columns", own, &mut members)?;
    push_member(alloc, "table", table, &mut members)?;
    push_member(alloc, "references", references, &mut members)?;
    Ok(object(members))
}

// The foreign keys of a table.
fn foreign_keys_json(alloc: Global, tables: &[Table], table: &Table) -> Result<Json, Memory>
    ensures { IfOk result (λ json. json_view json ≡ list (map (foreign_json tables.now table.now) table.now.foreign)) }
{
    let mut all = Vec::new(alloc);
    for key in table.foreign.as_slice() {
        all.push(foreign_json(alloc, tables, table, key)?)?;
    }
    Ok(array(all))
}

// A table.
#[tactic(auto, unfolding(hq_load_catalog::specs::Field::field_name))]
fn table_json(alloc: Global, tables: &[Table], table: &Table) -> Result<Json, Memory>
    ensures { IfOk result (λ json. json_view json ≡ table_json tables.now table.now) }
{
    let columns = table.columns.as_slice();
    let own = columns_json(alloc, columns)?;
    let key = column_names(alloc, columns, table.key.as_slice())?;
    let foreign = foreign_keys_json(alloc, tables, table)?;
    let mut members = Vec::new(alloc);
    push_text(alloc, "schema", &table.schema, &mut members)?;
    push_text(alloc, "name", &table.name, &mut members)?;
    push_member(alloc, "columns", own, &mut members)?;
    push_member(alloc, "primary_key", key, &mut members)?;
    push_member(alloc, "foreign_keys", foreign, &mut members)?;
    Ok(object(members))
}

// The tables.
fn tables_json(alloc: Global, tables: &[Table]) -> Result<Json, Memory>
    ensures { IfOk result (λ json. json_view json ≡ list (map (table_json tables.now) tables.now)) }
{
    let mut all = Vec::new(alloc);
    for table in tables {
        all.push(table_json(alloc, tables, table)?)?;
    }
    Ok(array(all))
}

/// A catalog.
#[tactic(auto, unfolding(hq_load_catalog::specs::Field::field_name))]
pub fn catalog_json(alloc: Global, tables: &[Table]) -> Result<Json, Memory>
    ensures { IfOk result (λ json. json_view json ≡ catalog_json tables.now) }
{
    single(alloc, "tables", tables_json(alloc, tables)?)
}
