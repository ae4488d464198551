ghost use Rattle.std.specs.Prelude.{◌≡◌, ◌++◌, IfOk, OnOk, [], map, flat_map};
ghost use Rattle.hq_schema.specs.Schema.{arg_view, field_view};
ghost use Rattle.hq_schema_of_role.specs.Root.{key_arg, key_field, key_fields, aggregate_root, root_fields, query_fields};

use crate::arguments::{aggregate_field, list_field};
use crate::member::{arg_of, plain_field};
use crate::reference::{fixed, non_null, part};
use crate::shown::{PlacedTable, PlacedTableList, ShownColumn, ShownColumnList};
use hq_base::Memory;
use hq_schema::{ArgDef, ArgDefList, ArgOrigin, FieldDef, FieldOrigin, Fixed, NamedList, Part};
use std::alloc::Global;

fn key_arg(alloc: Global, column: &ShownColumn) -> Result<ArgDef, Memory>
    ensures { IfOk result (λ a. arg_view a ≡ key_arg column.now) }
{
    let scalar = non_null(alloc, fixed(Fixed::Scalar(column.ty)))?;
    arg_of(alloc, &column.name, scalar, ArgOrigin::Column(column.col))
}

fn key_args(alloc: Global, key: &ShownColumnList) -> Result<ArgDefList, Memory>
    ensures { IfOk result (λ args. map arg_view args ≡ map key_arg key.now) }
{
    let mut args = Vec::new(alloc);
    for column in key.as_slice() {
        args.push(key_arg(alloc, column)?)?;
    }
    NamedList::new(alloc, args)
}

// The look-up by the columns of the key.
fn key_field(alloc: Global, placed: &PlacedTable, key: &ShownColumnList) -> Result<FieldDef, Memory>
    ensures { IfOk result (λ f. field_view f ≡ key_field placed.now key.now) }
{
    Ok(FieldDef {
        name: placed.shown.roots.select_by_pk.copy(alloc)?,
        args: key_args(alloc, key)?,
        ty: part(placed.first, Part::Rows),
        origin: FieldOrigin::RowByKey(placed.shown.table),
    })
}

// Adds it, where they are all permitted.
fn push_by_key(
    alloc: Global,
    fields: &mut Vec<FieldDef>,
    placed: &PlacedTable,
) -> Result<(), Memory>
    ensures { OnOk result (map field_view fields.new.items ≡ map field_view fields.old.items ++ key_fields placed.now placed.now.shown.key) }
{
    let Some(key) = &placed.shown.key else {
        return Ok(());
    };
    fields.push(key_field(alloc, placed, key)?)?;
    Ok(())
}

// Adds the aggregates over a table's rows, where those are allowed.
fn push_aggregate(
    alloc: Global,
    fields: &mut Vec<FieldDef>,
    placed: &PlacedTable,
) -> Result<(), Memory>
    ensures { OnOk result (map field_view fields.new.items ≡ map field_view fields.old.items ++ aggregate_root placed.now) }
{
    if !placed.shown.aggregates {
        return Ok(());
    }
    let name = placed.shown.roots.select_aggregate.copy(alloc)?;
    let origin = FieldOrigin::RowsAggregate(placed.shown.table);
    fields.push(aggregate_field(alloc, name, placed.first, origin)?)?;
    Ok(())
}

// Adds the root fields of a table.
fn push_roots(alloc: Global, fields: &mut Vec<FieldDef>, placed: &PlacedTable) -> Result<(), Memory>
    ensures { OnOk result (map field_view fields.new.items ≡ map field_view fields.old.items ++ root_fields placed.now) }
{
    let name = placed.shown.roots.select.copy(alloc)?;
    let origin = FieldOrigin::Rows(placed.shown.table);
    fields.push(list_field(alloc, name, placed.first, origin)?)?;
    push_aggregate(alloc, fields, placed)?;
    push_by_key(alloc, fields, placed)
}

// The root fields of all tables.
fn all_roots(alloc: Global, tables: &PlacedTableList) -> Result<Vec<FieldDef>, Memory>
    ensures { IfOk result (λ fields. map field_view fields.items ≡ flat_map root_fields tables.now) }
{
    let mut fields = Vec::new(alloc);
    for placed in tables.as_slice() {
        push_roots(alloc, &mut fields, placed)?;
    }
    Ok(fields)
}

fn no_queries(alloc: Global) -> Result<Vec<FieldDef>, Memory>
    ensures { IfOk result (λ fields. map field_view fields.items ≡ query_fields []) }
{
    let ty = non_null(alloc, fixed(Fixed::STRING))?;
    let origin = FieldOrigin::NoQueries;
    Ok(vec![in alloc; plain_field(alloc, "no_queries_available", ty, origin)?]?)
}

/// The fields of the root type of a query.
pub fn query_fields(alloc: Global, tables: &PlacedTableList) -> Result<Vec<FieldDef>, Memory>
    ensures { IfOk result (λ fields. map field_view fields.items ≡ query_fields tables.now) }
{
    match tables.as_slice() {
        [] => no_queries(alloc),
        _ => all_roots(alloc, tables),
    }
}
