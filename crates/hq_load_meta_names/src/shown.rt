ghost use Rattle.std.specs.Prelude.{◌≡◌, ◌==◌, [], map, filter, slice_index_or, IfOk};
ghost use Rattle.hq_base.specs.Aggregates.{all_aggregates};
ghost use Rattle.std.specs.List.{list_any, list_all};
ghost use Rattle.hq_model.specs.Meta.{meta_view, tracked_view, tracked_table};
ghost use Rattle.hq_model.specs.Names.{is_free_name};
ghost use Rattle.hq_model.specs.Permission.{named_columns};
ghost use Rattle.hq_model.specs.Schema.{table};
ghost use Rattle.hq_model.specs.SchemaNames.{has_columns, is_in_schema, column_names_of};
ghost use Rattle.hq_model.specs.Described.{scope_schema};
ghost use Rattle.hq_load_meta_names.specs.Types.{is_over};

use hq_base::{Aggregate, List, Memory, Txt};
use hq_model::{ColId, ColList, Described, Meta, TableId, Tracked, TxtList, is_free_name};
use std::alloc::Global;

/// The columns of a table that may stand in a schema.
pub fn named_columns(alloc: Global, tracked: &Tracked) -> Result<ColList, Memory>
    ensures { IfOk result (λ cols. cols ≡ named_columns (tracked_view tracked.now)) }
{
    let names = tracked.column_names.as_slice();
    let mut cols = List::new(alloc);
    for (at, name) in names.iter().enumerate() {
        if is_free_name(name) {
            cols.push(ColId::new(at))?;
        }
    }
    Ok(cols)
}

// Whether some name may stand in a schema.
fn some_free(names: &[Txt]) -> bool
    ensures { result ≡ list_any is_free_name names.now }
{
    names.iter().any(|name| is_free_name(name))
}

/// Whether a column of the table may stand in a schema.
pub fn has_columns(tracked: &Tracked) -> bool
    ensures { result ≡ has_columns (tracked_view tracked.now) }
{
    some_free(tracked.column_names.as_slice())
}

/// Whether a table, by its place, stands in the schema.
pub fn is_in_schema(meta: &Meta, table: TableId) -> bool
    ensures { result ≡ is_in_schema (meta_view meta.now) table }
{
    match meta.tracked_table(table) {
        Some(tracked) => has_columns(tracked),
        None => false,
    }
}

// Whether an aggregate is one of the values of some of these columns of a table.
fn is_over(scope: &Described, table: TableId, columns: &[ColId], aggregate: Aggregate) -> bool
    ensures { result ≡ is_over (scope_schema scope.now) table columns.now aggregate }
{
    for column in columns {
        if aggregate.is_of(scope.column_type(table, *column)) {
            return true;
        }
    }
    false
}

// Those of these aggregates that are.
fn those_over(
    alloc: Global,
    scope: &Described,
    table: TableId,
    columns: &[ColId],
    aggregates: &[Aggregate],
) -> Result<Vec<Aggregate>, Memory>
    ensures { IfOk result (λ over. over.items ≡ filter (is_over (scope_schema scope.now) table columns.now) aggregates.now) }
{
    let mut over = Vec::new(alloc);
    for aggregate in aggregates {
        if is_over(scope, table, columns, *aggregate) {
            over.push(*aggregate)?;
        }
    }
    Ok(over)
}

/// The aggregates that are ones of the values of some of these columns of a table.
pub fn aggregates_over(
    alloc: Global,
    scope: &Described,
    table: TableId,
    columns: &[ColId],
) -> Result<Vec<Aggregate>, Memory>
    ensures { IfOk result (λ over. over.items ≡ filter (is_over (scope_schema scope.now) table columns.now) all_aggregates) }
{
    those_over(alloc, scope, table, columns, &Aggregate::all())
}

// Whether a column is among these.
fn is_among(columns: &[ColId], column: ColId) -> bool
    ensures { result ≡ list_any (λ d. d == column) columns.now }
{
    columns.iter().any(|other| other.at() == column.at())
}

// Whether all of the first are among the second.
fn all_among(key: &[ColId], columns: &[ColId]) -> bool
    ensures { result ≡ list_all (λ c. list_any (λ d. d == c) columns.now) key.now }
{
    key.iter().all(|column| is_among(columns, *column))
}

/// Whether all columns of a table's key are among these.
pub fn has_key(scope: &Described, t: TableId, columns: &[ColId]) -> bool
    ensures { result ≡ list_all (λ c. list_any (λ d. d == c) columns.now) (table (scope_schema scope.now) t).key }
{
    match scope.catalog.table(t) {
        Some(table) => all_among(table.key.as_slice(), columns),
        None => true,
    }
}

// A copy of the name at a place; no name beyond them.
fn name_at(alloc: Global, names: &TxtList, column: ColId) -> Result<Txt, Memory>
    ensures { IfOk result (λ name. name ≡ slice_index_or names.now column []) }
{
    match names.get(column.at()) {
        Some(name) => name.copy(alloc),
        None => Ok(Txt::new(alloc)),
    }
}

// The GraphQL names of these columns of a table.
fn names_of(alloc: Global, tracked: &Tracked, columns: &[ColId]) -> Result<TxtList, Memory>
    ensures { IfOk result (λ names. names ≡ map (λ c. slice_index_or tracked.now.column_names c []) columns.now) }
{
    let mut names = List::new(alloc);
    for column in columns {
        names.push(name_at(alloc, &tracked.column_names, *column)?)?;
    }
    Ok(names)
}

/// The GraphQL names of the columns of a table that may stand in a schema.
pub fn column_names_of(alloc: Global, tracked: &Tracked) -> Result<TxtList, Memory>
    ensures { IfOk result (λ names. names ≡ column_names_of (tracked_view tracked.now)) }
{
    let columns = named_columns(alloc, tracked)?;
    names_of(alloc, tracked, columns.as_slice())
}
