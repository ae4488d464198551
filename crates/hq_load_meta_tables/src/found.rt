ghost use Rattle.std.specs.Prelude.{◌≡◌, map, position, bytes_eq};
ghost use Rattle.hq_base.specs.Due.{Gives};
ghost use Rattle.hq_base.specs.Json.{json_view};
ghost use Rattle.hq_base.specs.Path.{item_path};
ghost use Rattle.hq_model.specs.Meta.{meta_view};
ghost use Rattle.hq_load_meta_tables.specs.Each.{each};
ghost use Rattle.hq_load_meta_tables.specs.Found.{table_at, tracked_due, remote_at, columns_of, column_named, column_at};

use crate::MetaRefusal;
use crate::node::text_at;
use hq_base::{Json, List, Txt, item_path};
use hq_model::{Catalog, ColId, ColList, Column, Described, Meta, Table, TableId};
use std::alloc::Global;

/// The table of the catalog that a node names: a text is the name of one of the schema `public`.
#[tactic(auto, unfolding(crate::specs::Found::table_at))]
pub fn table_at(
    alloc: Global,
    tables: &[Table],
    path: &Txt,
    json: &Json,
) -> Result<TableId, MetaRefusal>
    ensures { Gives (λ table. table) MetaRefusal.Memory (table_at tables.now path.now (json_view json.now)) result }
{
    Ok(hq_load_filter::table_at(alloc, tables, path, json)?)
}

/// A table that must be tracked.
#[tactic(auto, unfolding(crate::specs::Found::tracked_due))]
pub fn tracked_table(
    alloc: Global,
    meta: &Meta,
    path: &Txt,
    table: TableId,
) -> Result<TableId, MetaRefusal>
    ensures { Gives (λ table. table) MetaRefusal.Memory (tracked_due (meta_view meta.now) path.now table) result }
{
    Ok(hq_load_filter::tracked_table(alloc, meta, path, table)?)
}

/// The tracked table that a node names.
#[tactic(auto, unfolding(crate::specs::Found::remote_at))]
pub fn remote_at(
    alloc: Global,
    scope: &Described,
    path: &Txt,
    json: &Json,
) -> Result<TableId, MetaRefusal>
    ensures { Gives (λ table. table) MetaRefusal.Memory (remote_at scope.now.catalog.now.tables (meta_view scope.now.meta.now) path.now (json_view json.now)) result }
{
    Ok(hq_load_filter::remote_at(alloc, scope, path, json)?)
}

/// The columns of a table.
pub fn columns_of(catalog: &Catalog, table: TableId) -> &[Column]
    ensures { result.now ≡ columns_of catalog.now.tables table }
{
    match catalog.table(table) {
        Some(table) => table.columns.as_slice(),
        None => &[],
    }
}

// The place of the first column of this name.
fn column_place(columns: &[Column], name: &Txt) -> Option<usize>
    ensures { result ≡ position (λ c. bytes_eq c.name name.now) columns.now }
{
    columns.iter().position(|column| column.name == *name)
}

/// The column of this name, which a node at a path tells.
#[tactic(auto, unfolding(crate::specs::Found::column_named))]
pub fn column_named(
    alloc: Global,
    columns: &[Column],
    path: &Txt,
    name: &Txt,
) -> Result<ColId, MetaRefusal>
    ensures { Gives (λ column. column) MetaRefusal.Memory (column_named columns.now path.now name.now) result }
{
    match column_place(columns, name) {
        Some(place) => Ok(ColId::new(place)),
        None => Err(MetaRefusal::UnknownColumn {
            path: path.copy(alloc)?,
        }),
    }
}

/// The column that a node names.
#[tactic(auto, unfolding(crate::specs::Found::column_at))]
pub fn column_at(
    alloc: Global,
    columns: &[Column],
    path: &Txt,
    json: &Json,
) -> Result<ColId, MetaRefusal>
    ensures { Gives (λ column. column) MetaRefusal.Memory (column_at columns.now path.now (json_view json.now)) result }
{
    let name = text_at(alloc, path, json)?;
    column_named(alloc, columns, path, name)
}

// The column that the element at a place of the list at a path names.
fn listed_column(
    alloc: Global,
    columns: &[Column],
    path: &Txt,
    place: usize,
    json: &Json,
) -> Result<ColId, MetaRefusal>
    ensures { Gives (λ column. column) MetaRefusal.Memory (column_at columns.now (item_path path.now place) (json_view json.now)) result }
{
    column_at(alloc, columns, &item_path(alloc, path, place)?, json)
}

/// The columns that the elements of the list at a path name.
pub fn listed_columns(
    alloc: Global,
    columns: &[Column],
    path: &Txt,
    list: &[Json],
) -> Result<ColList, MetaRefusal>
    ensures { Gives (λ found. found) MetaRefusal.Memory (each (column_at columns.now) path.now (map json_view list.now)) result }
{
    let mut found = List::new(alloc);
    for (place, json) in list.iter().enumerate() {
        let column = listed_column(alloc, columns, path, place, json)?;
        found.push(column)?;
    }
    Ok(found)
}
