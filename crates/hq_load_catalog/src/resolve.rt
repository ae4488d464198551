ghost use Rattle.std.specs.Prelude.{◌≡◌, ◌&&◌, map, slice_get, IfOk, bytes_eq};
ghost use Rattle.std.specs.List.{list_all, position, zip};
ghost use Rattle.hq_base.specs.Due.{Gives};
ghost use Rattle.hq_model.specs.Catalog.{can_pair, type_of};
ghost use Rattle.hq_load_catalog.specs.Each.{each};
ghost use Rattle.hq_load_catalog.specs.Node.{at};
ghost use Rattle.hq_load_catalog.specs.Resolved.{column_named, key_column_place, key_column_named, table_named, columns_at, can_refer, foreign_key_of, settled, table_of, resolved};

use crate::CatalogRefusal;
use crate::field::Field;
use crate::node::misshaped;
use crate::written::{WrittenForeignKey, WrittenTable};
use hq_base::{List, Memory, Txt, item_path, member_path, top_path};
use hq_model::{
    ColId, ColList, Column, ColumnList, ForeignKey, ForeignKeyList, Table, TableId, TableList,
    can_pair,
};
use std::alloc::Global;

// The place of the first column of this name.
fn column_place(columns: &[Column], name: &Txt) -> Option<usize>
    ensures { result ≡ position (λ c. bytes_eq c.name name.now) columns.now }
{
    columns.iter().position(|column| column.name == *name)
}

// The column of the name that stands at a path.
#[tactic(auto, unfolding(crate::specs::Resolved::column_named))]
fn column_named(
    alloc: Global,
    columns: &[Column],
    path: &Txt,
    name: &Txt,
) -> Result<ColId, CatalogRefusal>
    ensures { Gives (λ column. column) CatalogRefusal.Memory (column_named columns.now path.now name.now) result }
{
    match column_place(columns, name) {
        Some(place) => Ok(ColId::new(place)),
        None => Err(misshaped(alloc, path)),
    }
}

// The column of a key of the name that stands at a path, whose values are compared.
#[tactic(auto, unfolding(crate::specs::Resolved::key_column_named))]
fn key_column_named(
    alloc: Global,
    columns: &[Column],
    path: &Txt,
    name: &Txt,
) -> Result<ColId, CatalogRefusal>
    ensures { Gives (λ column. column) CatalogRefusal.Memory (key_column_named columns.now path.now name.now) result }
{
    match key_column_place(columns, name) {
        Some(place) => Ok(ColId::new(place)),
        None => Err(misshaped(alloc, path)),
    }
}

// The place of the first column of this name, where its values are compared.
fn key_column_place(columns: &[Column], name: &Txt) -> Option<usize>
    ensures { result ≡ key_column_place columns.now name.now }
{
    let place = column_place(columns, name)?;
    match columns.get(place) {
        Some(column) if column.ty.is_ordered() => Some(place),
        _ => None,
    }
}

// The columns of the names of a key, in the list at a path.
fn key_columns_named(
    alloc: Global,
    columns: &[Column],
    path: &Txt,
    names: &[Txt],
) -> Result<ColList, CatalogRefusal>
    ensures { Gives (λ found. found) CatalogRefusal.Memory (each (key_column_named columns.now) path.now names.now) result }
{
    let mut found = List::new(alloc);
    for (place, name) in names.iter().enumerate() {
        let column = key_column_named(alloc, columns, &item_path(alloc, path, place)?, name)?;
        found.push(column)?;
    }
    Ok(found)
}

// The columns of the primary key of the table at a path.
fn key_columns(
    alloc: Global,
    columns: &[Column],
    path: &Txt,
    names: &[Txt],
) -> Result<ColList, CatalogRefusal>
    ensures { Gives (λ found. found) CatalogRefusal.Memory (each (key_column_named columns.now) (at path.now Field.PrimaryKey) names.now) result }
{
    let path = member_path(alloc, path, Field::PrimaryKey.name())?;
    key_columns_named(alloc, columns, &path, names)
}

// The columns of the names in the list at a path.
fn columns_named(
    alloc: Global,
    columns: &[Column],
    path: &Txt,
    names: &[Txt],
) -> Result<ColList, CatalogRefusal>
    ensures { Gives (λ found. found) CatalogRefusal.Memory (each (column_named columns.now) path.now names.now) result }
{
    let mut found = List::new(alloc);
    for (place, name) in names.iter().enumerate() {
        let column = column_named(alloc, columns, &item_path(alloc, path, place)?, name)?;
        found.push(column)?;
    }
    Ok(found)
}

// The columns of the names in a member of the object at a path.
fn member_columns(
    alloc: Global,
    columns: &[Column],
    path: &Txt,
    field: Field,
    names: &[Txt],
) -> Result<ColList, CatalogRefusal>
    ensures { Gives (λ found. found) CatalogRefusal.Memory (each (column_named columns.now) (at path.now field) names.now) result }
{
    let path = member_path(alloc, path, field.name())?;
    columns_named(alloc, columns, &path, names)
}

// The place of the first table of this schema and name.
fn table_place(tables: &[WrittenTable], schema: &Txt, name: &Txt) -> Option<usize>
    ensures { result ≡ position (λ t. bytes_eq t.schema schema.now && bytes_eq t.name name.now) tables.now }
{
    tables
        .iter()
        .position(|table| table.schema == *schema && table.name == *name)
}

// The table that a foreign key names, at a path.
#[tactic(auto, unfolding(crate::specs::Resolved::table_named))]
fn table_named(
    alloc: Global,
    tables: &[WrittenTable],
    path: &Txt,
    key: &WrittenForeignKey,
) -> Result<TableId, CatalogRefusal>
    ensures { Gives (λ table. table) CatalogRefusal.Memory (table_named tables.now path.now key.now) result }
{
    match table_place(tables, &key.schema, &key.table) {
        Some(place) => Ok(TableId::new(place)),
        None => Err(misshaped(alloc, path)),
    }
}

// The table that the foreign key at a path names.
fn remote_of(
    alloc: Global,
    tables: &[WrittenTable],
    path: &Txt,
    key: &WrittenForeignKey,
) -> Result<TableId, CatalogRefusal>
    ensures { Gives (λ table. table) CatalogRefusal.Memory (table_named tables.now (at path.now Field.Table) key.now) result }
{
    let path = member_path(alloc, path, Field::Table.name())?;
    table_named(alloc, tables, &path, key)
}

// The columns of a table.
fn columns_at(tables: &[WrittenTable], table: TableId) -> &[Column]
    ensures { result.now ≡ columns_at tables.now table }
{
    match tables.get(table.at()) {
        Some(table) => table.columns.as_slice(),
        None => &[],
    }
}

// Whether the columns pair by pair can be compared with those that they refer to.
fn all_pair(own: &[Column], remote: &[Column], columns: &[ColId], references: &[ColId]) -> bool
    ensures { result ≡ list_all (λ p. can_pair (type_of (slice_get own.now p.0)) (type_of (slice_get remote.now p.1))) (zip columns.now references.now) }
{
    columns.iter().zip(references).all(|(column, reference)| can_pair(
        own, remote, *column, *reference,
    ))
}

// Whether there is at least one column, there are as many references, and each pair can be compared.
#[tactic(auto, unfolding(crate::specs::Resolved::can_refer))]
fn can_refer(own: &[Column], remote: &[Column], columns: &[ColId], references: &[ColId]) -> bool
    ensures { result ≡ can_refer own.now remote.now columns.now references.now }
{
    !columns.is_empty()
        && columns.len() == references.len()
        && all_pair(own, remote, columns, references)
}

// The foreign key that is written at a path, of a table with these columns.
#[tactic(auto, unfolding(crate::specs::Resolved::foreign_key_of))]
fn foreign_key_of(
    alloc: Global,
    tables: &[WrittenTable],
    own: &[Column],
    path: &Txt,
    key: &WrittenForeignKey,
) -> Result<ForeignKey, CatalogRefusal>
    ensures { Gives (λ resolved. resolved) CatalogRefusal.Memory (foreign_key_of tables.now own.now path.now key.now) result }
{
    let columns = member_columns(alloc, own, path, Field::Columns, key.columns.as_slice())?;
    let remote = remote_of(alloc, tables, path, key)?;
    let remote_columns = columns_at(tables, remote);
    let names = key.references.as_slice();
    let references = member_columns(alloc, remote_columns, path, Field::References, names)?;
    if !can_refer(
        own,
        remote_columns,
        columns.as_slice(),
        references.as_slice(),
    ) {
        return Err(misshaped(alloc, path));
    }
    Ok(ForeignKey {
        columns,
        remote,
        references,
    })
}

// The foreign keys of the list at a path, of a table with these columns.
fn foreign_keys_of(
    alloc: Global,
    tables: &[WrittenTable],
    own: &[Column],
    path: &Txt,
    keys: &[WrittenForeignKey],
) -> Result<ForeignKeyList, CatalogRefusal>
    ensures { Gives (λ resolved. resolved) CatalogRefusal.Memory (each (foreign_key_of tables.now own.now) path.now keys.now) result }
{
    let mut resolved = List::new(alloc);
    for (place, key) in keys.iter().enumerate() {
        let key = foreign_key_of(alloc, tables, own, &item_path(alloc, path, place)?, key)?;
        resolved.push(key)?;
    }
    Ok(resolved)
}

// The foreign keys of the table that is written at a path.
fn member_foreign_keys(
    alloc: Global,
    tables: &[WrittenTable],
    path: &Txt,
    table: &WrittenTable,
) -> Result<ForeignKeyList, CatalogRefusal>
    ensures { Gives (λ resolved. resolved) CatalogRefusal.Memory (each (foreign_key_of tables.now table.now.columns) (at path.now Field.ForeignKeys) table.now.foreign) result }
{
    let path = member_path(alloc, path, Field::ForeignKeys.name())?;
    let own = table.columns.as_slice();
    foreign_keys_of(alloc, tables, own, &path, table.foreign.as_slice())
}

// A copy of a column; one that the key names holds no NULL.
fn settled_column(alloc: Global, key: &[Txt], column: &Column) -> Result<Column, Memory>
    ensures { IfOk result (λ copy. copy ≡ settled key.now column.now) }
{
    Ok(Column {
        name: column.name.copy(alloc)?,
        ty: column.ty,
        of: column.of.copy(alloc)?,
        nullable: column.nullable && !key.contains(&column.name),
    })
}

// A copy of a table's columns; those that the key names hold no NULL.
fn settled(alloc: Global, key: &[Txt], columns: &[Column]) -> Result<ColumnList, Memory>
    ensures { IfOk result (λ copy. copy ≡ map (settled key.now) columns.now) }
{
    let mut copy = List::new(alloc);
    for column in columns {
        copy.push(settled_column(alloc, key, column)?)?;
    }
    Ok(copy)
}

// The table that is written at a path; its foreign keys refer to any of `tables`.
#[tactic(auto, unfolding(crate::specs::Resolved::table_of))]
fn table_of(
    alloc: Global,
    tables: &[WrittenTable],
    path: &Txt,
    table: &WrittenTable,
) -> Result<Table, CatalogRefusal>
    ensures { Gives (λ resolved. resolved) CatalogRefusal.Memory (table_of tables.now path.now table.now) result }
{
    let columns = table.columns.as_slice();
    let key = key_columns(alloc, columns, path, table.key.as_slice())?;
    let foreign = member_foreign_keys(alloc, tables, path, table)?;
    Ok(Table {
        schema: table.schema.copy(alloc)?,
        name: table.name.copy(alloc)?,
        columns: settled(alloc, table.key.as_slice(), columns)?,
        key,
        foreign,
    })
}

// The tables of the list at a path, whose foreign keys refer to any of `all`.
fn tables_of(
    alloc: Global,
    all: &[WrittenTable],
    path: &Txt,
    tables: &[WrittenTable],
) -> Result<TableList, CatalogRefusal>
    ensures { Gives (λ resolved. resolved) CatalogRefusal.Memory (each (table_of all.now) path.now tables.now) result }
{
    let mut resolved = List::new(alloc);
    for (place, table) in tables.iter().enumerate() {
        let table = table_of(alloc, all, &item_path(alloc, path, place)?, table)?;
        resolved.push(table)?;
    }
    Ok(resolved)
}

/// The tables of a catalog, or Shape at the first name that names nothing, or the first foreign key whose columns do
/// not fit.
#[tactic(auto, unfolding(crate::specs::Resolved::resolved))]
pub fn resolved(alloc: Global, tables: &[WrittenTable]) -> Result<TableList, CatalogRefusal>
    ensures { Gives (λ resolved. resolved) CatalogRefusal.Memory (resolved tables.now) result }
{
    let top = top_path(alloc)?;
    let path = member_path(alloc, &top, Field::Tables.name())?;
    tables_of(alloc, tables, &path, tables)
}
