//! The catalog of a copy.
ghost use Rattle.std.specs.Prelude.{◌≡◌, IfOk, map};
ghost use Rattle.hq_copy_definition.specs.Sources.{place_in};
ghost use Rattle.hq_copy_definition.specs.Tables.{copied_key, copied_table, copied_tables};
ghost use Rattle.hq_copy_tables.specs.Originals.{IsOriginal, meta_in, role_in, schema_in};
ghost use Rattle.hq_copy_tables.specs.Views.{source_view};
ghost use Rattle.hq_model.specs.Schema.{table};
ghost use Rattle.hq_model.specs.Described.{scope_schema};

use crate::columns::copied_columns;
use crate::extras::{ends_of, key_of};
use crate::places::place_in;
use crate::{Original, Source, keeps_key};
use hq_base::{List, Memory, Txt};
use hq_model::{ColId, ColList, Described, Table, TableId, TableList};
use std::alloc::Global;

// The places of these columns among the permitted ones.
fn places_of(alloc: Global, permitted: &[ColId], key: &[ColId]) -> Result<ColList, Memory>
    ensures { IfOk result (λ places. places ≡ map (place_in permitted.now) key.now) }
{
    let mut places = List::new(alloc);
    for column in key {
        places.push(ColId::new(place_in(permitted, *column)))?;
    }
    Ok(places)
}

// The key of a table of the copy: the old one where it is kept, and else the position, which is the last column.
fn copied_key(
    alloc: Global,
    original: &Original<'_>,
    source: &Source<'_>,
) -> Result<ColList, Memory>
    requires { IsOriginal original.now }
    ensures { IfOk result (λ key. key ≡ copied_key (role_in original.now) (meta_in original.now) (schema_in original.now) (source_view source.now)) }
{
    let t = source.entry.table;
    let permitted = source.permission.cols.as_slice();
    let key = key_of(&original.scope, t);
    if keeps_key(&source.permission, key) {
        return places_of(alloc, permitted, key);
    }
    let ends = ends_of(alloc, original, t)?;
    let mut place = List::new(alloc);
    place.push(ColId::new(permitted.len() + ends.len()))?;
    Ok(place)
}

// The schema's name and the name of a table, empty where it is not in the catalog.
fn names_of(alloc: Global, scope: &Described<'_>, t: TableId) -> Result<(Txt, Txt), Memory>
    ensures { IfOk result (λ names. (names.0 ≡ (table (scope_schema scope.now) t).schema) × (names.1 ≡ (table (scope_schema scope.now) t).name)) }
{
    match scope.catalog.table(t) {
        Some(table) => Ok((table.schema.copy(alloc)?, table.name.copy(alloc)?)),
        None => Ok((Txt::new(alloc), Txt::new(alloc))),
    }
}

/// A table of the copy.
pub fn copied_table(
    alloc: Global,
    original: &Original<'_>,
    source: &Source<'_>,
) -> Result<Table, Memory>
    requires { IsOriginal original.now }
    ensures { IfOk result (λ copied. copied ≡ copied_table (role_in original.now) (meta_in original.now) (schema_in original.now) (source_view source.now)) }
{
    let (schema, name) = names_of(alloc, &original.scope, source.entry.table)?;
    Ok(Table {
        schema,
        name,
        columns: copied_columns(alloc, original, source)?,
        key: copied_key(alloc, original, source)?,
        foreign: List::new(alloc),
    })
}

/// The tables of the copy.
pub fn copied_tables(alloc: Global, original: &Original<'_>) -> Result<TableList, Memory>
    requires { IsOriginal original.now }
    ensures { IfOk result (λ tables. tables ≡ copied_tables (role_in original.now) (meta_in original.now) (schema_in original.now)) }
{
    let sources = original.sources;
    let mut tables = List::new(alloc);
    for source in sources {
        tables.push(copied_table(alloc, original, source)?)?;
    }
    Ok(tables)
}
