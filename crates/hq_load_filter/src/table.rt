ghost use Rattle.std.specs.Prelude.{◌≡◌, ◌&&◌, false, position, option_map, option_and_then, bytes_eq};
ghost use Rattle.hq_base.specs.Due.{Gives};
ghost use Rattle.hq_base.specs.Json.{json_view};
ghost use Rattle.hq_base.specs.Look.{str_in, member_in};
ghost use Rattle.hq_base.specs.Text.{has_zero};
ghost use Rattle.hq_model.specs.Meta.{meta_view};
ghost use Rattle.hq_load_filter.specs.Tables.{text_member, table_named, qualified_table, table_at, tracked_due, remote_at};

use crate::FilterRefusal;
use crate::refusal::{misshaped, unknown_table};
use hq_base::{Json, Txt, member_path};
use hq_model::{Described, Meta, Table, TableId};
use std::alloc::Global;

// The text of a member, where the object has one.
fn text_in<'a>(object: &'a Json, name: &str) -> Option<&'a Txt>
    ensures { option_map (λ text. text.now) result ≡ option_and_then str_in (member_in (json_view object.now) name.now) }
{
    match object.member(name) {
        Some(json) => json.as_txt(),
        None => None,
    }
}

// A member of the object at a path that must be a text.
#[tactic(auto, unfolding(crate::specs::Tables::text_member))]
fn text_member<'a>(
    alloc: Global,
    path: &Txt,
    object: &'a Json,
    name: &str,
) -> Result<&'a Txt, FilterRefusal>
    requires { has_zero name.now ≡ false }
    ensures { Gives (λ text. text.now) FilterRefusal.Memory (text_member path.now (json_view object.now) name.now) result }
{
    match text_in(object, name) {
        Some(text) => Ok(text),
        None => Err(misshaped(alloc, &member_path(alloc, path, name)?)),
    }
}

// The place of the first table of this schema and name.
fn table_place(tables: &[Table], schema: &str, name: &Txt) -> Option<usize>
    ensures { result ≡ position (λ t. bytes_eq t.schema schema.now && bytes_eq t.name name.now) tables.now }
{
    tables.iter().position(|table| table.schema.as_str() == schema && table.name == *name)
}

// The table of this schema and name, which a node at a path tells.
#[tactic(auto, unfolding(crate::specs::Tables::table_named))]
fn table_named(
    alloc: Global,
    tables: &[Table],
    path: &Txt,
    schema: &str,
    name: &Txt,
) -> Result<TableId, FilterRefusal>
    ensures { Gives (λ table. table) FilterRefusal.Memory (table_named tables.now path.now schema.now name.now) result }
{
    match table_place(tables, schema, name) {
        Some(place) => Ok(TableId::new(place)),
        None => Err(unknown_table(alloc, path)),
    }
}

// The table that an object with a schema and a name tells.
#[tactic(auto, unfolding(crate::specs::Tables::qualified_table))]
fn qualified_table(
    alloc: Global,
    tables: &[Table],
    path: &Txt,
    json: &Json,
) -> Result<TableId, FilterRefusal>
    ensures { Gives (λ table. table) FilterRefusal.Memory (qualified_table tables.now path.now (json_view json.now)) result }
{
    if json.as_object().is_none() {
        return Err(misshaped(alloc, path));
    }
    let schema = text_member(alloc, path, json, "schema")?;
    let name = text_member(alloc, path, json, "name")?;
    table_named(alloc, tables, path, schema.as_str(), name)
}

/// The table of the catalog that the node at a path of a metadata file names: an object with its schema and its name, or
/// a text, which is the name of one of the schema `public`.
#[tactic(auto, unfolding(crate::specs::Tables::table_at))]
pub fn table_at(
    alloc: Global,
    tables: &[Table],
    path: &Txt,
    json: &Json,
) -> Result<TableId, FilterRefusal>
    ensures { Gives (λ table. table) FilterRefusal.Memory (table_at tables.now path.now (json_view json.now)) result }
{
    match json.as_txt() {
        Some(name) => table_named(alloc, tables, path, "public", name),
        None => qualified_table(alloc, tables, path, json),
    }
}

/// A table that must be tracked, which the node at a path leads to.
#[tactic(auto, unfolding(crate::specs::Tables::tracked_due))]
pub fn tracked_table(
    alloc: Global,
    meta: &Meta,
    path: &Txt,
    table: TableId,
) -> Result<TableId, FilterRefusal>
    ensures { Gives (λ table. table) FilterRefusal.Memory (tracked_due (meta_view meta.now) path.now table) result }
{
    match meta.tracked_table(table) {
        Some(_) => Ok(table),
        None => Err(unknown_table(alloc, path)),
    }
}

/// The tracked table that the node at a path names.
#[tactic(auto, unfolding(crate::specs::Tables::remote_at))]
pub fn remote_at(
    alloc: Global,
    scope: &Described,
    path: &Txt,
    json: &Json,
) -> Result<TableId, FilterRefusal>
    ensures { Gives (λ table. table) FilterRefusal.Memory (remote_at scope.now.catalog.now.tables (meta_view scope.now.meta.now) path.now (json_view json.now)) result }
{
    let table = table_at(alloc, scope.catalog.tables.as_slice(), path, json)?;
    tracked_table(alloc, scope.meta, path, table)
}
