ghost use Rattle.std.specs.Prelude.{◌≡◌, map, option_map, IfOk};
ghost use Rattle.hq_base.specs.Due.{Gives, and_then};
ghost use Rattle.hq_base.specs.Json.{json_view};
ghost use Rattle.hq_base.specs.Path.{top_path};
ghost use Rattle.hq_load_meta_tables.specs.declared.field.Field.TheVariants.{Customization};
ghost use Rattle.hq_load_meta_tables.specs.Node.{at, value_of, object_at};
ghost use Rattle.hq_load_meta_tables.specs.Top.{unwrapped, sole, is_empty, no_entries, open_in, roles_due, role_entries, source_path, tables_path, kind_due, plain_in, source_tables, own_entries, source_entries, top_entries, table_entries};

use crate::MetaRefusal;
use crate::field::Field;
use crate::node::{at, entries_member, given_value, list_member, object_at, text_member};
use crate::version::{MetaVersion, version_at};
use hq_base::{Json, Memory, Txt, item_path, top_path};
use std::alloc::Global;

// Nothing stands in a list.
fn is_empty<T>(items: &[T]) -> bool
    ensures { result ≡ is_empty items.now }
{
    matches!(items, [])
}

/// What is read of a file: what stands in a wrapper, which has no version and an object `metadata`, else all of it.
#[tactic(auto, unfolding(crate::specs::Top::unwrapped))]
pub fn unwrapped(json: &Json) -> &Json
    ensures { json_view result.now ≡ unwrapped (json_view json.now) }
{
    match (
        json.member(Field::Version.name()),
        json.member(Field::Metadata.name()),
    ) {
        (None, Some(metadata)) if metadata.as_object().is_some() => metadata,
        _ => json,
    }
}

// The one element of a list.
fn sole(list: &[Json]) -> Result<&Json, MetaRefusal>
    ensures { Gives (λ j. json_view j.now) MetaRefusal.Memory (sole (map json_view list.now)) result }
{
    match list {
        [json] => Ok(json),
        _ => Err(MetaRefusal::Sources {
            count: list.len() as u64,
        }),
    }
}

// A member must be absent or an empty list.
#[tactic(auto, unfolding(crate::specs::Top::no_entries))]
fn check_no_entries(
    alloc: Global,
    path: &Txt,
    object: &Json,
    field: Field,
) -> Result<(), MetaRefusal>
    ensures { Gives (λ done. done) MetaRefusal.Memory (no_entries path.now (json_view object.now) field) result }
{
    let entries = entries_member(alloc, path, object, field)?;
    if !is_empty(entries) {
        return Err(MetaRefusal::Shape {
            path: at(alloc, path, field)?,
        });
    }
    Ok(())
}

// Introspection must be closed to no role: to pass over what closes it would widen access.
fn check_open(alloc: Global, path: &Txt, given: Option<&Json>) -> Result<(), MetaRefusal>
    ensures { Gives (λ done. done) MetaRefusal.Memory (open_in path.now (option_map (λ j. json_view j.now) given.entry)) result }
{
    let Some(json) = given else {
        return Ok(());
    };
    let object = object_at(alloc, path, json)?;
    check_no_entries(alloc, path, object, Field::DisabledForRoles)
}

// Inherited roles must stand in a list, and introspection must be open to all.
#[tactic(auto, unfolding(crate::specs::Top::roles_due))]
fn check_roles(alloc: Global, object: &Json) -> Result<(), MetaRefusal>
    ensures { Gives (λ done. done) MetaRefusal.Memory (roles_due (json_view object.now)) result }
{
    let top = top_path(alloc)?;
    entries_member(alloc, &top, object, Field::InheritedRoles)?;
    check_open(
        alloc,
        &at(alloc, &top, Field::GraphqlSchemaIntrospection)?,
        given_value(Some(object), Field::GraphqlSchemaIntrospection),
    )
}

/// The entries of the inherited roles: none where there is no list of them.
#[tactic(auto, unfolding(crate::specs::Top::role_entries))]
pub fn role_entries(json: &Json) -> &[Json]
    ensures { map json_view result.now ≡ role_entries (json_view json.now) }
{
    let Some(list) = json.member(Field::InheritedRoles.name()) else {
        return &[];
    };
    match list.as_array() {
        Some(entries) => entries,
        None => &[],
    }
}

// The path of the one source.
#[tactic(auto, unfolding(crate::specs::Top::source_path))]
fn source_path(alloc: Global) -> Result<Txt, Memory>
    ensures { IfOk result (λ path. path ≡ source_path) }
{
    let top = top_path(alloc)?;
    item_path(alloc, &at(alloc, &top, Field::Sources)?, 0)
}

/// The path of the list of tables in a file of a version.
#[tactic(auto, unfolding(crate::specs::Top::tables_path))]
pub fn tables_path(alloc: Global, version: MetaVersion) -> Result<Txt, Memory>
    ensures { IfOk result (λ path. path ≡ tables_path version) }
{
    let holder = match version {
        MetaVersion::Two => top_path(alloc)?,
        MetaVersion::Three => source_path(alloc)?,
    };
    at(alloc, &holder, Field::Tables)
}

// The source must be a database of PostgreSQL.
#[tactic(auto, unfolding(crate::specs::Top::kind_due))]
fn check_kind(alloc: Global, path: &Txt, source: &Json) -> Result<(), MetaRefusal>
    requires { path.now ≡ source_path }
    ensures { Gives (λ done. done) MetaRefusal.Memory (kind_due (json_view source.now)) result }
{
    let kind = text_member(alloc, path, source, Field::Kind)?;
    if kind.as_str() != "postgres" {
        return Err(MetaRefusal::Shape {
            path: at(alloc, path, Field::Kind)?,
        });
    }
    Ok(())
}

// A customization must be absent or without members: it would change names.
fn check_plain(alloc: Global, path: &Txt, customization: Option<&Json>) -> Result<(), MetaRefusal>
    ensures { Gives (λ done. done) MetaRefusal.Memory (plain_in path.now (option_map (λ j. json_view j.now) customization.entry)) result }
{
    let Some(json) = customization else {
        return Ok(());
    };
    match json.as_object() {
        Some(members) if is_empty(members) => Ok(()),
        _ => Err(MetaRefusal::Shape {
            path: path.copy(alloc)?,
        }),
    }
}

// The customization of the source at a path must be plain.
fn check_customization(alloc: Global, path: &Txt, source: &Json) -> Result<(), MetaRefusal>
    ensures { Gives (λ done. done) MetaRefusal.Memory (plain_in (at path.now Customization) (value_of (json_view source.now) Customization)) result }
{
    let customization = source.member(Field::Customization.name());
    check_plain(
        alloc,
        &at(alloc, path, Field::Customization)?,
        customization,
    )
}

// The entries of the tables of a source, whose path this is.
#[tactic(auto, unfolding(crate::specs::Top::source_tables))]
fn tables_of_source<'a>(
    alloc: Global,
    path: &Txt,
    json: &'a Json,
) -> Result<&'a [Json], MetaRefusal>
    requires { path.now ≡ source_path }
    ensures { Gives (λ js. map json_view js.now) MetaRefusal.Memory (source_tables (json_view json.now)) result }
{
    let source = object_at(alloc, path, json)?;
    text_member(alloc, path, source, Field::Name)?;
    check_kind(alloc, path, source)?;
    check_customization(alloc, path, source)?;
    list_member(alloc, path, source, Field::Tables)
}

// The entries of the tables of a source.
fn source_tables(alloc: Global, json: &Json) -> Result<&[Json], MetaRefusal>
    ensures { Gives (λ js. map json_view js.now) MetaRefusal.Memory (source_tables (json_view json.now)) result }
{
    tables_of_source(alloc, &source_path(alloc)?, json)
}

// The entries of the tables, where the object at the top, whose path this is, holds them itself.
#[tactic(auto, unfolding(crate::specs::Top::own_entries))]
fn own_entries<'a>(alloc: Global, path: &Txt, top: &'a Json) -> Result<&'a [Json], MetaRefusal>
    requires { path.now ≡ top_path }
    ensures { Gives (λ js. map json_view js.now) MetaRefusal.Memory (own_entries (json_view top.now)) result }
{
    let tables = list_member(alloc, path, top, Field::Tables)?;
    check_roles(alloc, top)?;
    Ok(tables)
}

// The entries of the tables of the one source of the object at the top, whose path this is.
#[tactic(auto, unfolding(crate::specs::Top::source_entries))]
fn source_entries<'a>(alloc: Global, path: &Txt, top: &'a Json) -> Result<&'a [Json], MetaRefusal>
    requires { path.now ≡ top_path }
    ensures { Gives (λ js. map json_view js.now) MetaRefusal.Memory (source_entries (json_view top.now)) result }
{
    let sources = list_member(alloc, path, top, Field::Sources)?;
    check_roles(alloc, top)?;
    source_tables(alloc, sole(sources)?)
}

// The entries of the tables of the object at the top, whose path this is, in a file of a version.
fn top_entries<'a>(
    alloc: Global,
    version: MetaVersion,
    path: &Txt,
    json: &'a Json,
) -> Result<&'a [Json], MetaRefusal>
    requires { path.now ≡ top_path }
    ensures { Gives (λ js. map json_view js.now) MetaRefusal.Memory (and_then (top_entries version) (object_at top_path (json_view json.now))) result }
{
    let top = object_at(alloc, path, json)?;
    match version {
        MetaVersion::Two => own_entries(alloc, path, top),
        MetaVersion::Three => source_entries(alloc, path, top),
    }
}

/// The version of a file, and the entries of its tables, in order.
#[tactic(auto, unfolding(crate::specs::Top::table_entries))]
pub fn table_entries(alloc: Global, json: &Json) -> Result<(MetaVersion, &[Json]), MetaRefusal>
    ensures { Gives (λ found. (found.0, map json_view found.1.now)) MetaRefusal.Memory (table_entries (json_view json.now)) result }
{
    let version = version_at(alloc, json.member(Field::Version.name()))?;
    let entries = top_entries(alloc, version, &top_path(alloc)?, json)?;
    Ok((version, entries))
}
