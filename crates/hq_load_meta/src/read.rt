ghost use Rattle.std.specs.Prelude.{◌≡◌, true, map, IfOk, OnOk};
ghost use Rattle.std.specs.List.{AllByRecursion};
ghost use Rattle.hq_base.specs.Body.{body_of};
ghost use Rattle.hq_base.specs.Due.{Gives};
ghost use Rattle.hq_base.specs.Json.{json_view};
ghost use Rattle.hq_model.specs.Fits.{fits};
ghost use Rattle.hq_model.specs.Meta.{meta_view};
ghost use Rattle.hq_model.specs.Schema.{schema_of};
ghost use Rattle.hq_model.specs.SchemaNames.{names_differ};
ghost use Rattle.hq_load_meta_names.specs.Repeats.{names_due};
ghost use Rattle.hq_load_meta.specs.Reading.{json_in, names_in, named, with_inherited, tracked_of, meta_of, meta_due};
ghost use Rattle.hq_load_meta.specs.Sound.{Shallow, TablesSound};

use crate::inheriting::inherited_roles;
use crate::permissions::permitted;
use crate::relationships::related;
use hq_base::{Json, JsonRefusal, List, Txt};
use hq_load_filter::nesting_is_bounded;
use hq_load_meta_names::check_names;
use hq_load_meta_tables::MetaRefusal;
use hq_load_meta_tables::top::{role_entries, table_entries, tables_path, unwrapped};
use hq_load_meta_tables::tracking::all_tracked;
use hq_model::{Catalog, InheritedList, Meta};
use std::alloc::Global;

/// Reads the bytes of a `metadata.json`, an export of Hasura v2's metadata of version 2 or 3, over a catalog. The tests come in
/// this order, each over the whole file before the next, lists in order and members in the order of the form: NotJson,
/// Version, Shape of the top, in version 3 Sources and Shape of the source, tables and their names, relationships, permissions, inherited roles,
/// and names that stand twice. The first refusal is the answer.
#[tactic(auto, unfolding(crate::specs::Reading::meta_due))]
pub fn read_meta(alloc: Global, bytes: &[u8], catalog: &Catalog) -> Result<Meta, MetaRefusal>
    ensures due { Gives meta_view MetaRefusal.Memory (meta_due catalog.now.tables bytes.now) result }

    // The metadata fits the catalog.
    ensures fits { IfOk result (λ meta. fits catalog.now.tables (meta_view meta) ≡ true) }
{
    nesting_is_bounded();
    let json = json_of(alloc, bytes)?;
    meta_of(alloc, catalog, &json)
}

// The JSON of the bytes.
fn json_of(alloc: Global, bytes: &[u8]) -> Result<Json, MetaRefusal>
    ensures { Gives json_view MetaRefusal.Memory (json_in (body_of bytes.now)) result }
{
    match Json::from_body(alloc, bytes) {
        Ok(json) => Ok(json),
        Err(JsonRefusal::Memory) => Err(MetaRefusal::Memory),
        Err(_) => Err(MetaRefusal::NotJson),
    }
}

// The metadata of a JSON value.
#[tactic(auto, unfolding(crate::specs::Reading::meta_of))]
fn meta_of(alloc: Global, catalog: &Catalog, json: &Json) -> Result<Meta, MetaRefusal>
    requires { Shallow (json_view json.now) }
    ensures due { Gives meta_view MetaRefusal.Memory (meta_of catalog.now.tables (json_view json.now)) result }
    ensures sound { IfOk result (λ meta. TablesSound catalog.now.tables (meta_view meta) (meta_view meta).tracked) }
    ensures names { IfOk result (λ meta. names_differ (schema_of catalog.now.tables (meta_view meta)) (meta_view meta) ≡ true) }
{
    let top = unwrapped(json);
    let (version, entries) = table_entries(alloc, top)?;
    let path = tables_path(alloc, version)?;
    tracked_of(alloc, catalog, &path, entries, role_entries(top))
}

// The tables that the entries of the list at a path track, with their names.
#[tactic(auto, unfolding(crate::specs::Reading::named))]
fn named(
    alloc: Global,
    catalog: &Catalog,
    path: &Txt,
    entries: &[Json],
) -> Result<Meta, MetaRefusal>
    ensures { Gives meta_view MetaRefusal.Memory (named catalog.now.tables path.now (map json_view entries.now)) result }
{
    let tracked = all_tracked(alloc, catalog, path, entries)?;
    Ok(Meta {
        tracked,
        inherited: List::new(alloc),
    })
}

// Names that stand twice are refused.
fn check_all_names(
    alloc: Global,
    catalog: &Catalog,
    meta: &Meta,
    path: &Txt,
) -> Result<(), MetaRefusal>
    ensures due { Gives (λ done. done) MetaRefusal.Memory (names_in (names_due (schema_of catalog.now.tables (meta_view meta.now)) (meta_view meta.now) path.now)) result }
    ensures differ { OnOk result (names_differ (schema_of catalog.now.tables (meta_view meta.now)) (meta_view meta.now) ≡ true) }
{
    check_names(alloc, catalog, meta, path)?;
    Ok(())
}

// A metadata with inherited roles.
fn with_inherited(meta: Meta, inherited: InheritedList) -> Meta
    ensures { meta_view result ≡ with_inherited (meta_view meta) inherited }
{
    Meta { inherited, ..meta }
}

// The metadata that the entries of the list at a path give, and those of the inherited roles.
#[tactic(auto, unfolding(crate::specs::Reading::tracked_of))]
fn tracked_of(
    alloc: Global,
    catalog: &Catalog,
    path: &Txt,
    list: &[Json],
    roles: &[Json],
) -> Result<Meta, MetaRefusal>
    requires { AllByRecursion (λ j. Shallow (json_view j)) list.now }
    ensures due { Gives meta_view MetaRefusal.Memory (tracked_of catalog.now.tables path.now (map json_view list.now) (map json_view roles.now)) result }
    ensures sound { IfOk result (λ meta. TablesSound catalog.now.tables (meta_view meta) (meta_view meta).tracked) }
    ensures names { IfOk result (λ meta. names_differ (schema_of catalog.now.tables (meta_view meta)) (meta_view meta) ≡ true) }
{
    let tables = named(alloc, catalog, path, list)?;
    let joined = related(alloc, catalog, path, list, tables)?;
    let meta = permitted(alloc, catalog, path, list, joined)?;
    let inherited = inherited_roles(alloc, roles)?;
    check_all_names(alloc, catalog, &meta, path)?;
    Ok(with_inherited(meta, inherited))
}
