//! A metadata as a JSON value.
ghost use Rattle.std.specs.Prelude.{◌≡◌, ◌++◌, ◌∷◌, [], IfOk, OnOk, false, map, slice_index_or, true};
ghost use Rattle.hq_base.specs.Json.{json_view, member_view};
ghost use Rattle.hq_base.specs.Lists.{sort};
ghost use Rattle.hq_copy_text.specs.Lists.{those};
ghost use Rattle.hq_load_meta_tables.specs.Field.{field_name};
ghost use Rattle.hq_load_meta_tables.specs.Found.{columns_of};
ghost use Rattle.hq_load_meta_tables.specs.declared.field.Field.TheVariants as field;
ghost use Rattle.hq_model.specs.Meta.{meta_view, tracked_view};
ghost use Rattle.hq_laws_written.specs.Json.Building.{list, object};
ghost use Rattle.hq_laws_written.specs.Json.ReadBack.{by_name};
ghost use Rattle.hq_laws_written.specs.Metadata.Written.{column_config, column_configs, configuration_json, is_shown, meta_json, rel_json, roots_json, shown_columns, source_json, tracked_json};

use crate::building::{array, object, push_member, push_text, single, text, text_json};
use crate::columns::{columns_of, name_at, table_json};
use crate::permissions::perms_json;
use crate::relationships::rels_json;
use hq_base::{Json, Member, Members, Memory, Txt};
use hq_load_meta_tables::field::Field;
use hq_model::{ColId, Column, Meta, RootNames, Table, Tracked, has_column};
use std::alloc::Global;

// Whether a permission shows the column.
fn is_shown(tracked: &Tracked, c: ColId) -> bool
    ensures { result ≡ is_shown (tracked_view tracked.now) c }
{
    tracked
        .perms
        .as_slice()
        .iter()
        .any(|perm| has_column(perm.cols.as_slice(), c))
}

// The GraphQL name of a column, none where it has none.
fn graphql_name(alloc: Global, tracked: &Tracked, c: ColId) -> Result<Txt, Memory>
    ensures { IfOk result (λ name. name ≡ slice_index_or tracked.now.column_names c []) }
{
    match tracked.column_names.get(c.at()) {
        Some(name) => name.copy(alloc),
        None => Ok(Txt::new(alloc)),
    }
}

// A column with its GraphQL name.
fn column_config(
    alloc: Global,
    tracked: &Tracked,
    columns: &[Column],
    c: ColId,
) -> Result<Member, Memory>
    ensures { IfOk result (λ member. member_view member ≡ column_config (tracked_view tracked.now) columns.now c) }
{
    let name = name_at(alloc, columns, c)?;
    let custom = graphql_name(alloc, tracked, c)?;
    let custom = text_json(alloc, &custom)?;
    Ok(Member {
        name,
        value: single(alloc, Field::CustomName.name(), custom)?,
    })
}

// Sorts members by their names.
fn sort_members(members: &mut Members) -> Result<(), Memory>
    ensures { OnOk result (map member_view members.new.items ≡ sort by_name (map member_view members.old.items)) }
{
    members.sort_by(|left, right| left.name.as_bytes().cmp(right.name.as_bytes()))?;
    Ok(())
}

// The shown columns with their GraphQL names.
fn shown_configs(alloc: Global, tracked: &Tracked, columns: &[Column]) -> Result<Members, Memory>
    ensures { IfOk result (λ members. map member_view members.items ≡ map (column_config (tracked_view tracked.now) columns.now) (shown_columns (tracked_view tracked.now) columns.now)) }
{
    let mut members = Vec::new(alloc);
    for at in 0..columns.len() {
        let c = ColId::new(at);
        if is_shown(tracked, c) {
            members.push(column_config(alloc, tracked, columns, c)?)?;
        }
    }
    Ok(members)
}

// The same, in the order of the names.
fn column_configs(alloc: Global, tracked: &Tracked, columns: &[Column]) -> Result<Json, Memory>
    ensures { IfOk result (λ json. json_view json ≡ object (column_configs (tracked_view tracked.now) columns.now)) }
{
    let mut members = shown_configs(alloc, tracked, columns)?;
    sort_members(&mut members)?;
    Ok(object(members))
}

// The names of the root fields.
fn roots_json(alloc: Global, roots: &RootNames) -> Result<Json, Memory>
    ensures { IfOk result (λ json. json_view json ≡ roots_json roots.now) }
{
    let mut members = Vec::new(alloc);
    push_text(alloc, Field::Select.name(), &roots.select, &mut members)?;
    push_text(
        alloc,
        Field::SelectByPk.name(),
        &roots.select_by_pk,
        &mut members,
    )?;
    push_text(
        alloc,
        Field::SelectAggregate.name(),
        &roots.select_aggregate,
        &mut members,
    )?;
    Ok(object(members))
}

// The GraphQL names of a table.
fn configuration_json(alloc: Global, tracked: &Tracked, columns: &[Column]) -> Result<Json, Memory>
    ensures { IfOk result (λ json. json_view json ≡ configuration_json (tracked_view tracked.now) columns.now) }
{
    let configs = column_configs(alloc, tracked, columns)?;
    let roots = roots_json(alloc, &tracked.roots)?;
    let mut members = Vec::new(alloc);
    push_text(alloc, Field::CustomName.name(), &tracked.name, &mut members)?;
    push_member(alloc, Field::ColumnConfig.name(), configs, &mut members)?;
    push_member(alloc, Field::CustomRootFields.name(), roots, &mut members)?;
    Ok(object(members))
}

// The relationships of a table, object ones first, behind other members.
fn push_rels(
    alloc: Global,
    tables: &[Table],
    tracked: &Tracked,
    members: &mut Members,
) -> Result<(), Memory>
    ensures { OnOk result
        (map member_view members.new.items
        ≡ map member_view members.old.items
        ++ (
          field_name field.ObjectRelationships,
          list (map (rel_json tables.now (columns_of tables.now tracked.now.table)) (those false tracked.now.rels)),
        )
        ∷ (
          field_name field.ArrayRelationships,
          list (map (rel_json tables.now (columns_of tables.now tracked.now.table)) (those true tracked.now.rels)),
        )
        ∷ []) }
{
    let own = columns_of(tables, tracked.table);
    let rels = tracked.rels.as_slice();
    let objects = rels_json(alloc, tables, own, rels, false)?;
    push_member(alloc, Field::ObjectRelationships.name(), objects, members)?;
    let arrays = rels_json(alloc, tables, own, rels, true)?;
    push_member(alloc, Field::ArrayRelationships.name(), arrays, members)
}

// A tracked table.
fn tracked_json(alloc: Global, tables: &[Table], tracked: &Tracked) -> Result<Json, Memory>
    ensures { IfOk result (λ json. json_view json ≡ tracked_json tables.now (tracked_view tracked.now)) }
{
    let columns = columns_of(tables, tracked.table);
    let table = table_json(alloc, tables, tracked.table)?;
    let configuration = configuration_json(alloc, tracked, columns)?;
    let perms = perms_json(alloc, columns, tracked.perms.as_slice())?;
    let mut members = Vec::new(alloc);
    push_member(alloc, Field::Table.name(), table, &mut members)?;
    push_member(
        alloc,
        Field::Configuration.name(),
        configuration,
        &mut members,
    )?;
    push_rels(alloc, tables, tracked, &mut members)?;
    push_member(alloc, Field::SelectPermissions.name(), perms, &mut members)?;
    Ok(object(members))
}

// The tracked tables.
fn tables_json(alloc: Global, tables: &[Table], meta: &Meta) -> Result<Json, Memory>
    ensures { IfOk result (λ json. json_view json ≡ list (map (tracked_json tables.now) (meta_view meta.now).tracked)) }
{
    let mut all = Vec::new(alloc);
    for tracked in meta.tracked.as_slice() {
        all.push(tracked_json(alloc, tables, tracked)?)?;
    }
    Ok(array(all))
}

// The one source.
fn source_json(alloc: Global, tables: &[Table], meta: &Meta) -> Result<Json, Memory>
    ensures { IfOk result (λ json. json_view json ≡ source_json tables.now (meta_view meta.now)) }
{
    let tables = tables_json(alloc, tables, meta)?;
    let mut members = Vec::new(alloc);
    push_text(
        alloc,
        Field::Name.name(),
        &text(alloc, "default")?,
        &mut members,
    )?;
    push_text(
        alloc,
        Field::Kind.name(),
        &text(alloc, "postgres")?,
        &mut members,
    )?;
    push_member(alloc, Field::Tables.name(), tables, &mut members)?;
    Ok(object(members))
}

/// A metadata without inherited roles, whose filters are empty, over these tables.
pub fn meta_json(alloc: Global, tables: &[Table], meta: &Meta) -> Result<Json, Memory>
    ensures { IfOk result (λ json. json_view json ≡ meta_json tables.now (meta_view meta.now)) }
{
    let source = source_json(alloc, tables, meta)?;
    let mut sources = Vec::new(alloc);
    sources.push(source)?;
    let mut members = Vec::new(alloc);
    push_member(alloc, Field::Version.name(), Json::Int(3), &mut members)?;
    push_member(alloc, Field::Sources.name(), array(sources), &mut members)?;
    Ok(object(members))
}
