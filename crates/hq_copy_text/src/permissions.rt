//! Select permissions without a filter as JSON values.
ghost use Rattle.std.specs.Prelude.{◌≡◌, ◌++◌, IfOk, OnOk, map};
ghost use Rattle.hq_base.specs.Json.{json_view, member_view};
ghost use Rattle.hq_model.specs.Meta.{perm_view};
ghost use Rattle.hq_laws_written.specs.Json.Building.{list};
ghost use Rattle.hq_laws_written.specs.Metadata.Written.{limit_member, perm_json, permission_json};

use crate::building::{array, object, push_member, push_text};
use crate::columns::names_json;
use hq_base::{Json, Members, Memory};
use hq_load_meta_tables::field::Field;
use hq_model::{Column, Perm};
use std::alloc::Global;

// The most rows of a list, where there is a limit, behind other members.
fn push_limit(alloc: Global, limit: Option<u64>, members: &mut Members) -> Result<(), Memory>
    ensures { OnOk result (map member_view members.new.items ≡ map member_view members.old.items ++ limit_member limit) }
{
    match limit {
        Some(limit) => push_member(
            alloc,
            Field::Limit.name(),
            Json::Int(limit as i128),
            members,
        ),
        None => Ok(()),
    }
}

// What a role may see.
fn permission_json(alloc: Global, columns: &[Column], perm: &Perm) -> Result<Json, Memory>
    ensures { IfOk result (λ json. json_view json ≡ permission_json columns.now (perm_view perm.now)) }
{
    let names = names_json(alloc, columns, perm.cols.as_slice())?;
    let filter = object(Vec::new(alloc));
    let aggregations = Json::Bool(perm.aggregations);
    let mut members = Vec::new(alloc);
    push_member(alloc, Field::Columns.name(), names, &mut members)?;
    push_member(alloc, Field::Filter.name(), filter, &mut members)?;
    push_limit(alloc, perm.limit, &mut members)?;
    push_member(
        alloc,
        Field::AllowAggregations.name(),
        aggregations,
        &mut members,
    )?;
    Ok(object(members))
}

// A select permission of a role.
fn perm_json(alloc: Global, columns: &[Column], perm: &Perm) -> Result<Json, Memory>
    ensures { IfOk result (λ json. json_view json ≡ perm_json columns.now (perm_view perm.now)) }
{
    let permission = permission_json(alloc, columns, perm)?;
    let mut members = Vec::new(alloc);
    push_text(alloc, Field::Role.name(), &perm.role, &mut members)?;
    push_member(alloc, Field::Permission.name(), permission, &mut members)?;
    Ok(object(members))
}

/// The permissions of a table.
pub fn perms_json(alloc: Global, columns: &[Column], perms: &[Perm]) -> Result<Json, Memory>
    ensures { IfOk result (λ json. json_view json ≡ list (map (perm_json columns.now) (map perm_view perms.now))) }
{
    let mut all = Vec::new(alloc);
    for perm in perms {
        all.push(perm_json(alloc, columns, perm)?)?;
    }
    Ok(array(all))
}
