//! Relationships as JSON values.
ghost use Rattle.std.specs.Prelude.{◌≡◌, IfOk, map};
ghost use Rattle.hq_base.specs.Json.{json_view, member_view};
ghost use Rattle.hq_copy_text.specs.Lists.{those};
ghost use Rattle.hq_laws_written.specs.Json.Building.{list, object};
ghost use Rattle.hq_laws_written.specs.Metadata.Written.{link_json, pair_json, rel_json};

use crate::building::{array, object, push_member, push_text, single, text_json};
use crate::columns::{columns_of, name_at, table_json};
use hq_base::{Json, Member, Memory};
use hq_load_meta_tables::field::Field;
use hq_model::{Column, Pair, Rel, Table};
use std::alloc::Global;

// A pair: the own column's name, and the remote one's.
fn pair_member(
    alloc: Global,
    own: &[Column],
    remote: &[Column],
    pair: &Pair,
) -> Result<Member, Memory>
    ensures { IfOk result (λ member. member_view member ≡ pair_json own.now remote.now pair.now) }
{
    let name = name_at(alloc, own, pair.own)?;
    let far = name_at(alloc, remote, pair.remote)?;
    Ok(Member {
        name,
        value: text_json(alloc, &far)?,
    })
}

// The pairs.
fn mapping_json(
    alloc: Global,
    own: &[Column],
    remote: &[Column],
    pairs: &[Pair],
) -> Result<Json, Memory>
    ensures { IfOk result (λ json. json_view json ≡ object (map (pair_json own.now remote.now) pairs.now)) }
{
    let mut members = Vec::new(alloc);
    for pair in pairs {
        members.push(pair_member(alloc, own, remote, pair)?)?;
    }
    Ok(object(members))
}

// The remote table, and the pairs.
fn link_json(alloc: Global, tables: &[Table], own: &[Column], rel: &Rel) -> Result<Json, Memory>
    ensures { IfOk result (λ json. json_view json ≡ link_json tables.now own.now rel.now) }
{
    let remote = columns_of(tables, rel.remote);
    let mapping = mapping_json(alloc, own, remote, rel.pairs.as_slice())?;
    let table = table_json(alloc, tables, rel.remote)?;
    let mut members = Vec::new(alloc);
    push_member(alloc, Field::RemoteTable.name(), table, &mut members)?;
    push_member(alloc, Field::ColumnMapping.name(), mapping, &mut members)?;
    Ok(object(members))
}

// A relationship.
fn rel_json(alloc: Global, tables: &[Table], own: &[Column], rel: &Rel) -> Result<Json, Memory>
    ensures { IfOk result (λ json. json_view json ≡ rel_json tables.now own.now rel.now) }
{
    let link = link_json(alloc, tables, own, rel)?;
    let using = single(alloc, Field::ManualConfiguration.name(), link)?;
    let mut members = Vec::new(alloc);
    push_text(alloc, Field::Name.name(), &rel.name, &mut members)?;
    push_member(alloc, Field::Using.name(), using, &mut members)?;
    Ok(object(members))
}

/// The array relationships of a table where `many`, else the object ones.
pub fn rels_json(
    alloc: Global,
    tables: &[Table],
    own: &[Column],
    rels: &[Rel],
    many: bool,
) -> Result<Json, Memory>
    ensures { IfOk result (λ json. json_view json ≡ list (map (rel_json tables.now own.now) (those many rels.now))) }
{
    let mut all = Vec::new(alloc);
    for rel in rels {
        if rel.many == many {
            all.push(rel_json(alloc, tables, own, rel)?)?;
        }
    }
    Ok(array(all))
}
