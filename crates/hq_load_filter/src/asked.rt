ghost use Rattle.std.specs.Prelude.{◌≡◌, ◌||◌, map};
ghost use Rattle.hq_base.specs.Due.{Gives};
ghost use Rattle.hq_base.specs.Json.{json_view, member_view};
ghost use Rattle.hq_model.specs.Meta.{meta_view};
ghost use Rattle.hq_load_filter.specs.Asked.{is_part, part_due, parts_due, asked_due};

use crate::FilterRefusal;
use crate::refusal::misshaped;
use crate::table::remote_at;
use hq_base::{Json, Member, Txt, member_path};
use hq_model::{Described, TableId};
use std::alloc::Global;

// Whether this is a member of `_exists`.
fn is_part(name: &str) -> bool
    ensures { result ≡ is_part name.now }
{
    name == "_table" || name == "_where"
}

// A member of the object at a path is one of the two.
fn check_part(alloc: Global, path: &Txt, member: &Member) -> Result<(), FilterRefusal>
    ensures { Gives (λ done. done) FilterRefusal.Memory (part_due path.now (member_view member.now)) result }
{
    member.name.is_text();
    let name = member.name.as_str();
    if is_part(name) {
        return Ok(());
    }
    Err(misshaped(alloc, &member_path(alloc, path, name)?))
}

// All members of the object at a path are.
fn check_parts(alloc: Global, path: &Txt, members: &[Member]) -> Result<(), FilterRefusal>
    ensures { Gives (λ done. done) FilterRefusal.Memory (parts_due path.now (map member_view members.now)) result }
{
    for member in members {
        check_part(alloc, path, member)?;
    }
    Ok(())
}

/// The table whose rows the value of `_exists` at a path asks for: it has the members `_table` and `_where` alone, and
/// `_table` names a tracked table.
#[tactic(auto, unfolding(crate::specs::Asked::asked_due))]
pub fn asked_table(
    alloc: Global,
    scope: &Described,
    path: &Txt,
    json: &Json,
) -> Result<TableId, FilterRefusal>
    ensures { Gives (λ table. table) FilterRefusal.Memory (asked_due scope.now.catalog.now.tables (meta_view scope.now.meta.now) path.now (json_view json.now)) result }
{
    let Some(members) = json.as_object() else {
        return Err(misshaped(alloc, path));
    };
    check_parts(alloc, path, members)?;
    let here = member_path(alloc, path, "_table")?;
    match json.member("_table") {
        Some(table) => remote_at(alloc, scope, &here, table),
        None => Err(misshaped(alloc, &here)),
    }
}
