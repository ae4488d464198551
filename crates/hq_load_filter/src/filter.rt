ghost use Rattle.std.specs.Prelude.{◌≡◌, ◌≤◌, ◌*◌, true, map, IfOk};
ghost use Rattle.hq_base.specs.Due.{Gives};
ghost use Rattle.hq_base.specs.Json.{json_view, member_view, elements_of, members_of};
ghost use Rattle.hq_model.specs.Bexp.{bexp_view, depth, through, exists_in};
ghost use Rattle.hq_model.specs.Filters.{is_filter};
ghost use Rattle.hq_model.specs.Fits.{asks_tracked};
ghost use Rattle.hq_model.specs.Meta.{meta_view};
ghost use Rattle.hq_model.specs.Schema.{schema_of};
ghost use Rattle.hq_load_filter.specs.Filter.{filter_due, filters_due, elements_due, members_due, written, exists_due, where_due};
ghost use Rattle.hq_load_filter.specs.Nesting.{nesting};

use crate::FilterRefusal;
use crate::asked::asked_table;
use crate::condition::conditions_on;
use crate::named::{Named, named_by};
use crate::refusal::{misshaped, unknown_column};
use hq_base::{Json, JsonList, Members, Memory, Txt, item_path, member_path};
use hq_model::{Bexp, BexpList, Catalog, Described, Meta, RelId, TableId};
use std::alloc::Global;

/// The expression of the filter over the table `t` that stands at `path` in the file, or the refusal of its first bad
/// node: members in the order of the object, which is ascending by name where the JSON was read from a body, and lists
/// in order. Of `meta` the tracked tables and their relationships are looked at, and no permission. A table that is not
/// tracked has no relationships, and one beyond the catalog no columns. `_exists` asks for rows of tracked tables alone.
pub fn read_filter(
    alloc: Global,
    json: &Json,
    path: &Txt,
    catalog: &Catalog,
    meta: &Meta,
    t: TableId,
) -> Result<Bexp, FilterRefusal>
    ensures due { Gives bexp_view FilterRefusal.Memory (filter_due (json_view json.now) catalog.now.tables (meta_view meta.now) t path.now) result }
    ensures fits { IfOk result (λ b. is_filter (bexp_view b) (schema_of catalog.now.tables (meta_view meta.now)) t ≡ true) }
    ensures tracked { IfOk result (λ b. asks_tracked (meta_view meta.now) (bexp_view b) ≡ true) }
    ensures shallow { IfOk result (λ b. depth (bexp_view b) ≤ 2 * nesting (json_view json.now)) }
{
    filter(alloc, &Described { catalog, meta }, t, path, json)
}

// The filter at a path.
#[cycle(filter)]
fn filter(
    alloc: Global,
    scope: &Described,
    t: TableId,
    path: &Txt,
    json: &Json,
) -> Result<Bexp, FilterRefusal>
    ensures { Gives bexp_view FilterRefusal.Memory (filter_due (json_view json.now) scope.now.catalog.now.tables (meta_view scope.now.meta.now) t path.now) result }
{
    match json {
        Json::Obj(members) => Ok(Bexp::all_of(member_bexps(alloc, scope, t, path, members)?)),
        _ => Err(misshaped(alloc, path)),
    }
}

// The list of filters at a path.
#[cycle(filter)]
fn filters(
    alloc: Global,
    scope: &Described,
    t: TableId,
    path: &Txt,
    json: &Json,
) -> Result<BexpList, FilterRefusal>
    ensures { Gives (λ v. map bexp_view v.items) FilterRefusal.Memory (filters_due (json_view json.now) scope.now.catalog.now.tables (meta_view scope.now.meta.now) t path.now) result }
{
    match json {
        Json::Arr(elements) => element_bexps(alloc, scope, t, path, elements),
        _ => Err(misshaped(alloc, path)),
    }
}

// The filters of the elements of the array at a path.
#[cycle(filter)]
fn element_bexps(
    alloc: Global,
    scope: &Described,
    t: TableId,
    path: &Txt,
    elements: &JsonList,
) -> Result<BexpList, FilterRefusal>
    ensures { Gives (λ v. map bexp_view v.items) FilterRefusal.Memory
        (elements_due (elements_of (map json_view elements.now.items)) scope.now.catalog.now.tables (meta_view scope.now.meta.now) t
        path.now 0)
        result }
{
    let mut bexps = Vec::new(alloc);
    for (place, json) in elements.iter().enumerate() {
        let bexp = filter(alloc, scope, t, &item_path(alloc, path, place)?, json)?;
        bexps.push(bexp)?;
    }
    Ok(bexps)
}

// The expressions of the members of the object at a path.
#[cycle(filter)]
fn member_bexps(
    alloc: Global,
    scope: &Described,
    t: TableId,
    path: &Txt,
    members: &Members,
) -> Result<BexpList, FilterRefusal>
    ensures { Gives (λ v. map bexp_view v.items) FilterRefusal.Memory
        (members_due (members_of (map member_view members.now.items)) scope.now.catalog.now.tables (meta_view scope.now.meta.now) t
        path.now)
        result }
{
    let mut bexps = Vec::new(alloc);
    for member in members {
        member.name.is_text();
        let path = member_path(alloc, path, member.name.as_str())?;
        let bexp = member_bexp(alloc, scope, t, &path, &member.name, &member.value)?;
        bexps.push(bexp)?;
    }
    Ok(bexps)
}

// The expression of a member at a path.
#[cycle(filter)]
fn member_bexp(
    alloc: Global,
    scope: &Described,
    t: TableId,
    path: &Txt,
    name: &Txt,
    json: &Json,
) -> Result<Bexp, FilterRefusal>
    ensures { Gives bexp_view FilterRefusal.Memory (written scope.now.catalog.now.tables (meta_view scope.now.meta.now) t path.now name.now (json_view json.now)) result }
{
    let Some(named) = named_by(scope, t, name) else {
        return Err(unknown_column(alloc, path));
    };
    match named {
        Named::And => Ok(Bexp::And(filters(alloc, scope, t, path, json)?)),
        Named::Or => Ok(Bexp::Or(filters(alloc, scope, t, path, json)?)),
        Named::Not => {
            let inner = filter(alloc, scope, t, path, json)?;
            Ok(Bexp::Not(Box::new(alloc, inner)?))
        }
        Named::Exists => exists(alloc, scope, path, json),
        Named::Column(col) => conditions_on(alloc, scope, t, col, path, json),
        Named::Relationship(rel) => {
            let inner = filter(alloc, scope, scope.remote(t, rel), path, json)?;
            Ok(through(alloc, rel, inner)?)
        }
    }
}

// The value of `_exists` at a path.
#[cycle(filter)]
fn exists(alloc: Global, scope: &Described, path: &Txt, json: &Json) -> Result<Bexp, FilterRefusal>
    ensures { Gives bexp_view FilterRefusal.Memory (exists_due (json_view json.now) scope.now.catalog.now.tables (meta_view scope.now.meta.now) path.now) result }
{
    let Json::Obj(members) = json else {
        return Err(misshaped(alloc, path));
    };
    let table = asked_table(alloc, scope, path, json)?;
    let path = member_path(alloc, path, "_where")?;
    let inner = where_bexp(alloc, scope, table, &path, members)?;
    Ok(exists_in(alloc, table, inner)?)
}

// The filter over a table that the member `_where` holds, at the path that this one has or would have.
#[cycle(filter)]
fn where_bexp(
    alloc: Global,
    scope: &Described,
    t: TableId,
    path: &Txt,
    members: &Members,
) -> Result<Bexp, FilterRefusal>
    ensures { Gives bexp_view FilterRefusal.Memory (where_due (members_of (map member_view members.now.items)) scope.now.catalog.now.tables (meta_view scope.now.meta.now) t path.now) result }
{
    for member in members {
        if member.name.as_str() == "_where" {
            return filter(alloc, scope, t, path, &member.value);
        }
    }
    Err(misshaped(alloc, path))
}

// Some row of the table meets the inner expression.
fn exists_in(alloc: Global, table: TableId, inner: Bexp) -> Result<Bexp, Memory>
    ensures { IfOk result (λ b. bexp_view b ≡ exists_in table (bexp_view inner)) }
{
    Ok(Bexp::Exists {
        table,
        inner: Box::new(alloc, inner)?,
    })
}

// Some row behind the relationship meets the inner expression.
fn through(alloc: Global, rel: RelId, inner: Bexp) -> Result<Bexp, Memory>
    ensures { IfOk result (λ b. bexp_view b ≡ through rel (bexp_view inner)) }
{
    Ok(Bexp::Through {
        rel,
        inner: Box::new(alloc, inner)?,
    })
}
