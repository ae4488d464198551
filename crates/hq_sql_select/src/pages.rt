//! Pages: the rows of a select by ORDER BY, of which DISTINCT ON, OFFSET and LIMIT leave some.
ghost use Rattle.std.specs.Prelude.{◌≡◌, [], Some, map, IfOk};
ghost use Rattle.hq_sql_tree.specs.View.{expr_view, order_view};
ghost use Rattle.hq_sql_access.specs.Keys.{with_cells, taken_at};
ghost use Rattle.hq_sql_scans.specs.Pages.{Suffices};
ghost use Rattle.hq_sql_scans.specs.Positions.{rows_at};
ghost use Rattle.hq_sql_access.specs.View.{source_view, names_of};
ghost use Rattle.hq_sql_select.specs.Gathered.{names_joined};
ghost use Rattle.hq_sql_select.specs.OwnColumns.{AreCells, key_exprs};
ghost use Rattle.hq_sql_select.specs.Selected.{Arranges, Groups, Pages, PagesFront, PagesGroups, keyed_in, scope_at};

use crate::own_columns::{OwnColumns, own_columns};
use crate::scans::scan_from;
use crate::values::{keys, values};
use hq_base::{Memory, Txt, Val};
use hq_sql_access::cells::{arranged, grouped};
use hq_sql_access::pinned::Pinned;
use hq_sql_access::place::{JoinedRow, with_more};
use hq_sql_access::scope::{Scope, Source, row_at, stored_values};
use hq_sql_access::stages::{Parts, Stage};
use hq_sql_cells::{Kept, paged};
use hq_sql_constants::{left_of, with_left};
use hq_sql_scans::ordered::{Looked, ordered_at};
use hq_sql_scans::pages::{enough, enough_sorted, has_enough};
use hq_sql_scans::positions::{Positions, number_of};
use hq_sql_tree::{ExprList, Join, OrderList, Pred};
use std::alloc::Global;

// So many rows are found, beside those that a page needs, before they are sorted.
const STRETCH: usize = 1024;

/// The rows of a select over a source, as places: of those that WHERE keeps, by ORDER BY, what DISTINCT ON, OFFSET and LIMIT leave.
#[cycle(eval)]
pub fn page<'s, 'd>(
    alloc: Global,
    source: Source<'s, 'd>,
    alias: &'d Txt,
    joins: &'d [Join],
    stages: &[Stage],
    parts: Parts<'d>,
    limit: Option<u64>,
    offset: Option<u64>,
    world: &Pinned<'d>,
    scope: &'s Scope<'s, 'd>,
) -> Result<Vec<JoinedRow<'d>>, Memory>
    ensures { IfOk result (λ places. Pages (source_view source.entry) source.entry alias.now joins.now parts.entry limit offset world.now scope.now places.items) }
{
    let looked = ordered_at(
        alloc,
        source,
        alias,
        joins,
        parts,
        &world.work.looked,
        &*scope,
    )?;
    let filter = parts.filter;
    let left = left_of(alloc, source, alias, joins, filter, looked, limit, world)?;
    let asked = with_left(looked, &left);
    match asked {
        Looked::Arranged(at) => page_front(
            alloc, source, alias, joins, stages, filter, at, limit, offset, world, scope,
        ),
        Looked::Sorted(at) => page_grouped(
            alloc, source, alias, joins, stages, parts, at, limit, offset, world, scope,
        ),
        Looked::Unsorted(at) => match enough_sorted(parts.distinct, limit, offset) {
            Some(bound) => page_top(
                alloc, source, alias, joins, stages, parts, at, bound, limit, offset, world, scope,
            ),
            None => page_sorted(
                alloc, source, alias, joins, stages, parts, at, limit, offset, world, scope,
            ),
        },
    }
}

// The same, where what WHERE keeps at these positions stands in order: the scan ends where OFFSET and LIMIT have enough.
#[cycle(eval)]
fn page_front<'s, 'd>(
    alloc: Global,
    source: Source<'s, 'd>,
    alias: &'d Txt,
    joins: &'d [Join],
    stages: &[Stage],
    filter: &'d Option<Pred>,
    positions: Positions<'_>,
    limit: Option<u64>,
    offset: Option<u64>,
    world: &Pinned<'d>,
    scope: &'s Scope<'s, 'd>,
) -> Result<Vec<JoinedRow<'d>>, Memory>
    ensures { IfOk result (λ places. PagesFront (rows_at source.entry positions.entry) source.entry alias.now joins.now filter.now limit offset world.now scope.now places.items) }
{
    let bound = enough(limit, offset);
    let found = scan_from(
        alloc, source, alias, joins, stages, filter, positions, 0, bound, world, scope,
    )?;
    let page = paged(found.places, offset, limit);
    Ok(page)
}

// How many rows are found before they are grouped.
fn stretch_of(bound: Option<usize>) -> Option<usize> {
    match bound {
        Some(bound) => Some(bound.saturating_add(STRETCH)),
        None => None,
    }
}

// The same, where it stands as ORDER BY leaves it: the scan ends where DISTINCT ON leaves enough for OFFSET and LIMIT.
#[cycle(eval)]
fn page_grouped<'s, 'd>(
    alloc: Global,
    source: Source<'s, 'd>,
    alias: &'d Txt,
    joins: &'d [Join],
    stages: &[Stage],
    parts: Parts<'d>,
    positions: Positions<'_>,
    limit: Option<u64>,
    offset: Option<u64>,
    world: &Pinned<'d>,
    scope: &'s Scope<'s, 'd>,
) -> Result<Vec<JoinedRow<'d>>, Memory>
    ensures { IfOk result (λ places. PagesGroups (rows_at source.entry positions.entry) source.entry alias.now joins.now parts.entry limit offset world.now scope.now places.items) }
{
    let bound = enough(limit, offset);
    let end = number_of(positions);
    let stretch = stretch_of(bound);
    let filter = parts.filter;
    let mut firsts = Vec::new(alloc);
    let mut next = 0;
    while next < end {
        if has_enough(bound, firsts.len()) {
            let page = paged(firsts, offset, limit);
            return Ok(page);
        }
        let found = scan_from(
            alloc, source, alias, joins, stages, filter, positions, next, stretch, world, scope,
        )?;
        next = found.next;
        let all = with_more(firsts, found.places)?;
        let left = in_groups(
            alloc,
            source,
            alias,
            joins,
            parts.distinct,
            parts.order,
            all,
            world,
            scope,
        )?;
        firsts = left;
    }
    let page = paged(firsts, offset, limit);
    Ok(page)
}

// The same under LIMIT, where it is to be sorted: behind each stretch of the scan those rows are left out that the page does not
// need.
#[cycle(eval)]
fn page_top<'s, 'd>(
    alloc: Global,
    source: Source<'s, 'd>,
    alias: &'d Txt,
    joins: &'d [Join],
    stages: &[Stage],
    parts: Parts<'d>,
    positions: Positions<'_>,
    bound: usize,
    limit: Option<u64>,
    offset: Option<u64>,
    world: &Pinned<'d>,
    scope: &'s Scope<'s, 'd>,
) -> Result<Vec<JoinedRow<'d>>, Memory>
    requires alone { parts.distinct.now.items ≡ [] }
    requires suffices { Suffices limit offset (Some bound) }
    ensures { IfOk result (λ places. Pages (rows_at source.entry positions.entry) source.entry alias.now joins.now parts.entry limit offset world.now scope.now places.items) }
{
    let end = number_of(positions);
    let stretch = Some(bound.saturating_add(STRETCH));
    let filter = parts.filter;
    let mut top = Vec::new(alloc);
    let mut next = 0;
    while next < end {
        let found = scan_from(
            alloc, source, alias, joins, stages, filter, positions, next, stretch, world, scope,
        )?;
        next = found.next;
        let all = with_more(top, found.places)?;
        let sorted = in_order(
            alloc,
            source,
            alias,
            joins,
            parts.distinct,
            parts.order,
            all,
            world,
            scope,
        )?;
        top = paged(sorted, None, Some(bound as u64));
    }
    let page = paged(top, offset, limit);
    Ok(page)
}

/// The same for these positions: what WHERE keeps there is sorted whole.
#[cycle(eval)]
pub fn page_sorted<'s, 'd>(
    alloc: Global,
    source: Source<'s, 'd>,
    alias: &'d Txt,
    joins: &'d [Join],
    stages: &[Stage],
    parts: Parts<'d>,
    positions: Positions<'_>,
    limit: Option<u64>,
    offset: Option<u64>,
    world: &Pinned<'d>,
    scope: &'s Scope<'s, 'd>,
) -> Result<Vec<JoinedRow<'d>>, Memory>
    ensures { IfOk result (λ places. Pages (rows_at source.entry positions.entry) source.entry alias.now joins.now parts.entry limit offset world.now scope.now places.items) }
{
    let found = scan_from(
        alloc,
        source,
        alias,
        joins,
        stages,
        parts.filter,
        positions,
        0,
        None,
        world,
        scope,
    )?;
    let sorted = in_order(
        alloc,
        source,
        alias,
        joins,
        parts.distinct,
        parts.order,
        found.places,
        world,
        scope,
    )?;
    let page = paged(sorted, offset, limit);
    Ok(page)
}

// The rows by ORDER BY, and of these those that DISTINCT ON leaves.
#[cycle(eval)]
fn in_order<'s, 'd>(
    alloc: Global,
    source: Source<'s, 'd>,
    alias: &'d Txt,
    joins: &'d [Join],
    distinct: &'d ExprList,
    order: &'d OrderList,
    places: Vec<JoinedRow<'d>>,
    world: &Pinned<'d>,
    scope: &'s Scope<'s, 'd>,
) -> Result<Vec<JoinedRow<'d>>, Memory>
    ensures { IfOk result (λ sorted. Arranges (scope_at source.entry alias.now joins.now world.now scope.now) distinct.now.items order.now.items places.entry.items sorted.items) }
{
    if order.is_empty() && distinct.is_empty() {
        return Ok(places);
    }
    let kept = keyed(
        alloc, source, alias, joins, distinct, order, places, world, scope,
    )?;
    arranged(alloc, order, distinct, kept)
}

// Those of the rows that DISTINCT ON leaves.
#[cycle(eval)]
fn in_groups<'s, 'd>(
    alloc: Global,
    source: Source<'s, 'd>,
    alias: &'d Txt,
    joins: &'d [Join],
    distinct: &'d ExprList,
    order: &'d OrderList,
    places: Vec<JoinedRow<'d>>,
    world: &Pinned<'d>,
    scope: &'s Scope<'s, 'd>,
) -> Result<Vec<JoinedRow<'d>>, Memory>
    ensures { IfOk result (λ left. Groups (scope_at source.entry alias.now joins.now world.now scope.now) distinct.now.items places.entry.items left.items) }
{
    let kept = keyed(
        alloc, source, alias, joins, distinct, order, places, world, scope,
    )?;
    grouped(alloc, distinct, kept)
}

// The rows beside their sort keys and their values of DISTINCT ON.
#[cycle(eval)]
fn keyed<'s, 'd>(
    alloc: Global,
    source: Source<'s, 'd>,
    alias: &'d Txt,
    joins: &'d [Join],
    distinct: &'d ExprList,
    order: &'d OrderList,
    places: Vec<JoinedRow<'d>>,
    world: &Pinned<'d>,
    scope: &'s Scope<'s, 'd>,
) -> Result<Vec<Kept<'d, JoinedRow<'d>>>, Memory>
    ensures { IfOk result
        (λ kept. map with_cells kept.items
        ≡ map
        (taken_at (scope_at source.entry alias.now joins.now world.now scope.now) (map order_view order.now.items)
        (map expr_view distinct.now.items))
        places.entry.items) }
{
    let number = places.len();
    let mut kept = Vec::with_capacity(alloc, number)?;
    let own = own_columns(alloc, source, alias, joins, distinct, order, number)?;
    for place in places {
        let row = stored_values(source, place.position);
        let at = Scope::Bound {
            alias,
            row: row_at(source, place.position),
            outer: &*scope,
        };
        kept.push(with_keys(alloc, joins, distinct, order, &own, row, place, world, &at)?)?;
    }
    Ok(kept)
}

// A row beside its sort keys and its values of DISTINCT ON.
#[cycle(eval)]
fn with_keys<'d>(
    alloc: Global,
    joins: &'d [Join],
    distinct: &'d ExprList,
    order: &'d OrderList,
    own: &OwnColumns,
    row: &'d [Val],
    place: JoinedRow<'d>,
    world: &Pinned<'d>,
    scope: &Scope<'_, 'd>,
) -> Result<Kept<'d, JoinedRow<'d>>, Memory>
    requires keys { AreCells (key_exprs order.now.items) own.now.keys.items row.now (names_joined joins.now place.joined.items world.now (names_of scope.now world.now)) }
    requires distinct { AreCells (map expr_view distinct.now.items) own.now.distinct.items row.now (names_joined joins.now place.joined.items world.now (names_of scope.now world.now)) }
    ensures { IfOk result
        (λ kept. with_cells kept
        ≡ keyed_in order.now.items distinct.now.items
        (names_joined joins.now place.entry.joined.items world.now (names_of scope.now world.now)) place.entry) }
{
    let at = Scope::Joined {
        joins,
        rows: &place.joined,
        outer: &*scope,
    };
    let keys = keys(alloc, order, &own.keys, row, world, &at)?;
    let distinct = values(alloc, distinct, &own.distinct, row, world, &at)?;
    Ok(Kept {
        keys,
        distinct,
        row: place,
    })
}
