//! What an aggregate gives over no rows; the directions of sort keys, and kept rows by their keys.
ghost use Rattle.std.specs.Prelude.{◌≡◌, [], map, IfOk};
ghost use Rattle.hq_base.specs.Aggregates.{aggregated};
ghost use Rattle.hq_base.specs.Lists.{sort};
ghost use Rattle.hq_sql_cells.specs.View.{cell_view};
ghost use Rattle.hq_sql_tree.specs.View.{agg_view, expr_view, order_view};
ghost use Rattle.hq_sql_tree.specs.Meaning.{taken};
ghost use Rattle.hq_sql_access.specs.Keys.{directions_of, row_of, by_keys, distinct_kept};

use hq_base::{Aggregate, Json, Memory};
use hq_sql_cells::{Cell, Direction, Kept, aggregated, first_kept, rows_of, sorted_kept};
use hq_sql_tree::{Agg, ExprList, OrderList};
use std::alloc::Global;

fn of_none<'d>(alloc: Global, aggregate: Aggregate) -> Result<Cell<'d>, Memory>
    ensures { IfOk result (λ cell. cell_view cell ≡ aggregated aggregate []) }
{
    let none = Vec::new(alloc);
    aggregated(aggregate, none)
}

/// An aggregate over no rows.
pub fn over_none<'d>(alloc: Global, agg: &Agg) -> Result<Cell<'d>, Memory>
    ensures { IfOk result (λ cell. cell_view cell ≡ taken (agg_view agg.now) []) }
{
    match agg {
        Agg::CountAll | Agg::Count { .. } => Ok(Cell::Int(0)),
        Agg::Take { aggregate, .. } => of_none(alloc, *aggregate),
        Agg::JsonAgg { .. } => Ok(Cell::Json(Json::Arr(Vec::new(alloc)))),
    }
}

/// The directions of sort keys.
pub fn directions(alloc: Global, order: &OrderList) -> Result<Vec<Direction>, Memory>
    ensures { IfOk result (λ directions. directions.items ≡ directions_of (map order_view order.now.items)) }
{
    let mut directions = Vec::with_capacity(alloc, order.len())?;
    for key in order {
        directions.push(Direction {
            desc: key.desc,
            nulls_first: key.nulls_first,
        })?;
    }
    Ok(directions)
}

// The kept rows by their keys.
fn by_keys<'d, T: Drop>(
    alloc: Global,
    order: &OrderList,
    kept: Vec<Kept<'d, T>>,
) -> Result<Vec<Kept<'d, T>>, Memory>
    ensures { IfOk result (λ all. all.items ≡ sort (by_keys (map order_view order.now.items)) kept.entry.items) }
{
    let directions = directions(alloc, order)?;
    sorted_kept(alloc, &directions, kept)
}

/// The rows of kept ones, by their keys.
pub fn sorted<'d, T: Drop>(
    alloc: Global,
    order: &OrderList,
    kept: Vec<Kept<'d, T>>,
) -> Result<Vec<T>, Memory>
    ensures { IfOk result (λ rows. rows.items ≡ map row_of (sort (by_keys (map order_view order.now.items)) kept.entry.items)) }
{
    rows_of(alloc, by_keys(alloc, order, kept)?)
}

/// The rows of kept ones, and of these with DISTINCT ON the first of each group.
pub fn grouped<'d, T: Drop>(
    alloc: Global,
    distinct: &ExprList,
    kept: Vec<Kept<'d, T>>,
) -> Result<Vec<T>, Memory>
    ensures { IfOk result (λ rows. rows.items ≡ map row_of (distinct_kept (map expr_view distinct.now.items) kept.entry.items)) }
{
    if distinct.is_empty() {
        return rows_of(alloc, kept);
    }
    rows_of(alloc, first_kept(alloc, kept)?)
}

/// The same of the rows by their keys.
pub fn arranged<'d, T: Drop>(
    alloc: Global,
    order: &OrderList,
    distinct: &ExprList,
    kept: Vec<Kept<'d, T>>,
) -> Result<Vec<T>, Memory>
    ensures { IfOk result (λ rows. rows.items ≡ map row_of (distinct_kept (map expr_view distinct.now.items) (sort (by_keys (map order_view order.now.items)) kept.entry.items))) }
{
    grouped(alloc, distinct, by_keys(alloc, order, kept)?)
}
