//! Aggregates over the rows of an alias.
ghost use Rattle.std.specs.Prelude.{◌≡◌, [], map, IfOk};
ghost use Rattle.hq_sql_cells.specs.View.{cell_view};
ghost use Rattle.hq_sql_tree.specs.View.{agg_view, expr_view, order_view};
ghost use Rattle.hq_sql_tree.specs.Meaning.{value, taken};
ghost use Rattle.hq_sql_access.specs.Keys.{with_json, json_at};
ghost use Rattle.hq_sql_select.specs.Selected.{names_each};

use crate::values::{keys, value};
use hq_base::{Json, Memory, Txt};
use hq_sql_access::cells::sorted;
use hq_sql_access::pinned::Pinned;
use hq_sql_access::row::{Made, Row};
use hq_sql_access::scope::{Group, Scope};
use hq_sql_cells::{Cell, Kept, aggregated, counted};
use hq_sql_tree::{Agg, Expr, OrderList};
use std::alloc::Global;

/// An aggregate, taken over the rows of an alias.
#[cycle(eval)]
pub fn taken<'d>(
    alloc: Global,
    agg: &'d Agg,
    world: &Pinned<'d>,
    alias: &'d Txt,
    rows: &[Made<'d>],
    scope: &Scope<'_, 'd>,
) -> Result<Cell<'d>, Memory>
    ensures { IfOk result (λ cell. cell_view cell ≡ taken (agg_view agg.now) (names_each alias.now rows.now world.now scope.now)) }
{
    match agg {
        Agg::CountAll => Ok(Cell::Int(rows.len() as i128)),
        Agg::Count {
            value: expr,
            distinct,
        } => counted(
            alloc,
            *distinct,
            each_value(alloc, expr, world, alias, rows, scope)?,
        ),
        Agg::Take {
            aggregate,
            value: expr,
        } => aggregated(
            *aggregate,
            each_value(alloc, expr, world, alias, rows, scope)?,
        ),
        Agg::JsonAgg { value: expr, order } => {
            let kept = each_json(alloc, expr, order, world, alias, rows, scope)?;
            Ok(Cell::Json(Json::Arr(sorted(alloc, order, kept)?)))
        }
    }
}

// The value of an expression at each row.
#[cycle(eval)]
fn each_value<'d>(
    alloc: Global,
    expr: &'d Expr,
    world: &Pinned<'d>,
    alias: &'d Txt,
    rows: &[Made<'d>],
    scope: &Scope<'_, 'd>,
) -> Result<Vec<Cell<'d>>, Memory>
    ensures { IfOk result (λ cells. map cell_view cells.items ≡ map (value (expr_view expr.now) []) (names_each alias.now rows.now world.now scope.now)) }
{
    let mut cells = Vec::with_capacity(alloc, rows.len())?;
    for row in rows {
        let at = Scope::Bound {
            alias,
            row: Row::Made { cells: &row.cells },
            outer: &*scope,
        };
        cells.push(value(alloc, expr, world, Group::Alone, &at)?)?;
    }
    Ok(cells)
}

// The JSON of an expression at each row, with the row's sort keys.
#[cycle(eval)]
fn each_json<'d>(
    alloc: Global,
    expr: &'d Expr,
    order: &'d OrderList,
    world: &Pinned<'d>,
    alias: &'d Txt,
    rows: &[Made<'d>],
    scope: &Scope<'_, 'd>,
) -> Result<Vec<Kept<'d, Json>>, Memory>
    ensures { IfOk result (λ kept. map with_json kept.items ≡ map (json_at (expr_view expr.now) (map order_view order.now.items)) (names_each alias.now rows.now world.now scope.now)) }
{
    let mut kept = Vec::with_capacity(alloc, rows.len())?;
    for row in rows {
        let at = Scope::Bound {
            alias,
            row: Row::Made { cells: &row.cells },
            outer: &*scope,
        };
        let keys = keys(alloc, order, &[], &[], world, &at)?;
        let cell = value(alloc, expr, world, Group::Alone, &at)?;
        kept.push(Kept {
            keys,
            distinct: Vec::new(alloc),
            row: cell.into_json(alloc)?,
        })?;
    }
    Ok(kept)
}
