//! Values of expressions.
ghost use Rattle.std.specs.Prelude.{◌≡◌, map, IfOk};
ghost use Rattle.hq_base.specs.Json.{member_view};
ghost use Rattle.hq_sql_cells.specs.View.{cell_view};
ghost use Rattle.hq_sql_tree.specs.View.{expr_view, pair_view, order_view};
ghost use Rattle.hq_sql_tree.specs.Meaning.{cell_named, value};
ghost use Rattle.hq_sql_access.specs.View.{names_of, group_of};
ghost use Rattle.hq_sql_access.specs.Keys.{expr_values, key_values, member_at};
ghost use Rattle.hq_sql_select.specs.OwnColumns.{AreCells, key_exprs};

use crate::aggregates::taken;
use crate::clauses::first;
use crate::own_columns::column_at;
use hq_base::{Json, Member, Memory, Txt, Val};
use hq_model::ColId;
use hq_sql_access::cells::over_none;
use hq_sql_access::pinned::Pinned;
use hq_sql_access::resolved::{Resolved, resolve};
use hq_sql_access::row::{cell_at, cell_taken};
use hq_sql_access::scope::{Group, Scope};
use hq_sql_cells::Cell;
use hq_sql_constants::cell_in;
use hq_sql_tree::{Expr, ExprList, ExprPairList, OrderList};
use std::alloc::Global;

// The cell of a column of an alias.
#[cycle(eval)]
fn column_cell<'d>(
    alloc: Global,
    world: &Pinned<'d>,
    scope: &Scope<'_, 'd>,
    alias: &Txt,
    name: &Txt,
) -> Result<Cell<'d>, Memory>
    ensures { IfOk result (λ cell. cell_view cell ≡ cell_named ((names_of scope.now world.now) alias.now) name.now) }
{
    match resolve(*scope, alias) {
        Resolved::Missing => Ok(Cell::Null),
        Resolved::Lent(row) => cell_at(alloc, row, name),
        Resolved::First { select, scope } => {
            let row = first(alloc, select, world, &scope)?;
            Ok(cell_taken(row, name))
        }
    }
}

/// The value of an expression; an aggregate is taken over the group.
#[cycle(eval)]
pub fn value<'d>(
    alloc: Global,
    expr: &'d Expr,
    world: &Pinned<'d>,
    group: Group<'_, 'd>,
    scope: &Scope<'_, 'd>,
) -> Result<Cell<'d>, Memory>
    ensures { IfOk result (λ cell. cell_view cell ≡ value (expr_view expr.now) (group_of group.entry (names_of scope.now world.now)) (names_of scope.now world.now)) }
{
    match expr {
        Expr::Column { alias, name, .. } => column_cell(alloc, world, scope, alias, name),
        Expr::Int(n) => Ok(Cell::Int(*n as i128)),
        Expr::Text(text) | Expr::Uuid(text) => Ok(Cell::Text(text)),
        Expr::Bool(b) => Ok(Cell::Bool(*b)),
        Expr::Object(pairs) => {
            let members = members(alloc, pairs, world, group, scope)?;
            Ok(Cell::Json(Json::Obj(members)))
        }
        Expr::Agg(agg) => match group {
            Group::Alone => over_none(alloc, agg),
            Group::Of { alias, rows } => taken(alloc, agg, world, alias, rows, scope),
        },
    }
}

#[cycle(eval)]
fn members<'d>(
    alloc: Global,
    pairs: &'d ExprPairList,
    world: &Pinned<'d>,
    group: Group<'_, 'd>,
    scope: &Scope<'_, 'd>,
) -> Result<Vec<Member>, Memory>
    ensures { IfOk result
        (λ members. map member_view members.items
        ≡ map (member_at (group_of group.entry (names_of scope.now world.now)) (names_of scope.now world.now))
        (map pair_view pairs.now.items)) }
{
    let mut members = Vec::with_capacity(alloc, pairs.len())?;
    for pair in pairs {
        let cell = value(alloc, &pair.value, world, group, scope)?;
        let name = pair.name.copy(alloc)?;
        members.push(Member {
            name,
            value: cell.into_json(alloc)?,
        })?;
    }
    Ok(members)
}

/// The sort keys of a row, each the value of its expression; those that are given a column are cells of this row of FROM's table.
#[cycle(eval)]
pub fn keys<'d>(
    alloc: Global,
    order: &'d OrderList,
    own: &[Option<ColId>],
    row: &'d [Val],
    world: &Pinned<'d>,
    scope: &Scope<'_, 'd>,
) -> Result<Vec<Cell<'d>>, Memory>
    requires { AreCells (key_exprs order.now.items) own.now row.now (names_of scope.now world.now) }
    ensures { IfOk result (λ keys. map cell_view keys.items ≡ key_values (map order_view order.now.items) (names_of scope.now world.now)) }
{
    let mut keys = Vec::with_capacity(alloc, order.len())?;
    for (at, key) in order.iter().enumerate() {
        let cell = match column_at(own, at) {
            Some(column) => cell_in(row, column),
            None => value(alloc, &key.value, world, Group::Alone, scope)?,
        };
        keys.push(cell)?;
    }
    Ok(keys)
}

/// The values of expressions; those that are given a column are cells of this row of FROM's table.
#[cycle(eval)]
pub fn values<'d>(
    alloc: Global,
    exprs: &'d ExprList,
    own: &[Option<ColId>],
    row: &'d [Val],
    world: &Pinned<'d>,
    scope: &Scope<'_, 'd>,
) -> Result<Vec<Cell<'d>>, Memory>
    requires { AreCells (map expr_view exprs.now.items) own.now row.now (names_of scope.now world.now) }
    ensures { IfOk result (λ values. map cell_view values.items ≡ expr_values (map expr_view exprs.now.items) (names_of scope.now world.now)) }
{
    let mut values = Vec::with_capacity(alloc, exprs.len())?;
    for (at, expr) in exprs.iter().enumerate() {
        let cell = match column_at(own, at) {
            Some(column) => cell_in(row, column),
            None => value(alloc, expr, world, Group::Alone, scope)?,
        };
        values.push(cell)?;
    }
    Ok(values)
}
