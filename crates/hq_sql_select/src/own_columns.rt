//! Sort keys and expressions of DISTINCT ON that are columns of FROM's table: the columns are found once, and read by their numbers.
ghost use Rattle.std.specs.Prelude.{◌≡◌, None, map, IfOk, IfSome, slice_index_or};
ghost use Rattle.hq_sql_tree.specs.View.{expr_view};
ghost use Rattle.hq_sql_select.specs.Gathered.{joins_view};
ghost use Rattle.hq_sql_select.specs.OwnColumns.{AreCellsOf, IsCellOf, key_exprs};

use hq_base::{Memory, Txt};
use hq_model::ColId;
use hq_sql_access::equations::is_joined;
use hq_sql_access::scope::Source;
use hq_sql_scans::links::own_column;
use hq_sql_tree::{Expr, ExprList, Join, OrderList};
use std::alloc::Global;

/// Of each expression the column of FROM's table that it is, where it is one.
pub type Columns = Vec<Option<ColId>>;

/// Those of the sort keys, and those of DISTINCT ON.
#[derive(Drop)]
pub struct OwnColumns {
    pub keys: Columns,
    pub distinct: Columns,
}

// The columns of fewer rows are found at each of them.
const FEW: usize = 3;

/// The column at this place of a list, where it has one.
pub fn column_at(own: &[Option<ColId>], at: usize) -> Option<ColId>
    ensures { result ≡ slice_index_or own.now at None }
{
    match own.get(at) {
        Some(column) => *column,
        None => None,
    }
}

// The column of FROM's table that an expression is.
#[tactic(auto, using(crate::proofs::OwnCells::own_is))]
fn column_of<'s, 'd>(
    source: Source<'s, 'd>,
    alias: &Txt,
    joins: &[Join],
    expr: &Expr,
) -> Option<ColId>
    ensures { IfSome result (IsCellOf source.entry alias.now (joins_view joins.now) (expr_view expr.now)) }
{
    let Source::Stored(stored) = source else {
        return None;
    };
    if is_joined(joins, alias) {
        return None;
    }
    own_column(expr, stored.table.columns.as_slice(), alias)
}

// Those of sort keys.
#[tactic(auto, using(crate::proofs::OwnCells::none_given, crate::proofs::OwnCells::more_keys))]
fn key_columns<'s, 'd>(
    alloc: Global,
    source: Source<'s, 'd>,
    alias: &Txt,
    joins: &[Join],
    order: &OrderList,
) -> Result<Columns, Memory>
    ensures { IfOk result (λ own. AreCellsOf source.entry alias.now (joins_view joins.now) (key_exprs order.now.items) own.items) }
{
    let mut own = Vec::with_capacity(alloc, order.len())?;
    for key in order {
        own.push(column_of(source, alias, joins, &key.value))?;
    }
    Ok(own)
}

// Those of expressions.
#[tactic(auto, using(crate::proofs::OwnCells::none_given, crate::proofs::OwnCells::more_exprs))]
fn expr_columns<'s, 'd>(
    alloc: Global,
    source: Source<'s, 'd>,
    alias: &Txt,
    joins: &[Join],
    exprs: &ExprList,
) -> Result<Columns, Memory>
    ensures { IfOk result (λ own. AreCellsOf source.entry alias.now (joins_view joins.now) (map expr_view exprs.now.items) own.items) }
{
    let mut own = Vec::with_capacity(alloc, exprs.len())?;
    for expr in exprs {
        own.push(column_of(source, alias, joins, expr))?;
    }
    Ok(own)
}

/// The columns that the sort keys and the expressions of DISTINCT ON of so many rows of a FROM are; none where the rows are few.
#[tactic(auto, using(crate::proofs::OwnCells::none_given))]
pub fn own_columns<'s, 'd>(
    alloc: Global,
    source: Source<'s, 'd>,
    alias: &Txt,
    joins: &[Join],
    distinct: &ExprList,
    order: &OrderList,
    number: usize,
) -> Result<OwnColumns, Memory>
    ensures keys { IfOk result (λ own. AreCellsOf source.entry alias.now (joins_view joins.now) (key_exprs order.now.items) own.keys.items) }
    ensures distinct { IfOk result (λ own. AreCellsOf source.entry alias.now (joins_view joins.now) (map expr_view distinct.now.items) own.distinct.items) }
{
    if number < FEW {
        return Ok(OwnColumns {
            keys: Vec::new(alloc),
            distinct: Vec::new(alloc),
        });
    }
    let keys = key_columns(alloc, source, alias, joins, order)?;
    let distinct = expr_columns(alloc, source, alias, joins, distinct)?;
    Ok(OwnColumns { keys, distinct })
}
