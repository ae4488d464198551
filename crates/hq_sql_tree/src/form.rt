//! Where aggregates stand, and which rows are written as a fold is.
ghost use Rattle.std.specs.Prelude.{◌≡◌, ◌==◌, map, length, is_none};
ghost use Rattle.hq_sql_tree.specs.Tree.{pairs_of, joins_of};
ghost use Rattle.hq_sql_tree.specs.View.{expr_view, pair_view, order_view, out_view, select_view, from_view, join_view, filter_view};
ghost use Rattle.hq_sql_tree.specs.Form.{holds_agg, hold_agg, is_rows, is_lone_agg, is_sub_of_rows, is_one, is_no_join, is_no_filter, reads_as_fold};

use crate::{Expr, ExprList, ExprPairList, From, JoinList, OrderList, OutList, Pred, Select};

impl Expr {
    /// Whether an aggregate stands in the expression.
    #[cycle(holds_agg)]
    pub fn holds_agg(&self) -> bool
        ensures { result ≡ holds_agg (expr_view self.now) }
    {
        match self {
            Expr::Object(pairs) => hold_agg(pairs),
            Expr::Agg(_) => true,
            Expr::Column { .. } | Expr::Int(_) | Expr::Text(_) | Expr::Uuid(_) | Expr::Bool(_) =>
                false,
        }
    }
}

#[cycle(holds_agg)]
fn hold_agg(pairs: &ExprPairList) -> bool
    ensures { result ≡ hold_agg (pairs_of (map pair_view pairs.now.items)) }
{
    for pair in pairs {
        if pair.value.holds_agg() {
            return true;
        }
    }
    false
}

fn is_lone_agg(outs: &OutList) -> bool
    ensures { result ≡ is_lone_agg (map out_view outs.now.items) }
{
    match outs.as_slice() {
        [out] => out.value.holds_agg(),
        _ => false,
    }
}

fn is_sub_of_rows(from: &From) -> bool
    ensures { result ≡ is_sub_of_rows (from_view from.now) }
{
    match from {
        From::Sub { select, .. } => select.is_rows(),
        From::Table { .. } | From::One { .. } => false,
    }
}

fn has_no_join(joins: &JoinList) -> bool
    ensures { result ≡ is_no_join (joins_of (map join_view joins.now.items)) }
{
    joins.as_slice().is_empty()
}

/// Whether there is no WHERE.
pub(crate) fn has_no_filter(filter: &Option<Pred>) -> bool
    ensures { result ≡ is_no_filter (filter_view filter.now) }
{
    match filter {
        None => true,
        Some(_) => false,
    }
}

fn has_no_expr(exprs: &ExprList) -> bool
    ensures { result ≡ (length (map expr_view exprs.now.items) == 0) }
{
    exprs.is_empty()
}

fn has_no_key(keys: &OrderList) -> bool
    ensures { result ≡ (length (map order_view keys.now.items) == 0) }
{
    keys.is_empty()
}

impl From {
    /// Whether it is One: the one row whose column `u` is true.
    pub fn is_one(&self) -> bool
        ensures { result ≡ is_one (from_view self.now) }
    {
        match self {
            From::One { .. } => true,
            From::Table { .. } | From::Sub { .. } => false,
        }
    }
}

impl Select {
    /// Whether it is Rows.
    pub fn is_rows(&self) -> bool
        ensures { result ≡ is_rows (select_view self.now) }
    {
        match self {
            Select::Rows { .. } => true,
            Select::Fold { .. } => false,
        }
    }

    /// Whether it is Rows that would be written as a fold is: no tree.
    pub fn reads_as_fold(&self) -> bool
        ensures { result ≡ reads_as_fold (select_view self.now) }
    {
        match self {
            Select::Rows {
                distinct,
                outs,
                from,
                joins,
                filter,
                order,
                limit,
                offset,
            } => {
                is_lone_agg(outs)
                    && is_sub_of_rows(from)
                    && has_no_expr(distinct)
                    && has_no_join(joins)
                    && has_no_filter(filter)
                    && has_no_key(order)
                    && limit.is_none()
                    && offset.is_none()
            }
            Select::Fold { .. } => false,
        }
    }
}
