//! Expressions of the grammar: each json_agg has a sort key.
ghost use Rattle.std.specs.Prelude.{◌≡◌, map};
ghost use Rattle.std.specs.List.{list_all};
ghost use Rattle.hq_sql_tree.specs.Tree.{pairs_of, orders_of};
ghost use Rattle.hq_sql_tree.specs.View.{agg_view, expr_view, pair_view, order_view, out_view};
ghost use Rattle.hq_sql_tree.specs.Form.{is_expr, are_pairs, is_agg, are_orders};

use crate::{Agg, Expr, ExprList, ExprPairList, OrderList, OutList};

/// Whether the order of each json_agg in the expression has at least one key.
#[cycle(is_expr)]
pub(crate) fn is_expr(value: &Expr) -> bool
    ensures { result ≡ is_expr (expr_view value.now) }
{
    match value {
        Expr::Object(pairs) => are_pairs(pairs),
        Expr::Agg(agg) => is_agg(agg),
        Expr::Column { .. } | Expr::Int(_) | Expr::Text(_) | Expr::Uuid(_) | Expr::Bool(_) => true,
    }
}

#[cycle(is_expr)]
fn are_pairs(pairs: &ExprPairList) -> bool
    ensures { result ≡ are_pairs (pairs_of (map pair_view pairs.now.items)) }
{
    for pair in pairs {
        if !is_expr(&pair.value) {
            return false;
        }
    }
    true
}

#[cycle(is_expr)]
fn is_agg(agg: &Agg) -> bool
    ensures { result ≡ is_agg (agg_view agg.now) }
{
    match agg {
        Agg::CountAll => true,
        Agg::Count { value, .. } => is_expr(value),
        Agg::Take { value, .. } => is_expr(value),
        Agg::JsonAgg { value, order } => {
            if order.is_empty() {
                return false;
            }
            is_expr(value) && are_orders(order)
        }
    }
}

// The sort keys of an aggregate.
#[cycle(is_expr)]
fn are_orders(orders: &OrderList) -> bool
    ensures { result ≡ are_orders (orders_of (map order_view orders.now.items)) }
{
    for order in orders {
        if !is_expr(&order.value) {
            return false;
        }
    }
    true
}

/// Whether all are expressions of the grammar.
pub(crate) fn are_exprs(exprs: &ExprList) -> bool
    ensures { result ≡ list_all is_expr (map expr_view exprs.now.items) }
{
    for expr in exprs {
        if !is_expr(expr) {
            return false;
        }
    }
    true
}

/// Whether all sort keys are expressions of the grammar.
pub(crate) fn are_key_exprs(keys: &OrderList) -> bool
    ensures { result ≡ list_all (λ k. is_expr k.value) (map order_view keys.now.items) }
{
    for key in keys {
        if !is_expr(&key.value) {
            return false;
        }
    }
    true
}

/// Whether all outputs are expressions of the grammar.
pub(crate) fn are_out_exprs(outs: &OutList) -> bool
    ensures { result ≡ list_all (λ o. is_expr o.value) (map out_view outs.now.items) }
{
    for out in outs {
        if !is_expr(&out.value) {
            return false;
        }
    }
    true
}
