//! How many parentheses a spelling opens at once. No walk goes deeper into a tree than it has leave to open parentheses.
ghost use Rattle.std.specs.Prelude.{◌≡◌, ◌+◌, map, max, nat_le};
ghost use Rattle.hq_sql_tree.specs.Tree.{pairs_of, orders_of, joins_of, preds_of};
ghost use Rattle.hq_sql_tree.specs.View.{agg_view, expr_view, pair_view, order_view, out_view, select_view, from_view, join_view, pred_view, filter_view};
ghost use Rattle.hq_sql_tree.specs.Form.{greatest, expr_depth, pairs_depth, agg_depth, orders_depth, list_parens, distinct_depth, select_depth, from_depth, joins_depth, pred_depth, preds_depth, filter_depth};

use crate::{
    Agg, Expr, ExprList, ExprPairList, From, JoinList, OrderList, OutList, Pred, PredList, Select,
};
use hq_model::{Arity, Test};

// Whether an expression opens at most so many.
#[cycle(expr_within)]
fn expr_within(value: &Expr, room: u32) -> bool
    ensures { result ≡ nat_le (expr_depth (expr_view value.now)) room }
{
    match value {
        Expr::Object(pairs) => room > 0 && pairs_within(pairs, room - 1),
        Expr::Agg(agg) => room > 0 && agg_within(agg, room - 1),
        Expr::Column { .. } | Expr::Int(_) | Expr::Text(_) | Expr::Uuid(_) | Expr::Bool(_) => true,
    }
}

#[cycle(expr_within)]
fn pairs_within(pairs: &ExprPairList, room: u32) -> bool
    ensures { result ≡ nat_le (pairs_depth (pairs_of (map pair_view pairs.now.items))) room }
{
    for pair in pairs {
        if !expr_within(&pair.value, room) {
            return false;
        }
    }
    true
}

// Whether an aggregate opens at most so many inside its own parenthesis.
#[cycle(expr_within)]
fn agg_within(agg: &Agg, room: u32) -> bool
    ensures { result ≡ nat_le (agg_depth (agg_view agg.now)) room }
{
    match agg {
        Agg::CountAll => true,
        Agg::Count { value, .. } => expr_within(value, room),
        Agg::Take { value, .. } => expr_within(value, room),
        Agg::JsonAgg { value, order } => {
            room > 0 && expr_within(value, room - 1) && orders_within(order, room - 1)
        }
    }
}

// The sort keys of an aggregate.
#[cycle(expr_within)]
fn orders_within(orders: &OrderList, room: u32) -> bool
    ensures { result ≡ nat_le (orders_depth (orders_of (map order_view orders.now.items))) room }
{
    for order in orders {
        if !expr_within(&order.value, room) {
            return false;
        }
    }
    true
}

fn exprs_within(exprs: &ExprList, room: u32) -> bool
    ensures { result ≡ nat_le (greatest (map expr_depth (map expr_view exprs.now.items))) room }
{
    for expr in exprs {
        if !expr_within(expr, room) {
            return false;
        }
    }
    true
}

fn keys_within(keys: &OrderList, room: u32) -> bool
    ensures { result ≡ nat_le (greatest (map (λ k. expr_depth k.value) (map order_view keys.now.items))) room }
{
    for key in keys {
        if !expr_within(&key.value, room) {
            return false;
        }
    }
    true
}

fn outs_within(outs: &OutList, room: u32) -> bool
    ensures { result ≡ nat_le (greatest (map (λ o. expr_depth o.value) (map out_view outs.now.items))) room }
{
    for out in outs {
        if !expr_within(&out.value, room) {
            return false;
        }
    }
    true
}

// DISTINCT ON opens one where it stands.
fn distinct_within(exprs: &ExprList, room: u32) -> bool
    ensures { result ≡ nat_le (distinct_depth (map expr_view exprs.now.items)) room }
{
    exprs.is_empty() || (room > 0 && exprs_within(exprs, room - 1))
}

/// Whether a select opens at most so many parentheses at once.
#[cycle(select_within)]
pub(crate) fn select_within(select: &Select, room: u32) -> bool
    ensures { result ≡ nat_le (select_depth (select_view select.now)) room }
{
    match select {
        Select::Rows {
            distinct,
            outs,
            from,
            joins,
            filter,
            order,
            ..
        } => {
            distinct_within(distinct, room)
                && outs_within(outs, room)
                && from_within(from, room)
                && joins_within(joins, room)
                && filter_within(filter, room)
                && keys_within(order, room)
        }
        Select::Fold { out, rows, .. } => {
            expr_within(&out.value, room) && room > 0 && select_within(rows, room - 1)
        }
    }
}

#[cycle(select_within)]
fn from_within(from: &From, room: u32) -> bool
    ensures { result ≡ nat_le (from_depth (from_view from.now)) room }
{
    match from {
        From::Table { .. } => true,
        From::Sub { select, .. } => room > 0 && select_within(select, room - 1),
        From::One { .. } => room > 0,
    }
}

#[cycle(select_within)]
fn joins_within(joins: &JoinList, room: u32) -> bool
    ensures { result ≡ nat_le (joins_depth (joins_of (map join_view joins.now.items))) room }
{
    for join in joins {
        if room == 0 || !select_within(&join.select, room - 1) {
            return false;
        }
    }
    true
}

#[cycle(select_within)]
fn filter_within(filter: &Option<Pred>, room: u32) -> bool
    ensures { result ≡ nat_le (filter_depth (filter_view filter.now)) room }
{
    match filter {
        None => true,
        Some(pred) => pred_within(pred, room),
    }
}

// How many parentheses of its own a test opens around its operands: one around a list.
fn list_parens(test: Test) -> u32
    ensures { result ≡ list_parens test }
{
    match test.arity() {
        Arity::Many => 1,
        Arity::Nothing | Arity::One => 0,
    }
}

// Whether a test opens at most so many inside the condition's parenthesis.
fn test_within(value: &Expr, test: Test, operands: &ExprList, room: u32) -> bool
    ensures { result ≡ nat_le (max (expr_depth (expr_view value.now)) (list_parens test + greatest (map expr_depth (map expr_view operands.now.items)))) room }
{
    let parens = list_parens(test);
    expr_within(value, room) && room >= parens && exprs_within(operands, room - parens)
}

#[cycle(select_within)]
fn pred_within(pred: &Pred, room: u32) -> bool
    ensures { result ≡ nat_le (pred_depth (pred_view pred.now)) room }
{
    match pred {
        Pred::True | Pred::False => true,
        Pred::Test {
            value,
            test,
            operands,
        } => room > 0 && test_within(value, *test, operands, room - 1),
        Pred::Not(inner) => room > 0 && pred_within(inner, room - 1),
        Pred::And(preds) | Pred::Or(preds) => room > 0 && preds_within(preds, room - 1),
        Pred::Exists(select) => room > 0 && select_within(select, room - 1),
    }
}

#[cycle(select_within)]
fn preds_within(preds: &PredList, room: u32) -> bool
    ensures { result ≡ nat_le (preds_depth (preds_of (map pred_view preds.now.items))) room }
{
    for pred in preds {
        if !pred_within(pred, room) {
            return false;
        }
    }
    true
}
