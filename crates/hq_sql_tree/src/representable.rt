//! Laws: the texts of any tree are UTF-8 without a zero byte, and its numbers have 64 bits. Each is seen by a walk.
ghost use Rattle.std.specs.Prelude.{◌≡◌, map, true};
ghost use Rattle.std.specs.List.{list_all};
ghost use Rattle.hq_sql_tree.specs.Tree.{pairs_of, orders_of, joins_of, preds_of};
ghost use Rattle.hq_sql_tree.specs.View.{agg_view, expr_view, pair_view, order_view, out_view, select_view, from_view, join_view, pred_view, filter_view};
ghost use Rattle.hq_sql_tree.specs.Form.{is_text, is_bigint, is_count, agg_fits, expr_fits, pairs_fit, orders_fit, order_fits, out_fits, select_fits, from_fits, joins_fit, pred_fits, preds_fit, filter_fits};

use crate::{
    Agg, Expr, ExprList, ExprPairList, From, JoinList, OrderList, Out, OutList, Pred, PredList,
    Select,
};
use hq_base::Txt;

#[tactic(auto, unfolding(crate::specs::Form::is_text))]
fn text_fits(text: &Txt)
    ensures { is_text text.now ≡ true }
{
    text.is_text();
}

fn int_fits(n: i64)
    ensures { is_bigint n ≡ true }
{
    let _ = n;
}

impl Expr {
    /// The texts and numbers of an expression are such as SQL spells.
    #[cycle(fits_expr)]
    pub fn fits(&self)
        ensures { expr_fits (expr_view self.now) ≡ true }
    {
        match self {
            Expr::Column { alias, name, .. } => {
                text_fits(alias);
                text_fits(name);
            }
            Expr::Int(n) => int_fits(*n),
            Expr::Bool(_) => {}
            Expr::Text(text) | Expr::Uuid(text) => text_fits(text),
            Expr::Object(pairs) => pairs_fit(pairs),
            Expr::Agg(agg) => agg.fits(),
        }
    }
}

impl Agg {
    #[cycle(fits_expr)]
    fn fits(&self)
        ensures { agg_fits (agg_view self.now) ≡ true }
    {
        match self {
            Agg::CountAll => {}
            Agg::Count { value, .. } => value.fits(),
            Agg::Take { value, .. } => value.fits(),
            Agg::JsonAgg { value, order } => {
                value.fits();
                aggregate_orders_fit(order);
            }
        }
    }
}

#[cycle(fits_expr)]
fn pairs_fit(pairs: &ExprPairList)
    ensures { pairs_fit (pairs_of (map pair_view pairs.now.items)) ≡ true }
{
    for pair in pairs {
        text_fits(&pair.name);
        pair.value.fits();
    }
}

// The sort keys of an aggregate.
#[cycle(fits_expr)]
fn aggregate_orders_fit(orders: &OrderList)
    ensures { orders_fit (orders_of (map order_view orders.now.items)) ≡ true }
{
    for order in orders {
        order.value.fits();
    }
}

fn exprs_fit(exprs: &ExprList)
    ensures { list_all expr_fits (map expr_view exprs.now.items) ≡ true }
{
    for expr in exprs {
        expr.fits();
    }
}

fn orders_fit(orders: &OrderList)
    ensures { list_all order_fits (map order_view orders.now.items) ≡ true }
{
    for order in orders {
        order.value.fits();
    }
}

fn out_fits(out: &Out)
    ensures { out_fits (out_view out.now) ≡ true }
{
    out.value.fits();
    text_fits(&out.name);
}

fn outs_fit(outs: &OutList)
    ensures { list_all out_fits (map out_view outs.now.items) ≡ true }
{
    for out in outs {
        out_fits(out);
    }
}

fn count_fits(count: Option<u64>)
    ensures { is_count count ≡ true }
{
    match count {
        None => {}
        Some(n) => {
            let _ = n;
        }
    }
}

impl Select {
    /// The texts and numbers of a select are such as SQL spells.
    #[cycle(fits_select)]
    pub fn fits(&self)
        ensures { select_fits (select_view self.now) ≡ true }
    {
        match self {
            Select::Rows {
                distinct,
                outs,
                from,
                joins,
                filter,
                order,
                limit,
                offset,
            } => {
                exprs_fit(distinct);
                outs_fit(outs);
                from.fits();
                joins_fit(joins);
                filter_fits(filter);
                orders_fit(order);
                count_fits(*limit);
                count_fits(*offset);
            }
            Select::Fold { out, rows, alias } => {
                out_fits(out);
                rows.fits();
                text_fits(alias);
            }
        }
    }
}

impl From {
    #[cycle(fits_select)]
    fn fits(&self)
        ensures { from_fits (from_view self.now) ≡ true }
    {
        match self {
            From::Table {
                schema,
                table,
                alias,
            } => {
                text_fits(schema);
                text_fits(table);
                text_fits(alias);
            }
            From::Sub { select, alias } => {
                select.fits();
                text_fits(alias);
            }
            From::One { alias } => text_fits(alias),
        }
    }
}

#[cycle(fits_select)]
fn joins_fit(joins: &JoinList)
    ensures { joins_fit (joins_of (map join_view joins.now.items)) ≡ true }
{
    for join in joins {
        join.select.fits();
        text_fits(&join.alias);
    }
}

#[cycle(fits_select)]
fn filter_fits(filter: &Option<Pred>)
    ensures { filter_fits (filter_view filter.now) ≡ true }
{
    match filter {
        None => {}
        Some(pred) => pred.fits(),
    }
}

impl Pred {
    #[cycle(fits_select)]
    fn fits(&self)
        ensures { pred_fits (pred_view self.now) ≡ true }
    {
        match self {
            Pred::True | Pred::False => {}
            Pred::Test {
                value,
                operands,
                ..
            } => {
                value.fits();
                exprs_fit(operands);
            }
            Pred::Not(inner) => inner.fits(),
            Pred::And(preds) | Pred::Or(preds) => preds_fit(preds),
            Pred::Exists(select) => select.fits(),
        }
    }
}

#[cycle(fits_select)]
fn preds_fit(preds: &PredList)
    ensures { preds_fit (preds_of (map pred_view preds.now.items)) ≡ true }
{
    for pred in preds {
        pred.fits();
    }
}
