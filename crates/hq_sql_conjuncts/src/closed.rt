//! Which conditions mention no alias but these.
ghost use Rattle.std.specs.Prelude.{◌≡◌, map};
ghost use Rattle.hq_sql_tree.specs.Form.{is_no_join};
ghost use Rattle.hq_sql_tree.specs.Tree.{joins_of, preds_of};
ghost use Rattle.hq_sql_tree.specs.View.{expr_view, from_view, filter_view, join_view, pred_view, select_view};
ghost use Rattle.hq_sql_conjuncts.specs.Closed.{is_named, is_bound, are_bound, is_closed, are_closed, is_closed_select, is_closed_filter, is_simple, alias_of};
ghost use Rattle.hq_sql_conjuncts.specs.Named.{names_view};

use hq_base::Txt;
use hq_sql_tree::{Expr, ExprList, From, JoinList, Pred, PredList, Select};

/// The aliases that may be mentioned, the innermost first.
#[derive(Clone, Copy)]
pub enum Names<'s> {
    Nothing,
    Named {
        alias: &'s Txt,
        outer: &'s Names<'s>,
    },
}

// Whether an alias is among them.
fn is_named(names: &Names<'_>, alias: &Txt) -> bool
    ensures { result ≡ is_named (names_view names.now) alias.now }
{
    match names {
        Names::Nothing => false,
        Names::Named {
            alias: named,
            outer,
        } => **named == *alias || is_named(outer, alias),
    }
}

// Whether an expression mentions none but these.
fn is_bound(expr: &Expr, names: &Names<'_>) -> bool
    ensures { result ≡ is_bound (names_view names.now) (expr_view expr.now) }
{
    match expr {
        Expr::Column { alias, .. } => is_named(names, alias),
        Expr::Int(_) | Expr::Text(_) | Expr::Uuid(_) | Expr::Bool(_) => true,
        Expr::Object(_) | Expr::Agg(_) => false,
    }
}

fn are_bound(exprs: &ExprList, names: &Names<'_>) -> bool
    ensures { result ≡ are_bound (names_view names.now) (map expr_view exprs.now.items) }
{
    for expr in exprs {
        if !is_bound(expr, names) {
            return false;
        }
    }
    true
}

fn has_no_join(joins: &JoinList) -> bool
    ensures { result ≡ is_no_join (joins_of (map join_view joins.now.items)) }
{
    joins.as_slice().is_empty()
}

// The alias of a FROM.
fn alias_of(from: &From) -> &Txt
    ensures { result.now ≡ alias_of (from_view from.now) }
{
    match from {
        From::Table { alias, .. } | From::Sub { alias, .. } | From::One { alias } => alias,
    }
}

// Whether it is a table or One.
fn is_simple(from: &From) -> bool
    ensures { result ≡ is_simple (from_view from.now) }
{
    match from {
        From::Table { .. } | From::One { .. } => true,
        From::Sub { .. } => false,
    }
}

/// Whether a condition mentions none but these and those that its own EXISTS bring. It looks into an EXISTS over a table or One
/// without joins, LIMIT and OFFSET; any other one counts as one that mentions more.
#[cycle(closed)]
pub fn is_closed(pred: &Pred, names: &Names<'_>) -> bool
    ensures { result ≡ is_closed (names_view names.now) (pred_view pred.now) }
{
    match pred {
        Pred::True | Pred::False => true,
        Pred::Test {
            value,
            operands,
            ..
        } => is_bound(value, names) && are_bound(operands, names),
        Pred::Not(inner) => is_closed(inner, names),
        Pred::And(preds) | Pred::Or(preds) => are_closed(preds, names),
        Pred::Exists(select) => is_closed_select(select, names),
    }
}

#[cycle(closed)]
fn are_closed(preds: &PredList, names: &Names<'_>) -> bool
    ensures { result ≡ are_closed (names_view names.now) (preds_of (map pred_view preds.now.items)) }
{
    for pred in preds {
        if !is_closed(pred, names) {
            return false;
        }
    }
    true
}

#[cycle(closed)]
fn is_closed_select(select: &Select, names: &Names<'_>) -> bool
    ensures { result ≡ is_closed_select (names_view names.now) (select_view select.now) }
{
    match select {
        Select::Fold { .. } => false,
        Select::Rows {
            from,
            joins,
            filter,
            limit,
            offset,
            ..
        } => {
            let named = Names::Named {
                alias: alias_of(from),
                outer: &*names,
            };
            (has_no_join(joins) && (limit.is_none() && offset.is_none()))
                && (is_simple(from) && is_closed_filter(filter, &named))
        }
    }
}

#[cycle(closed)]
fn is_closed_filter(filter: &Option<Pred>, names: &Names<'_>) -> bool
    ensures { result ≡ is_closed_filter (names_view names.now) (filter_view filter.now) }
{
    match filter {
        None => true,
        Some(pred) => is_closed(pred, names),
    }
}
