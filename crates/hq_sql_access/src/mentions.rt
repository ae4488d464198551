//! How often an alias is named. It is asked for no more than to choose when a join is evaluated: the choice changes no
//! answer.
use hq_base::Txt;
use hq_sql_tree::{
    Agg, Expr, ExprList, ExprPairList, From, JoinList, OrderList, OutList, Pred, PredList, Select,
};

/// How often an expression names an alias, staying at the greatest number.
#[cycle(in_expr)]
pub fn in_expr(expr: &Expr, alias: &Txt) -> usize {
    match expr {
        Expr::Column { alias: named, .. } => { if *named == *alias { 1 } else { 0 } }
        Expr::Int(_) | Expr::Text(_) | Expr::Uuid(_) | Expr::Bool(_) => 0,
        Expr::Object(pairs) => in_pairs(pairs, alias),
        Expr::Agg(agg) => in_agg(agg, alias),
    }
}

#[cycle(in_expr)]
fn in_pairs(pairs: &ExprPairList, alias: &Txt) -> usize {
    let mut number = 0usize;
    for pair in pairs {
        number = number.saturating_add(in_expr(&pair.value, alias));
    }
    number
}

#[cycle(in_expr)]
fn in_agg(agg: &Agg, alias: &Txt) -> usize {
    match agg {
        Agg::CountAll => 0,
        Agg::Count { value, .. } => in_expr(value, alias),
        Agg::Take { value, .. } => in_expr(value, alias),
        Agg::JsonAgg { value, order } => {
            in_expr(value, alias).saturating_add(in_aggregate_order(order, alias))
        }
    }
}

#[cycle(in_expr)]
fn in_aggregate_order(orders: &OrderList, alias: &Txt) -> usize {
    let mut number = 0usize;
    for order in orders {
        number = number.saturating_add(in_expr(&order.value, alias));
    }
    number
}

/// How often sort keys name an alias.
pub fn in_orders(orders: &OrderList, alias: &Txt) -> usize {
    let mut number = 0usize;
    for order in orders {
        number = number.saturating_add(in_expr(&order.value, alias));
    }
    number
}

/// How often the expressions of a list name an alias.
pub fn in_exprs(exprs: &ExprList, alias: &Txt) -> usize {
    let mut number = 0usize;
    for expr in exprs {
        number = number.saturating_add(in_expr(expr, alias));
    }
    number
}

/// How often outputs name an alias.
pub fn in_outs(outs: &OutList, alias: &Txt) -> usize {
    let mut number = 0usize;
    for out in outs {
        number = number.saturating_add(in_expr(&out.value, alias));
    }
    number
}

/// Twice the number of times that a select names an alias: it may evaluate each mention more than once.
#[cycle(in_select)]
pub fn in_select(select: &Select, alias: &Txt) -> usize {
    let number = match select {
        Select::Rows {
            distinct,
            outs,
            from,
            joins,
            filter,
            order,
            ..
        } => in_exprs(distinct, alias)
            .saturating_add(in_outs(outs, alias))
            .saturating_add(in_from(from, alias))
            .saturating_add(in_joins(joins, alias))
            .saturating_add(in_filter(filter, alias))
            .saturating_add(in_orders(order, alias)),
        Select::Fold { out, rows, .. } => {
            in_expr(&out.value, alias).saturating_add(in_select(rows, alias))
        }
    };
    number.saturating_mul(2)
}

#[cycle(in_select)]
fn in_from(from: &From, alias: &Txt) -> usize {
    match from {
        From::Sub { select, .. } => in_select(select, alias),
        From::Table { .. } | From::One { .. } => 0,
    }
}

#[cycle(in_select)]
fn in_joins(joins: &JoinList, alias: &Txt) -> usize {
    let mut number = 0usize;
    for join in joins {
        number = number.saturating_add(in_select(&join.select, alias));
    }
    number
}

/// How often a WHERE names an alias, a mention inside EXISTS counting twice at least.
#[cycle(in_select)]
pub fn in_filter(filter: &Option<Pred>, alias: &Txt) -> usize {
    match filter {
        None => 0,
        Some(pred) => in_pred(pred, alias),
    }
}

#[cycle(in_select)]
fn in_pred(pred: &Pred, alias: &Txt) -> usize {
    match pred {
        Pred::True | Pred::False => 0,
        Pred::Test {
            value,
            operands,
            ..
        } => in_expr(value, alias).saturating_add(in_exprs(operands, alias)),
        Pred::Not(inner) => in_pred(inner, alias),
        Pred::And(preds) | Pred::Or(preds) => in_preds(preds, alias),
        Pred::Exists(select) => in_select(select, alias),
    }
}

#[cycle(in_select)]
fn in_preds(preds: &PredList, alias: &Txt) -> usize {
    let mut number = 0usize;
    for pred in preds {
        number = number.saturating_add(in_pred(pred, alias));
    }
    number
}
