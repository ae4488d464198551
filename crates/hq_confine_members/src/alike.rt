//! Conditions that are equal up to the aliases inside EXISTS.
ghost use Rattle.std.specs.Prelude.{◌≡◌, ◌==◌, ◌&&◌, length, map};
ghost use Rattle.hq_sql_tree.specs.Form.{is_no_join};
ghost use Rattle.hq_sql_tree.specs.Tree.{joins_of, preds_of};
ghost use Rattle.hq_sql_tree.specs.View.{expr_view, filter_view, from_view, join_view, order_view, out_view, pred_view, select_view};
ghost use Rattle.hq_confine_rules.specs.Renamed.{stands_for, is_bare, alias_of, is_from_table, same_table};
ghost use Rattle.hq_confine_rules.specs.Renamed.{is_alike_expr, are_alike_exprs, is_alike_out, are_alike_outs, is_alike, are_alike, is_alike_select, is_alike_filter};
ghost use Rattle.hq_confine_members.specs.Views.{renaming_view};

use hq_base::Txt;
use hq_sql_tree::{
    Expr, ExprList, ExprPairList, From, JoinList, OrderList, Out, OutList, Pred, PredList, Select,
};

/// Aliases of the one condition with those that stand for them in the other, the innermost first.
#[derive(Clone, Copy)]
pub(crate) enum Renaming<'s> {
    Nothing,
    Beside {
        one: &'s str,
        other: &'s str,
        outer: &'s Renaming<'s>,
    },
}

// Whether an alias stands for another: so says the first pair that has either.
fn stands_for(renaming: &Renaming<'_>, one: &str, other: &str) -> bool
    ensures { result ≡ stands_for (renaming_view renaming.now) one.now other.now }
{
    match renaming {
        Renaming::Nothing => false,
        Renaming::Beside {
            one: named,
            other: beside,
            outer,
        } => {
            if *named == one {
                *beside == other
            } else {
                *beside != other && stands_for(outer, one, other)
            }
        }
    }
}

// Whether two objects are empty.
fn are_empty(one: &ExprPairList, other: &ExprPairList) -> bool
    ensures { result ≡ ((length one.now.items == 0) && (length other.now.items == 0)) }
{
    one.as_slice().is_empty() && other.as_slice().is_empty()
}

// Equal expressions; no aggregate equals another, and no object but the empty one.
fn is_alike_expr(one: &Expr, other: &Expr, renaming: &Renaming<'_>) -> bool
    ensures { result ≡ is_alike_expr (renaming_view renaming.now) (expr_view one.now) (expr_view other.now) }
{
    match one {
        Expr::Column { alias, name, form } => match other {
            Expr::Column {
                alias: other_alias,
                name: other_name,
                form: other_form,
            } => {
                stands_for(renaming, alias.as_str(), other_alias.as_str())
                    && *name == *other_name
                    && form.is_same(*other_form)
            }
            _ => false,
        },
        Expr::Int(one) => match other {
            Expr::Int(other) => *one == *other,
            _ => false,
        },
        Expr::Text(one) => match other {
            Expr::Text(other) => *one == *other,
            _ => false,
        },
        Expr::Uuid(one) => match other {
            Expr::Uuid(other) => *one == *other,
            _ => false,
        },
        Expr::Bool(one) => match other {
            Expr::Bool(other) => *one == *other,
            _ => false,
        },
        Expr::Object(one) => match other {
            Expr::Object(other) => are_empty(one, other),
            _ => false,
        },
        Expr::Agg(_) => false,
    }
}

fn are_alike_exprs(one: &ExprList, other: &ExprList, renaming: &Renaming<'_>) -> bool
    ensures { result ≡ are_alike_exprs (renaming_view renaming.now) (map expr_view one.now.items) (map expr_view other.now.items) }
{
    if one.len() != other.len() {
        return false;
    }
    for (at, expr) in one.iter().enumerate() {
        if !is_alike_expr(expr, &other[at], renaming) {
            return false;
        }
    }
    true
}

fn is_alike_out(one: &Out, other: &Out, renaming: &Renaming<'_>) -> bool
    ensures { result ≡ is_alike_out (renaming_view renaming.now) (out_view one.now) (out_view other.now) }
{
    is_alike_expr(&one.value, &other.value, renaming) && one.name == other.name
}

fn are_alike_outs(one: &OutList, other: &OutList, renaming: &Renaming<'_>) -> bool
    ensures { result ≡ are_alike_outs (renaming_view renaming.now) (map out_view one.now.items) (map out_view other.now.items) }
{
    if one.len() != other.len() {
        return false;
    }
    for (at, out) in one.iter().enumerate() {
        if !is_alike_out(out, &other[at], renaming) {
            return false;
        }
    }
    true
}

fn has_no_expr(exprs: &ExprList) -> bool
    ensures { result ≡ (length (map expr_view exprs.now.items) == 0) }
{
    exprs.as_slice().is_empty()
}

fn has_no_join(joins: &JoinList) -> bool
    ensures { result ≡ is_no_join (joins_of (map join_view joins.now.items)) }
{
    joins.as_slice().is_empty()
}

fn has_no_order(order: &OrderList) -> bool
    ensures { result ≡ (length (map order_view order.now.items) == 0) }
{
    order.as_slice().is_empty()
}

// Whether rows have no DISTINCT ON, joins and ORDER BY.
fn is_plain(distinct: &ExprList, joins: &JoinList, order: &OrderList) -> bool
    ensures { result ≡ ((length (map expr_view distinct.now.items) == 0) && is_no_join (joins_of (map join_view joins.now.items)) && (length (map order_view order.now.items) == 0)) }
{
    has_no_expr(distinct) && has_no_join(joins) && has_no_order(order)
}

/// Whether rows have no DISTINCT ON, joins, ORDER BY, LIMIT and OFFSET.
pub fn is_bare(
    distinct: &ExprList,
    joins: &JoinList,
    order: &OrderList,
    limit: Option<u64>,
    offset: Option<u64>,
) -> bool
    ensures { result ≡ is_bare (map expr_view distinct.now.items) (joins_of (map join_view joins.now.items)) (map order_view order.now.items) limit offset }
{
    is_plain(distinct, joins, order) && limit.is_none() && offset.is_none()
}

/// The alias of a FROM.
pub fn alias_of(from: &From) -> &Txt
    ensures { result.now ≡ alias_of (from_view from.now) }
{
    match from {
        From::Table { alias, .. } | From::Sub { alias, .. } | From::One { alias } => alias,
    }
}

fn is_from_table(schema: &Txt, name: &Txt, from: &From) -> bool
    ensures { result ≡ is_from_table schema.now name.now (from_view from.now) }
{
    match from {
        From::Table {
            schema: other_schema,
            table: other_name,
            ..
        } => *schema == *other_schema && *name == *other_name,
        From::Sub { .. } | From::One { .. } => false,
    }
}

// Whether two FROM are one table.
fn same_table(one: &From, other: &From) -> bool
    ensures { result ≡ same_table (from_view one.now) (from_view other.now) }
{
    match one {
        From::Table { schema, table, .. } => is_from_table(schema, table, other),
        From::Sub { .. } | From::One { .. } => false,
    }
}

/// Whether two conditions are equal. An EXISTS equals another where both are over one table, without joins, DISTINCT ON, ORDER BY,
/// LIMIT and OFFSET.
#[cycle(alike)]
pub(crate) fn is_alike(one: &Pred, other: &Pred, renaming: &Renaming<'_>) -> bool
    ensures { result ≡ is_alike (renaming_view renaming.now) (pred_view one.now) (pred_view other.now) }
{
    match one {
        Pred::True => matches!(other, Pred::True),
        Pred::False => matches!(other, Pred::False),
        Pred::Test {
            value,
            test,
            operands,
        } => match other {
            Pred::Test {
                value: other_value,
                test: other_test,
                operands: other_operands,
            } => {
                is_alike_expr(value, other_value, renaming)
                    && test.is_same(*other_test)
                    && are_alike_exprs(operands, other_operands, renaming)
            }
            _ => false,
        },
        Pred::Not(one) => match other {
            Pred::Not(other) => is_alike(one, other, renaming),
            _ => false,
        },
        Pred::And(one) => match other {
            Pred::And(other) => are_alike(one, other, renaming),
            _ => false,
        },
        Pred::Or(one) => match other {
            Pred::Or(other) => are_alike(one, other, renaming),
            _ => false,
        },
        Pred::Exists(one) => match other {
            Pred::Exists(other) => is_alike_select(one, other, renaming),
            _ => false,
        },
    }
}

#[cycle(alike)]
fn are_alike(one: &PredList, other: &PredList, renaming: &Renaming<'_>) -> bool
    ensures { result ≡ are_alike (renaming_view renaming.now) (preds_of (map pred_view one.now.items)) (preds_of (map pred_view other.now.items)) }
{
    if one.len() != other.len() {
        return false;
    }
    for (at, pred) in one.iter().enumerate() {
        if !is_alike(pred, &other[at], renaming) {
            return false;
        }
    }
    true
}

#[cycle(alike)]
fn is_alike_select(one: &Select, other: &Select, renaming: &Renaming<'_>) -> bool
    ensures { result ≡ is_alike_select (renaming_view renaming.now) (select_view one.now) (select_view other.now) }
{
    match one {
        Select::Rows {
            distinct,
            outs,
            from,
            joins,
            filter,
            order,
            limit,
            offset,
        } => match other {
            Select::Rows {
                distinct: other_distinct,
                outs: other_outs,
                from: other_from,
                joins: other_joins,
                filter: other_filter,
                order: other_order,
                limit: other_limit,
                offset: other_offset,
            } => {
                let within = Renaming::Beside {
                    one: alias_of(from).as_str(),
                    other: alias_of(other_from).as_str(),
                    outer: &*renaming,
                };
                is_bare(distinct, joins, order, *limit, *offset)
                    && is_bare(
                        other_distinct,
                        other_joins,
                        other_order,
                        *other_limit,
                        *other_offset,
                    )
                    && same_table(from, other_from)
                    && are_alike_outs(outs, other_outs, &within)
                    && is_alike_filter(filter, other_filter, &within)
            }
            Select::Fold { .. } => false,
        },
        Select::Fold { .. } => false,
    }
}

#[cycle(alike)]
fn is_alike_filter(one: &Option<Pred>, other: &Option<Pred>, renaming: &Renaming<'_>) -> bool
    ensures { result ≡ is_alike_filter (renaming_view renaming.now) (filter_view one.now) (filter_view other.now) }
{
    match one {
        None => other.is_none(),
        Some(one) => match other {
            Some(other) => is_alike(one, other, renaming),
            None => false,
        },
    }
}
