//! The faults of values, outputs and sort keys.
ghost use Rattle.std.specs.Prelude.{◌≡◌, map};
ghost use Rattle.hq_sql_tree.specs.Tree.{orders_of, pairs_of};
ghost use Rattle.hq_sql_tree.specs.View.{agg_view, expr_view, order_view, out_view, pair_view};
ghost use Rattle.hq_confine_rules.specs.Faults.{worst};
ghost use Rattle.hq_confine_rules.specs.Uses.{expr_faults, pairs_faults, agg_faults, orders_faults, exprs_faults, out_faults, outs_faults, shows_order, show_order, agg_shows_order};
ghost use Rattle.hq_confine_uses.specs.Views.{faulted, shapes_view, rules_schema, rules_grants};

use crate::columns::{column_fault, passed_fault};
use crate::faults::{Fault, worse};
use crate::known::Rules;
use crate::origins::origin;
use crate::runs::run_from;
use crate::scope::Shapes;
use hq_sql_tree::{Agg, Expr, ExprList, ExprPairList, OrderList, OutList};

/// The fault of a value.
#[cycle(uses)]
pub fn expr_fault<'d>(
    expr: &'d Expr,
    rules: &Rules<'_>,
    scope: &Shapes<'_, 'd>,
) -> Option<Fault<'d>>
    ensures { faulted result ≡ worst (expr_faults (rules_schema rules.now) (rules_grants rules.now) (shapes_view scope.now) (expr_view expr.now)) }
{
    match expr {
        Expr::Column { alias, name, .. } => column_fault(rules, scope, alias, name),
        Expr::Int(_) | Expr::Text(_) | Expr::Uuid(_) | Expr::Bool(_) => None,
        Expr::Object(pairs) => pairs_fault(pairs, rules, scope),
        Expr::Agg(agg) => agg_fault(agg, rules, scope),
    }
}

#[cycle(uses)]
fn pairs_fault<'d>(
    pairs: &'d ExprPairList,
    rules: &Rules<'_>,
    scope: &Shapes<'_, 'd>,
) -> Option<Fault<'d>>
    ensures { faulted result ≡ worst (pairs_faults (rules_schema rules.now) (rules_grants rules.now) (shapes_view scope.now) (pairs_of (map pair_view pairs.now.items))) }
{
    let mut found = None;
    for pair in pairs {
        found = worse(found, expr_fault(&pair.value, rules, scope));
    }
    found
}

#[cycle(uses)]
fn agg_fault<'d>(agg: &'d Agg, rules: &Rules<'_>, scope: &Shapes<'_, 'd>) -> Option<Fault<'d>>
    ensures { faulted result ≡ worst (agg_faults (rules_schema rules.now) (rules_grants rules.now) (shapes_view scope.now) (agg_view agg.now)) }
{
    match agg {
        Agg::CountAll => None,
        Agg::Count { value, .. } => expr_fault(value, rules, scope),
        Agg::Take { value, .. } => expr_fault(value, rules, scope),
        Agg::JsonAgg { value, order } => worse(
            expr_fault(value, rules, scope),
            orders_fault(order, rules, scope),
        ),
    }
}

/// The fault of sort keys: those of a run of key columns have none.
#[cycle(uses)]
pub fn orders_fault<'d>(
    orders: &'d OrderList,
    rules: &Rules<'_>,
    scope: &Shapes<'_, 'd>,
) -> Option<Fault<'d>>
    ensures { faulted result ≡ worst (orders_faults (rules_schema rules.now) (rules_grants rules.now) (shapes_view scope.now) 0 (orders_of (map order_view orders.now.items))) }
{
    let mut found = None;
    let mut left = 0;
    for (at, order) in orders.iter().enumerate() {
        if left > 0 {
            left -= 1;
            continue;
        }
        let run = run_from(
            rules,
            scope,
            &origin(rules, scope, &order.value),
            &orders[at..],
        );
        if run > 0 {
            left = run - 1;
            continue;
        }
        found = worse(found, expr_fault(&order.value, rules, scope));
    }
    found
}

/// The fault of expressions.
pub fn exprs_fault<'d>(
    exprs: &'d ExprList,
    rules: &Rules<'_>,
    scope: &Shapes<'_, 'd>,
) -> Option<Fault<'d>>
    ensures { faulted result ≡ worst (exprs_faults (rules_schema rules.now) (rules_grants rules.now) (shapes_view scope.now) (map expr_view exprs.now.items)) }
{
    let mut found = None;
    for expr in exprs {
        found = worse(found, expr_fault(expr, rules, scope));
    }
    found
}

// The fault of an output; a key column may be one of its own.
fn out_fault<'d>(expr: &'d Expr, rules: &Rules<'_>, scope: &Shapes<'_, 'd>) -> Option<Fault<'d>>
    ensures { faulted result ≡ worst (out_faults (rules_schema rules.now) (rules_grants rules.now) (shapes_view scope.now) (expr_view expr.now)) }
{
    match expr {
        Expr::Column { alias, name, .. } => passed_fault(rules, scope, alias, name),
        Expr::Int(_)
        | Expr::Text(_)
        | Expr::Uuid(_)
        | Expr::Bool(_)
        | Expr::Object(_)
        | Expr::Agg(_) => { expr_fault(expr, rules, scope) }
    }
}

/// The fault of outputs.
pub fn outs_fault<'d>(
    outs: &'d OutList,
    rules: &Rules<'_>,
    scope: &Shapes<'_, 'd>,
) -> Option<Fault<'d>>
    ensures { faulted result ≡ worst (outs_faults (rules_schema rules.now) (rules_grants rules.now) (shapes_view scope.now) (map out_view outs.now.items)) }
{
    let mut found = None;
    for out in outs {
        found = worse(found, out_fault(&out.value, rules, scope));
    }
    found
}

/// Whether an aggregate in the expression shows the order of the rows: json_agg.
#[cycle(shows)]
pub fn shows_order(expr: &Expr) -> bool
    ensures { result ≡ shows_order (expr_view expr.now) }
{
    match expr {
        Expr::Object(pairs) => show_order(pairs),
        Expr::Agg(agg) => agg_shows_order(agg),
        Expr::Column { .. } | Expr::Int(_) | Expr::Text(_) | Expr::Uuid(_) | Expr::Bool(_) => false,
    }
}

fn agg_shows_order(agg: &Agg) -> bool
    ensures { result ≡ agg_shows_order (agg_view agg.now) }
{
    match agg {
        Agg::JsonAgg { .. } => true,
        Agg::CountAll | Agg::Count { .. } | Agg::Take { .. } => false,
    }
}

#[cycle(shows)]
fn show_order(pairs: &ExprPairList) -> bool
    ensures { result ≡ show_order (pairs_of (map pair_view pairs.now.items)) }
{
    for pair in pairs {
        if shows_order(&pair.value) {
            return true;
        }
    }
    false
}
