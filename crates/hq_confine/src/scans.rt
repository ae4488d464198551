//! Scans: the rules of a filter, of the order of rows, and which conjuncts are exempt.
ghost use Rattle.std.specs.Prelude.{◌≡◌, IfOk, map};
ghost use Rattle.hq_sql_tree.specs.View.{expr_view, from_view, order_view, pred_view};
ghost use Rattle.hq_confine_rules.specs.Conjuncts.{opened};
ghost use Rattle.hq_confine_rules.specs.Faults.{is_exempt, is_unordered, scan_faults, worst};
ghost use Rattle.hq_confine_rules.specs.Members.{filter_conjuncts, is_one_of, stand_among};
ghost use Rattle.hq_confine.specs.Parts.{scanned_faults};
ghost use Rattle.hq_confine_members.specs.Views.{preds_view};
ghost use Rattle.hq_confine_uses.specs.Views.{faulted, shapes_view, rules_schema, rules_grants};

use crate::written::filter_condition;
use hq_base::{Memory, Txt};
use hq_confine_members::{is_linking, is_one_of, opened, stand_among};
use hq_confine_uses::{Fault, Rules, Shapes, has_run, missing, table_place, worse};
use hq_sql_tree::{ExprList, From, OrderList, Pred};
use std::alloc::Global;

/// Whether rows are taken by number, in no order that shows.
pub(crate) fn is_unordered(
    counts: bool,
    distinct: &ExprList,
    limit: Option<u64>,
    offset: Option<u64>,
) -> bool
    ensures { result ≡ is_unordered counts (map expr_view distinct.now.items) limit offset }
{
    !counts && distinct.is_empty() && limit.is_none() && offset.is_none()
}

// Whether the conjuncts contain those of a table's filter, at an alias.
fn has_filter(
    alloc: Global,
    rules: &Rules<'_>,
    t: usize,
    alias: &Txt,
    all: &[&Pred],
) -> Result<bool, Memory>
    ensures { IfOk result (λ well. well ≡ stand_among (preds_view all.now) (filter_conjuncts (rules_schema rules.now) (rules_grants rules.now) t) alias.now) }
{
    let filter = filter_condition(alloc, rules, t)?;
    let owns = opened(alloc, &filter)?;
    Ok(stand_among(all, &owns, alias))
}

// Whether a conjunct is one of a table's filter, at an alias.
fn is_of_filter(
    alloc: Global,
    rules: &Rules<'_>,
    t: usize,
    alias: &Txt,
    pred: &Pred,
) -> Result<bool, Memory>
    ensures { IfOk result (λ well. well ≡ is_one_of (filter_conjuncts (rules_schema rules.now) (rules_grants rules.now) t) alias.now (pred_view pred.now)) }
{
    let filter = filter_condition(alloc, rules, t)?;
    let owns = opened(alloc, &filter)?;
    Ok(is_one_of(&owns, alias, pred))
}

/// Whether a conjunct of a scan is exempt: one of its filter, or one in a whole link.
pub(crate) fn is_exempt(
    alloc: Global,
    pred: &Pred,
    rules: &Rules<'_>,
    scope: &Shapes<'_, '_>,
    from: &From,
    all: &[&Pred],
) -> Result<bool, Memory>
    ensures { IfOk result (λ exempt. exempt ≡ is_exempt (rules_schema rules.now) (rules_grants rules.now) (shapes_view scope.now) (preds_view all.now) (from_view from.now) (pred_view pred.now)) }
{
    match from {
        From::Table {
            schema,
            table,
            alias,
        } => {
            let t = table_place(rules, schema, table);
            Ok(
                is_of_filter(alloc, rules, t, alias, pred)?
                    || is_linking(rules, scope, all, t, alias, pred),
            )
        }
        From::Sub { .. } | From::One { .. } => Ok(false),
    }
}

// The fault of a scan of table `t` at an alias.
fn table_fault<'d>(
    alloc: Global,
    rules: &Rules<'_>,
    scope: &Shapes<'_, '_>,
    t: usize,
    alias: &'d Txt,
    all: &[&Pred],
    order: &OrderList,
    unordered: bool,
) -> Result<Option<Fault<'d>>, Memory>
    ensures { let s = rules_schema rules.now in let g = rules_grants rules.now in let x = shapes_view scope.now in
        IfOk result (λ fault. faulted fault ≡ worst (scan_faults s g x t alias.now (preds_view all.now) (map order_view order.now.items) unordered)) }
{
    let filtered = has_filter(alloc, rules, t, alias, all)?;
    let granted = missing(rules.grant(t).is_some(), 1, alias);
    let kept = missing(filtered, 2, alias);
    let sorted = missing(
        has_run(rules, scope, t, alias, order) || unordered,
        6,
        alias,
    );
    Ok(worse(worse(granted, kept), sorted))
}

/// The fault of what a FROM scans.
#[inline(never)]
pub(crate) fn scan_fault<'d>(
    alloc: Global,
    from: &'d From,
    rules: &Rules<'_>,
    scope: &Shapes<'_, '_>,
    all: &[&Pred],
    order: &OrderList,
    unordered: bool,
) -> Result<Option<Fault<'d>>, Memory>
    ensures { let s = rules_schema rules.now in let g = rules_grants rules.now in let x = shapes_view scope.now in
        IfOk result (λ fault. faulted fault ≡ worst (scanned_faults s g x (preds_view all.now) (map order_view order.now.items) unordered (from_view from.now))) }
{
    match from {
        From::Table {
            schema,
            table,
            alias,
        } => {
            let t = table_place(rules, schema, table);
            table_fault(alloc, rules, scope, t, alias, all, order, unordered)
        }
        From::Sub { .. } | From::One { .. } => Ok(None),
    }
}
