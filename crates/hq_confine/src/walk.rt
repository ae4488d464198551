//! The fault of a select and the outputs that it passes on, in one walk.
ghost use Rattle.std.specs.Prelude.{◌≡◌, ◌∷◌, ◌++◌, [], IfOk, OnOk, cond, false, map, true};
ghost use Rattle.hq_sql_tree.specs.Tree.{joins_of, preds_of};
ghost use Rattle.hq_sql_tree.specs.View.{expr_view, filter_view, from_view, join_view, out_view, pred_view, select_view};
ghost use Rattle.hq_confine_rules.specs.Faults.{outputs_of, from_shapes, joined_shapes, is_exempt, worse, worst};
ghost use Rattle.hq_confine_rules.specs.Faults.{select_faults, joins_faults, where_faults, conjunct_faults, conjuncts_faults, pred_faults, preds_faults};
ghost use Rattle.hq_confine_rules.specs.Members.{is_mask_join};
ghost use Rattle.hq_confine_rules.specs.Origins.{outputs};
ghost use Rattle.hq_confine_rules.specs.Uses.{expr_faults, exprs_faults, outs_faults};
ghost use Rattle.hq_confine.specs.Parts.{inner_faults};
ghost use Rattle.hq_confine_members.specs.Views.{preds_view};
ghost use Rattle.hq_confine_uses.specs.Views.{alias_view, faulted, output_view, shapes_view, stacked, rules_schema, rules_grants};

use crate::masks::is_mask_join;
use crate::scans::{is_exempt, is_unordered, scan_fault};
use hq_base::{Memory, Txt};
use hq_confine_members::conjuncts;
use hq_confine_uses::{
    Alias, Fault, Output, Rules, Shape, Shapes, expr_fault, exprs_fault, orders_fault,
    output_origins, outs_fault, push_outputs, shows_order, table_place, worse,
};
use hq_sql_tree::{Expr, ExprList, From, Join, JoinList, Out, OutList, Pred, PredList, Select};
use std::alloc::Global;

/// What a select comes to: its fault, where there is one, and its outputs.
#[derive(Drop)]
pub(crate) struct Walked<'d> {
    pub fault: Option<Fault<'d>>,
    pub outputs: Vec<Output<'d>>,
}

// What a FROM comes to: its alias, and the fault of its select.
#[derive(Drop)]
pub(crate) struct Begun<'d> {
    pub fault: Option<Fault<'d>>,
    pub alias: Alias<'d>,
}

// The fault of DISTINCT ON and of the outputs.
fn front_fault<'d>(
    distinct: &'d ExprList,
    outs: &'d OutList,
    rules: &Rules<'_>,
    scope: &Shapes<'_, 'd>,
) -> Option<Fault<'d>>
    ensures { let s = rules_schema rules.now in let g = rules_grants rules.now in let x = shapes_view scope.now in
        faulted result ≡ worst (exprs_faults s g x (map expr_view distinct.now.items) ++ outs_faults s g x (map out_view outs.now.items)) }
{
    worse(
        exprs_fault(distinct, rules, scope),
        outs_fault(outs, rules, scope),
    )
}

// The fault of a test of a value.
fn test_fault<'d>(
    value: &'d Expr,
    operands: &'d ExprList,
    rules: &Rules<'_>,
    scope: &Shapes<'_, 'd>,
) -> Option<Fault<'d>>
    ensures { let s = rules_schema rules.now in let g = rules_grants rules.now in let x = shapes_view scope.now in
        faulted result ≡ worst (expr_faults s g x (expr_view value.now) ++ exprs_faults s g x (map expr_view operands.now.items)) }
{
    worse(
        expr_fault(value, rules, scope),
        exprs_fault(operands, rules, scope),
    )
}

// The worst fault of the parts of rows, in the order of the text.
fn worst_of<'d>(
    front: Option<Fault<'d>>,
    inner: Option<Fault<'d>>,
    scanned: Option<Fault<'d>>,
    joined: Option<Fault<'d>>,
    kept: Option<Fault<'d>>,
    sorted: Option<Fault<'d>>,
) -> Option<Fault<'d>>
    ensures { let behind = worse (faulted joined.entry) (worse (faulted kept.entry) (faulted sorted.entry)) in
        faulted result ≡ worse (faulted front.entry) (worse (worse (faulted inner.entry) (faulted scanned.entry)) behind) }
{
    let behind = worse(joined, worse(kept, sorted));
    worse(front, worse(worse(inner, scanned), behind))
}

/// The fault of a select, and its outputs. `counts`: the order of its rows counts.
#[cycle(walk)]
pub(crate) fn walk_select<'d>(
    alloc: Global,
    select: &'d Select,
    rules: &Rules<'_>,
    scope: &Shapes<'_, 'd>,
    counts: bool,
) -> Result<Walked<'d>, Memory>
    ensures fault { IfOk result (λ walked. faulted walked.fault ≡ worst (select_faults (rules_schema rules.now) (rules_grants rules.now) (shapes_view scope.now) counts (select_view select.now))) }
    ensures outputs { IfOk result (λ walked. map output_view walked.outputs.items ≡ outputs_of (rules_schema rules.now) (rules_grants rules.now) (shapes_view scope.now) (select_view select.now)) }
{
    match select {
        Select::Rows {
            distinct,
            outs,
            from,
            joins,
            filter,
            order,
            limit,
            offset,
        } => {
            let begun = walk_from(alloc, from, rules, scope)?;
            let inner = begun.fault;
            let mut aliases = Vec::new(alloc);
            aliases.push(begun.alias)?;
            let joined = walk_joins(alloc, &mut aliases, joins, rules, scope)?;
            let inside = Shapes::Level {
                aliases: &aliases,
                outer: &*scope,
            };
            let all = conjuncts(alloc, filter)?;
            let unordered = is_unordered(counts, distinct, *limit, *offset);
            let scanned = scan_fault(alloc, from, rules, &inside, &all, order, unordered)?;
            let kept = walk_filter(alloc, filter, rules, &inside, from, &all)?;
            let outputs = output_origins(alloc, rules, &inside, outs)?;
            let front = front_fault(distinct, outs, rules, &inside);
            let sorted = orders_fault(order, rules, &inside);
            Ok(Walked {
                fault: worst_of(front, inner, scanned, joined, kept, sorted),
                outputs,
            })
        }
        Select::Fold { out, rows, alias } => {
            let inner = walk_select(alloc, rows, rules, scope, shows_order(&out.value))?;
            Ok(folded(alloc, out, alias, inner, rules, scope))
        }
    }
}

// A fold over rows that come to this.
#[inline(never)]
fn folded<'d>(
    alloc: Global,
    out: &'d Out,
    alias: &'d Txt,
    inner: Walked<'d>,
    rules: &Rules<'_>,
    scope: &Shapes<'_, 'd>,
) -> Walked<'d>
    ensures fault { let within = (alias.now, outputs (map output_view inner.entry.outputs.items)) ∷ shapes_view scope.now in
        faulted result.fault ≡ worse (worst (expr_faults (rules_schema rules.now) (rules_grants rules.now) within (expr_view out.now.value))) (faulted inner.entry.fault) }
    ensures outputs { map output_view result.outputs.items ≡ [] }
{
    let Walked { fault, outputs } = inner;
    let aliases = [Alias {
        alias,
        shape: Shape::Outputs(outputs),
    }];
    let inside = Shapes::Level {
        aliases: &aliases,
        outer: &*scope,
    };
    Walked {
        fault: worse(expr_fault(&out.value, rules, &inside), fault),
        outputs: Vec::new(alloc),
    }
}

#[cycle(walk)]
fn walk_from<'d>(
    alloc: Global,
    from: &'d From,
    rules: &Rules<'_>,
    scope: &Shapes<'_, 'd>,
) -> Result<Begun<'d>, Memory>
    ensures fault { IfOk result (λ begun. faulted begun.fault ≡ worst (inner_faults (rules_schema rules.now) (rules_grants rules.now) (shapes_view scope.now) (from_view from.now))) }
    ensures shapes { let s = rules_schema rules.now in let g = rules_grants rules.now in let x = shapes_view scope.now in
        IfOk result (λ begun. alias_view begun.alias ∷ x ≡ from_shapes s g x (from_view from.now)) }
{
    match from {
        From::Table {
            schema,
            table,
            alias,
        } => Ok(Begun {
            fault: None,
            alias: Alias {
                alias,
                shape: Shape::Scan(table_place(rules, schema, table)),
            },
        }),
        From::Sub { select, alias } => {
            let inner = walk_select(alloc, select, rules, scope, true)?;
            Ok(begun_by(alias, inner))
        }
        From::One { alias } => Ok(Begun {
            fault: None,
            alias: Alias {
                alias,
                shape: Shape::Outputs(Vec::new(alloc)),
            },
        }),
    }
}

// A select that comes to this, under an alias.
fn begun_by<'d>(alias: &'d Txt, inner: Walked<'d>) -> Begun<'d>
    ensures fault { faulted result.fault ≡ faulted inner.entry.fault }
    ensures alias { alias_view result.alias ≡ (alias.now, outputs (map output_view inner.entry.outputs.items)) }
{
    let Walked { fault, outputs } = inner;
    Begun {
        fault,
        alias: Alias {
            alias,
            shape: Shape::Outputs(outputs),
        },
    }
}

// A lateral join; the join of a mask has no faults, and makes what it shows.
#[cycle(walk)]
fn walk_join<'d>(
    alloc: Global,
    join: &'d Join,
    rules: &Rules<'_>,
    scope: &Shapes<'_, 'd>,
) -> Result<Walked<'d>, Memory>
    ensures fault { let s = rules_schema rules.now in let g = rules_grants rules.now in let x = shapes_view scope.now in let q = (join_view join.now).select in
        IfOk result (λ walked. faulted walked.fault ≡ worst (cond (is_mask_join s g x q) [] (select_faults s g x true q))) }
    ensures outputs { let s = rules_schema rules.now in let g = rules_grants rules.now in let x = shapes_view scope.now in let q = (join_view join.now).select in
        IfOk result (λ walked. map output_view walked.outputs.items ≡ cond (is_mask_join s g x q) [] (outputs_of s g x q)) }
{
    if is_mask_join(alloc, &join.select, rules, scope)? {
        Ok(Walked {
            fault: None,
            outputs: Vec::new(alloc),
        })
    } else {
        walk_select(alloc, &join.select, rules, scope, true)
    }
}

// The fault of joins, whose aliases are added.
#[cycle(walk)]
fn walk_joins<'d>(
    alloc: Global,
    aliases: &mut Vec<Alias<'d>>,
    joins: &'d JoinList,
    rules: &Rules<'_>,
    scope: &Shapes<'_, 'd>,
) -> Result<Option<Fault<'d>>, Memory>
    ensures fault { let s = rules_schema rules.now in let g = rules_grants rules.now in let x = shapes_view scope.now in
        IfOk result (λ fault. faulted fault ≡ worst (joins_faults s g (stacked (map alias_view aliases.old.items) x) (joins_of (map join_view joins.now.items)))) }
    ensures shapes { let s = rules_schema rules.now in let g = rules_grants rules.now in let x = shapes_view scope.now in
        OnOk result (stacked (map alias_view aliases.new.items) x ≡ joined_shapes s g (stacked (map alias_view aliases.old.items) x) (joins_of (map join_view joins.now.items))) }
{
    let mut found = None;
    for join in joins {
        let beside = Shapes::Level {
            aliases: &*aliases,
            outer: &*scope,
        };
        let walked = walk_join(alloc, join, rules, &beside)?;
        found = worse(found, walked.fault);
        push_outputs(aliases, &join.alias, walked.outputs)?;
    }
    Ok(found)
}

// The fault of a WHERE.
#[cycle(walk)]
fn walk_filter<'d>(
    alloc: Global,
    filter: &'d Option<Pred>,
    rules: &Rules<'_>,
    scope: &Shapes<'_, 'd>,
    from: &From,
    all: &[&Pred],
) -> Result<Option<Fault<'d>>, Memory>
    ensures { let s = rules_schema rules.now in let g = rules_grants rules.now in let x = shapes_view scope.now in
        IfOk result (λ fault. faulted fault ≡ worst (where_faults s g x (is_exempt s g x (preds_view all.now) (from_view from.now)) (filter_view filter.now))) }
{
    match filter {
        None => Ok(None),
        Some(pred) => walk_conjunct(alloc, pred, rules, scope, from, all),
    }
}

// The fault of the conjuncts of a condition that are not exempt.
#[cycle(walk)]
fn walk_conjunct<'d>(
    alloc: Global,
    pred: &'d Pred,
    rules: &Rules<'_>,
    scope: &Shapes<'_, 'd>,
    from: &From,
    all: &[&Pred],
) -> Result<Option<Fault<'d>>, Memory>
    ensures { let s = rules_schema rules.now in let g = rules_grants rules.now in let x = shapes_view scope.now in
        IfOk result (λ fault. faulted fault ≡ worst (conjunct_faults s g x (is_exempt s g x (preds_view all.now) (from_view from.now)) (pred_view pred.now))) }
{
    match pred {
        Pred::True | Pred::False => Ok(None),
        Pred::And(preds) => walk_conjuncts(alloc, preds, rules, scope, from, all),
        Pred::Test {
            value,
            operands,
            ..
        } => {
            if is_exempt(alloc, pred, rules, scope, from, all)? {
                return Ok(None);
            }
            Ok(test_fault(value, operands, rules, scope))
        }
        Pred::Not(inner) => {
            if is_exempt(alloc, pred, rules, scope, from, all)? {
                return Ok(None);
            }
            walk_pred(alloc, inner, rules, scope)
        }
        Pred::Or(preds) => {
            if is_exempt(alloc, pred, rules, scope, from, all)? {
                return Ok(None);
            }
            walk_preds(alloc, preds, rules, scope)
        }
        Pred::Exists(select) => {
            if is_exempt(alloc, pred, rules, scope, from, all)? {
                return Ok(None);
            }
            Ok(walk_select(alloc, select, rules, scope, false)?.fault)
        }
    }
}

#[cycle(walk)]
fn walk_conjuncts<'d>(
    alloc: Global,
    preds: &'d PredList,
    rules: &Rules<'_>,
    scope: &Shapes<'_, 'd>,
    from: &From,
    all: &[&Pred],
) -> Result<Option<Fault<'d>>, Memory>
    ensures { let s = rules_schema rules.now in let g = rules_grants rules.now in let x = shapes_view scope.now in
        IfOk result (λ fault. faulted fault ≡ worst (conjuncts_faults s g x (is_exempt s g x (preds_view all.now) (from_view from.now)) (preds_of (map pred_view preds.now.items)))) }
{
    let mut found = None;
    for pred in preds {
        let fault = walk_conjunct(alloc, pred, rules, scope, from, all)?;
        found = worse(found, fault);
    }
    Ok(found)
}

#[cycle(walk)]
fn walk_pred<'d>(
    alloc: Global,
    pred: &'d Pred,
    rules: &Rules<'_>,
    scope: &Shapes<'_, 'd>,
) -> Result<Option<Fault<'d>>, Memory>
    ensures { IfOk result (λ fault. faulted fault ≡ worst (pred_faults (rules_schema rules.now) (rules_grants rules.now) (shapes_view scope.now) (pred_view pred.now))) }
{
    match pred {
        Pred::True | Pred::False => Ok(None),
        Pred::Test {
            value,
            operands,
            ..
        } => Ok(test_fault(value, operands, rules, scope)),
        Pred::Not(inner) => walk_pred(alloc, inner, rules, scope),
        Pred::And(preds) | Pred::Or(preds) => walk_preds(alloc, preds, rules, scope),
        Pred::Exists(select) => Ok(walk_select(alloc, select, rules, scope, false)?.fault),
    }
}

#[cycle(walk)]
fn walk_preds<'d>(
    alloc: Global,
    preds: &'d PredList,
    rules: &Rules<'_>,
    scope: &Shapes<'_, 'd>,
) -> Result<Option<Fault<'d>>, Memory>
    ensures { IfOk result (λ fault. faulted fault ≡ worst (preds_faults (rules_schema rules.now) (rules_grants rules.now) (shapes_view scope.now) (preds_of (map pred_view preds.now.items)))) }
{
    let mut found = None;
    for pred in preds {
        let fault = walk_pred(alloc, pred, rules, scope)?;
        found = worse(found, fault);
    }
    Ok(found)
}
