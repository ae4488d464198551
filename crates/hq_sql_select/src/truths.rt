//! Truths of conditions.
ghost use Rattle.std.specs.Prelude.{◌≡◌, map, IfOk};
ghost use Rattle.hq_model.specs.Logic.{and3};
ghost use Rattle.hq_sql_tree.specs.Tree.{preds_of, test as tested};
ghost use Rattle.hq_sql_tree.specs.View.{expr_view, select_view, pred_view, filter_view};
ghost use Rattle.hq_sql_tree.specs.Meaning.{kept, truth_at, any_true, has_rows, rows_of};
ghost use Rattle.hq_sql_conjuncts.specs.Conjuncts.{all_kept, lent_views};
ghost use Rattle.hq_sql_select.specs.Costs.{all_at};
ghost use Rattle.hq_sql_access.specs.View.{world_of, names_of};

use crate::clauses::{made_of, rows};
use crate::costs::{Conjunct, Cost, conjunct_at};
use crate::scans::any_row;
use crate::values::{value, values};
use hq_base::Memory;
use hq_model::{Test, Truth};
use hq_sql_access::known::known_of;
use hq_sql_access::pinned::Pinned;
use hq_sql_access::scope::{Group, Scope, alias_of, source_of};
use hq_sql_access::single::is_whole;
use hq_sql_access::stages::{Parts, stages};
use hq_sql_cells::test_truth;
use hq_sql_scans::key_set::known_row;
use hq_sql_scans::likes::known_like;
use hq_sql_tree::{Expr, ExprList, Pred, PredList, Select};
use std::alloc::Global;
use std::slice;

/// Whether a WHERE keeps a row: neither where it is false nor where it is unknown.
#[cycle(eval)]
pub fn kept<'d>(
    alloc: Global,
    filter: &'d Option<Pred>,
    world: &Pinned<'d>,
    scope: &Scope<'_, 'd>,
) -> Result<bool, Memory>
    ensures { IfOk result (λ b. b ≡ kept (filter_view filter.now) (world_of world.now) (names_of scope.now world.now)) }
{
    match filter {
        None => Ok(true),
        Some(pred) => Ok(truth(alloc, pred, world, scope)?.is_yes()),
    }
}

/// The truth of a condition. Of an AND what costs little is tried first, and of an EXISTS keys tell it, where they are known.
#[cycle(eval)]
pub fn truth<'d>(
    alloc: Global,
    pred: &'d Pred,
    world: &Pinned<'d>,
    scope: &Scope<'_, 'd>,
) -> Result<Truth, Memory>
    ensures { IfOk result (λ t. t ≡ truth_at (pred_view pred.now) (world_of world.now) (names_of scope.now world.now)) }
{
    match pred {
        Pred::True => Ok(Truth::Yes),
        Pred::False => Ok(Truth::No),
        Pred::Test {
            value,
            test,
            operands,
        } => tested(alloc, value, *test, operands, world, scope),
        Pred::Not(inner) => Ok(truth(alloc, inner, world, scope)?.negated()),
        Pred::And(preds) => {
            let plain = all_true(alloc, preds, Cost::Plain, Truth::Yes, world, scope)?;
            let nested = all_true(alloc, preds, Cost::Nested, plain, world, scope)?;
            all_true(alloc, preds, Cost::Rows, nested, world, scope)
        }
        Pred::Or(preds) => any_true(alloc, preds, world, scope),
        Pred::Exists(select) => match known_row(alloc, pred, world, scope)? {
            Some(has) => Ok(Truth::of(has)),
            None => Ok(Truth::of(exists(alloc, select, world, scope)?)),
        },
    }
}

// What a test says of an expression. A single operand is put into no list, and the pattern of LIKE is read before.
#[cycle(eval)]
fn tested<'d>(
    alloc: Global,
    expr: &'d Expr,
    test: Test,
    operands: &'d ExprList,
    world: &Pinned<'d>,
    scope: &Scope<'_, 'd>,
) -> Result<Truth, Memory>
    ensures { IfOk result (λ t. t ≡ truth_at (tested (expr_view expr.now) test (map expr_view operands.now.items)) (world_of world.now) (names_of scope.now world.now)) }
{
    let cell = value(alloc, expr, world, Group::Alone, scope)?;
    if let [operand] = operands.as_slice() {
        if let Some(truth) = known_like(world.matchers, test, &cell, operand) {
            return Ok(truth);
        }
        let operand = value(alloc, operand, world, Group::Alone, scope)?;
        return test_truth(alloc, test, &cell, slice::from_ref(&operand));
    }
    let operands = values(alloc, operands, &[], &[], world, scope)?;
    test_truth(alloc, test, &cell, &operands)
}

// AND of this truth and of those of a list that have a cost, which ends where it is false.
#[cycle(eval)]
fn all_true<'d>(
    alloc: Global,
    preds: &'d PredList,
    cost: Cost,
    before: Truth,
    world: &Pinned<'d>,
    scope: &Scope<'_, 'd>,
) -> Result<Truth, Memory>
    ensures { IfOk result (λ t. t ≡ and3 before (all_at cost (preds_of (map pred_view preds.now.items)) (world_of world.now) (names_of scope.now world.now))) }
{
    let mut all = before;
    for pred in preds {
        if all == Truth::No {
            return Ok(Truth::No);
        }
        all = match conjunct_at(pred, cost) {
            Conjunct::Opened(inner) => all_true(alloc, inner, cost, all, world, scope)?,
            Conjunct::Tried(pred) => all.and(truth(alloc, pred, world, scope)?),
            Conjunct::Other => all,
        };
    }
    Ok(all)
}

// OR of a list, which ends where one is true.
#[cycle(eval)]
fn any_true<'d>(
    alloc: Global,
    preds: &'d PredList,
    world: &Pinned<'d>,
    scope: &Scope<'_, 'd>,
) -> Result<Truth, Memory>
    ensures { IfOk result (λ t. t ≡ any_true (preds_of (map pred_view preds.now.items)) (world_of world.now) (names_of scope.now world.now)) }
{
    let mut any = Truth::No;
    for pred in preds {
        any = any.or(truth(alloc, pred, world, scope)?);
        if any == Truth::Yes {
            return Ok(Truth::Yes);
        }
    }
    Ok(any)
}

/// Whether each of these is true.
#[cycle(eval)]
pub fn all_hold<'d>(
    alloc: Global,
    preds: &[&'d Pred],
    world: &Pinned<'d>,
    scope: &Scope<'_, 'd>,
) -> Result<bool, Memory>
    ensures { IfOk result (λ b. b ≡ all_kept (lent_views preds.now) (world_of world.now) (names_of scope.now world.now)) }
{
    for pred in preds {
        if !truth(alloc, pred, world, scope)?.is_yes() {
            return Ok(false);
        }
    }
    Ok(true)
}

// Whether a select has a row. Without LIMIT and OFFSET it ends at the first row that is kept.
#[cycle(eval)]
fn exists<'d>(
    alloc: Global,
    select: &'d Select,
    world: &Pinned<'d>,
    scope: &Scope<'_, 'd>,
) -> Result<bool, Memory>
    ensures { IfOk result (λ b. b ≡ has_rows (rows_of (select_view select.now) (world_of world.now) (names_of scope.now world.now))) }
{
    match select {
        Select::Fold { .. } => Ok(true),
        Select::Rows {
            distinct,
            outs,
            from,
            joins,
            filter,
            order,
            limit,
            offset,
        } => {
            if !is_whole(*limit, *offset) {
                return Ok(!rows(alloc, select, world, scope)?.is_empty());
            }
            let made = made_of(alloc, from, world, scope)?;
            let parts = Parts {
                distinct,
                outs,
                filter,
                order,
            };
            let list = joins.as_slice();
            let given = made.as_slice();
            let stages = stages(alloc, parts, list)?;
            let source = source_of(world, from, given);
            let known = known_of(world, from, list, filter);
            let alias = alias_of(from);
            any_row(
                alloc, source, alias, list, &stages, filter, known, world, &*scope,
            )
        }
    }
}
