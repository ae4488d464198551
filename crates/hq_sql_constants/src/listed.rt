//! The constants of which a condition asks a column to be one.
ghost use Rattle.std.specs.Prelude.{◌≡◌, ◌++◌, [], true, map, IfOk, IfSome};
ghost use Rattle.hq_base.specs.Cells.{cell_of};
ghost use Rattle.hq_sql_tree.specs.Meaning.{Scope as Names, value};
ghost use Rattle.hq_sql_access.specs.View.{world_of};
ghost use Rattle.hq_sql_tree.specs.Tree.{all_of, any_of, preds_of, test as tested};
ghost use Rattle.hq_sql_tree.specs.View.{expr_view, pred_view};
ghost use Rattle.hq_sql_constants.specs.Listed.{AsksOneOf, IsOfOne};

use crate::keyed::{known_keys, linked_by};
use hq_base::{Memory, Txt, Val};
use hq_model::{Op, Test};
use hq_sql_access::equations::is_column;
use hq_sql_access::pinned::Pinned;
use hq_sql_scans::links::own_name;
use hq_sql_tree::{Expr, ExprList, Pred, PredList};
use std::alloc::Global;

/// The name of a column, and the values of which it is asked to be one.
#[derive(Drop)]
pub(crate) struct Listed<'d> {
    pub name: &'d Txt,
    pub values: Vec<Val>,
}

// The value of a constant.
fn constant(alloc: Global, expr: &Expr) -> Result<Option<Val>, Memory>
    ensures { IfOk result (λ found. IfSome found (λ v. (m : Names) → value (expr_view expr.now) [] m ≡ cell_of v)) }
{
    match expr {
        Expr::Int(n) => Ok(Some(Val::Int(*n))),
        Expr::Text(text) | Expr::Uuid(text) => Ok(Some(Val::Text(text.copy(alloc)?))),
        Expr::Bool(b) => Ok(Some(Val::Bool(*b))),
        Expr::Column { .. } | Expr::Object(_) | Expr::Agg(_) => Ok(None),
    }
}

// The values of constants; None where one is none.
fn constants(alloc: Global, exprs: &[Expr]) -> Result<Option<Vec<Val>>, Memory>
    ensures { IfOk result (λ found. IfSome found (λ vs. (m : Names) → map (λ e. value (expr_view e) [] m) exprs.now ≡ map cell_of vs.items)) }
{
    let mut values = Vec::with_capacity(alloc, exprs.len())?;
    for expr in exprs {
        match constant(alloc, expr)? {
            Some(value) => values.push(value)?,
            None => return Ok(None),
        }
    }
    Ok(Some(values))
}

// Whether a test is true only of what equals one of its operands.
#[tactic(auto, using(crate::proofs::Ones::among_is, crate::proofs::Ones::equation_is))]
fn is_of_one(test: Test) -> bool
    ensures { result ≡ true → IsOfOne test }
{
    match test {
        Test::Among | Test::Compare(Op::Eq) => true,
        _ => false,
    }
}

// The values of which a test asks the column to be one.
fn of_test(
    alloc: Global,
    own: &Expr,
    test: Test,
    operands: &ExprList,
    alias: &Txt,
    name: &Txt,
    world: &Pinned<'_>,
) -> Result<Option<Vec<Val>>, Memory>
    ensures { IfOk result (λ found. IfSome found (λ vs. AsksOneOf (world_of world.now) (tested (expr_view own.now) test (map expr_view operands.now.items)) alias.now name.now vs.items)) }
{
    if !is_of_one(test) {
        return Ok(None);
    }
    if !is_column(own, alias, name) {
        return Ok(None);
    }
    constants(alloc, operands.as_slice())
}

// The same of a condition that is a test, or an EXISTS whose keys are known.
fn of_pred(
    alloc: Global,
    pred: &Pred,
    alias: &Txt,
    name: &Txt,
    world: &Pinned<'_>,
) -> Result<Option<Vec<Val>>, Memory>
    ensures { IfOk result (λ found. IfSome found (λ vs. AsksOneOf (world_of world.now) (pred_view pred.now) alias.now name.now vs.items)) }
{
    match pred {
        Pred::Test {
            value,
            test,
            operands,
        } => of_test(alloc, value, *test, operands, alias, name, world),
        Pred::Exists(_) => known_keys(alloc, pred, alias, name, world),
        Pred::True | Pred::False | Pred::Not(_) | Pred::And(_) | Pred::Or(_) => Ok(None),
    }
}

fn with_more(values: Vec<Val>, more: Vec<Val>) -> Result<Vec<Val>, Memory>
    ensures { IfOk result (λ all. all.items ≡ values.items ++ more.items) }
{
    let mut all = values;
    let mut more = more;
    all.append(&mut more)?;
    Ok(all)
}

// The values of which an OR of tests asks the column to be one.
#[tactic(auto, using(crate::proofs::Ones::asks_none, crate::proofs::Ones::asks_more))]
fn of_any(
    alloc: Global,
    preds: &PredList,
    alias: &Txt,
    name: &Txt,
    world: &Pinned<'_>,
) -> Result<Option<Vec<Val>>, Memory>
    ensures { IfOk result (λ found. IfSome found (λ vs. AsksOneOf (world_of world.now) (any_of (preds_of (map pred_view preds.now.items))) alias.now name.now vs.items)) }
{
    let mut values = Vec::new(alloc);
    for pred in preds {
        match of_pred(alloc, pred, alias, name, world)? {
            Some(more) => values = with_more(values, more)?,
            None => return Ok(None),
        }
    }
    Ok(Some(values))
}

/// The name of the column that a test is of.
pub(crate) fn tested_name<'d>(pred: &'d Pred, alias: &Txt) -> Option<&'d Txt> {
    match pred {
        Pred::Test { value, .. } => own_name(value, alias),
        _ => None,
    }
}

// The name of the column that a test is of, or that an EXISTS asks to equal one of the keys that are known of it.
fn asked_name<'m>(pred: &'m Pred, alias: &Txt, world: &'m Pinned<'_>) -> Option<&'m Txt> {
    match pred {
        Pred::Exists(_) => own_name(linked_by(pred, world)?, alias),
        _ => tested_name(pred, alias),
    }
}

fn first_name<'m>(preds: &'m PredList, alias: &Txt, world: &'m Pinned<'_>) -> Option<&'m Txt> {
    asked_name(preds.as_slice().first()?, alias, world)
}

// The column that an OR of tests asks to be one of constants, with these.
#[tactic(auto, using(crate::proofs::Ones::listed_asks))]
fn of_or<'m>(
    alloc: Global,
    preds: &'m PredList,
    alias: &Txt,
    world: &'m Pinned<'_>,
) -> Result<Option<Listed<'m>>, Memory>
    ensures { IfOk result (λ found. IfSome found (λ l. AsksOneOf (world_of world.now) (any_of (preds_of (map pred_view preds.now.items))) alias.now l.name.now l.values.items)) }
{
    let Some(name) = first_name(preds, alias, world) else {
        return Ok(None);
    };
    match of_any(alloc, preds, alias, name, world)? {
        Some(values) => Ok(listed_if(name, values, least_of_any(preds))),
        None => Ok(None),
    }
}

// The same of a test.
#[tactic(auto, using(crate::proofs::Ones::listed_asks))]
fn of_alone<'m>(
    alloc: Global,
    pred: &'m Pred,
    alias: &Txt,
    world: &'m Pinned<'_>,
) -> Result<Option<Listed<'m>>, Memory>
    ensures { IfOk result (λ found. IfSome found (λ l. AsksOneOf (world_of world.now) (pred_view pred.now) alias.now l.name.now l.values.items)) }
{
    let Some(name) = asked_name(pred, alias, world) else {
        return Ok(None);
    };
    match of_pred(alloc, pred, alias, name, world)? {
        Some(values) => Ok(listed_if(name, values, least_of(pred))),
        None => Ok(None),
    }
}

// The same of a test or an OR of tests.
fn of_one<'m>(
    alloc: Global,
    pred: &'m Pred,
    alias: &Txt,
    world: &'m Pinned<'_>,
) -> Result<Option<Listed<'m>>, Memory>
    ensures { IfOk result (λ found. IfSome found (λ l. AsksOneOf (world_of world.now) (pred_view pred.now) alias.now l.name.now l.values.items)) }
{
    match pred {
        Pred::Or(preds) => of_or(alloc, preds, alias, world),
        Pred::True
        | Pred::False
        | Pred::Test { .. }
        | Pred::Not(_)
        | Pred::And(_)
        | Pred::Exists(_) => of_alone(alloc, pred, alias, world),
    }
}

// Fewer constants are not worth to be looked at before WHERE is tried.
const FEW: usize = 8;

// How many constants are worth to be looked at, and keys that are known.
fn least_of(pred: &Pred) -> usize {
    match pred {
        Pred::Exists(_) => 0,
        _ => FEW,
    }
}

fn least_of_any(preds: &PredList) -> usize {
    match preds.as_slice().first() {
        Some(pred) => least_of(pred),
        None => FEW,
    }
}

/// Whether a condition has so many operands or conditions, or its keys are known.
pub(crate) fn is_many(pred: &Pred, world: &Pinned<'_>) -> bool {
    match pred {
        Pred::Test { operands, .. } => operands.len() >= FEW,
        Pred::Or(preds) => {
            preds.len() >= FEW
                || preds
                    .as_slice()
                    .iter()
                    .all(|p| linked_by(p, world).is_some())
        }
        Pred::Exists(_) => linked_by(pred, world).is_some(),
        Pred::True | Pred::False | Pred::Not(_) | Pred::And(_) => false,
    }
}

// The column of this name with these constants, where they are worth it.
fn listed_if<'d>(name: &'d Txt, values: Vec<Val>, least: usize) -> Option<Listed<'d>>
    ensures { IfSome result (λ l. (l.name.now ≡ name.now) × (l.values.items ≡ values.items)) }
{
    if values.len() < least {
        return None;
    }
    Some(Listed { name, values })
}

// The same of one of the members of an AND.
#[tactic(auto, using(crate::proofs::Ones::asks_member))]
fn of_member<'m>(
    alloc: Global,
    preds: &'m PredList,
    alias: &Txt,
    world: &'m Pinned<'_>,
) -> Result<Option<Listed<'m>>, Memory>
    ensures { IfOk result (λ found. IfSome found (λ l. AsksOneOf (world_of world.now) (all_of (preds_of (map pred_view preds.now.items))) alias.now l.name.now l.values.items)) }
{
    for pred in preds {
        if let Some(listed) = of_one(alloc, pred, alias, world)? {
            return Ok(Some(listed));
        }
    }
    Ok(None)
}

/// The column of an alias that a condition asks to be one of many constants, with these.
pub(crate) fn listed_in<'m>(
    alloc: Global,
    pred: &'m Pred,
    alias: &Txt,
    world: &'m Pinned<'_>,
) -> Result<Option<Listed<'m>>, Memory>
    ensures { IfOk result (λ found. IfSome found (λ l. AsksOneOf (world_of world.now) (pred_view pred.now) alias.now l.name.now l.values.items)) }
{
    match pred {
        Pred::And(preds) => of_member(alloc, preds, alias, world),
        Pred::True
        | Pred::False
        | Pred::Test { .. }
        | Pred::Not(_)
        | Pred::Or(_)
        | Pred::Exists(_) => of_one(alloc, pred, alias, world),
    }
}
