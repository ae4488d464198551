//! The range in which a condition asks a column to be: the comparisons of it with constants.
ghost use Rattle.std.specs.Prelude.{◌≡◌, [], ◌∷◌, map, IfOk, IfSome};
ghost use Rattle.hq_load_index.specs.Keys.{cell_view};
ghost use Rattle.hq_sql_tree.specs.Meaning.{Scope as Names, value};
ghost use Rattle.hq_sql_tree.specs.Tree.{all_of, preds_of, test as tested};
ghost use Rattle.hq_sql_tree.specs.View.{expr_view, pred_view};
ghost use Rattle.hq_sql_constants.specs.Ranged.{AsksAll, AsksBound, AsksRange};

use crate::listed::tested_name;
use crate::marked::index_over;
use hq_base::{Memory, Txt};
use hq_load_index::KeyCell;
use hq_load_tables::Rows;
use hq_model::{ColId, Column, Op, Test};
use hq_sql_access::equations::{first_named, is_column};
use hq_sql_tree::{Expr, ExprList, Pred, PredList};
use std::alloc::Global;

/// A comparison with a constant.
#[derive(Clone, Copy)]
pub(crate) struct Bound<'d> {
    pub op: Op,
    pub value: KeyCell<'d>,
}

/// The name of a column, and the comparisons that it is asked to meet.
#[derive(Drop)]
pub(crate) struct Ranged<'d> {
    pub name: &'d Txt,
    pub bounds: Vec<Bound<'d>>,
}

// The cell of a constant.
fn constant<'d>(expr: &'d Expr) -> Option<KeyCell<'d>>
    ensures { IfSome result (λ c. (m : Names) → value (expr_view expr.now) [] m ≡ cell_view c) }
{
    match expr {
        Expr::Int(n) => Some(KeyCell::Int(*n as i128)),
        Expr::Text(text) | Expr::Uuid(text) => Some(KeyCell::Text(text)),
        Expr::Bool(b) => Some(KeyCell::Bool(*b)),
        Expr::Column { .. } | Expr::Object(_) | Expr::Agg(_) => None,
    }
}

// The cell of the one operand, where that is a constant.
fn only_constant<'d>(operands: &'d [Expr]) -> Option<KeyCell<'d>>
    ensures { IfSome result (λ c. (m : Names) → map (λ e. value (expr_view e) [] m) operands.now ≡ cell_view c ∷ []) }
{
    match operands {
        [operand] => constant(operand),
        _ => None,
    }
}

// Whether what a comparison is true of stands on one side of its operand.
fn is_one_sided(op: Op) -> bool {
    match op {
        Op::Lt | Op::Le | Op::Gt | Op::Ge => true,
        Op::Eq | Op::Ne => false,
    }
}

// The comparison with a constant that a test asks the column to meet.
fn of_test<'d>(
    own: &Expr,
    test: Test,
    operands: &'d ExprList,
    alias: &Txt,
    name: &Txt,
) -> Option<Bound<'d>>
    ensures { IfSome result (AsksBound (tested (expr_view own.now) test (map expr_view operands.now.items)) alias.now name.now) }
{
    let Test::Compare(op) = test else {
        return None;
    };
    if !is_one_sided(op) {
        return None;
    }
    if !is_column(own, alias, name) {
        return None;
    }
    match only_constant(operands.as_slice()) {
        Some(value) => Some(Bound { op, value }),
        None => None,
    }
}

// The same of a condition that is a test.
fn of_pred<'d>(pred: &'d Pred, alias: &Txt, name: &Txt) -> Option<Bound<'d>>
    ensures { IfSome result (AsksBound (pred_view pred.now) alias.now name.now) }
{
    match pred {
        Pred::Test {
            value,
            test,
            operands,
        } => of_test(value, *test, operands, alias, name),
        Pred::True | Pred::False | Pred::Not(_) | Pred::And(_) | Pred::Or(_) | Pred::Exists(_) =>
            None,
    }
}

// Whether there is an index over the column of this name alone.
fn has_index(rows: &Rows, columns: &[Column], name: &Txt) -> bool {
    match first_named(columns, name) {
        Some(at) => index_over(rows, ColId::new(at)).is_some(),
        None => false,
    }
}

// The name of the column with an index that a test compares with a constant.
fn name_of<'d>(pred: &'d Pred, rows: &Rows, columns: &[Column], alias: &Txt) -> Option<&'d Txt> {
    let name = tested_name(pred, alias)?;
    if of_pred(pred, alias, name).is_some() && has_index(rows, columns, name) {
        return Some(name);
    }
    None
}

// The same of the first of these that is such a test.
fn first_name<'d>(
    preds: &'d PredList,
    rows: &Rows,
    columns: &[Column],
    alias: &Txt,
) -> Option<&'d Txt> {
    for pred in preds {
        if let Some(name) = name_of(pred, rows, columns, alias) {
            return Some(name);
        }
    }
    None
}

// The comparisons that the members of an AND ask the column to meet.
#[tactic(auto, using(crate::proofs::Ranges::asks_nothing, crate::proofs::Ranges::asks_more))]
fn bounds_among<'d>(
    alloc: Global,
    preds: &'d PredList,
    alias: &Txt,
    name: &Txt,
) -> Result<Vec<Bound<'d>>, Memory>
    ensures { IfOk result (λ bounds. AsksAll (all_of (preds_of (map pred_view preds.now.items))) alias.now name.now bounds.items) }
{
    let mut bounds = Vec::new(alloc);
    for pred in preds {
        if let Some(bound) = of_pred(pred, alias, name) {
            bounds.push(bound)?;
        }
    }
    Ok(bounds)
}

// The comparison that a test asks the column to meet, where it is one.
#[tactic(auto, using(crate::proofs::Ranges::asks_nothing, crate::proofs::Ranges::asks_one))]
fn bounds_of<'d>(
    alloc: Global,
    pred: &'d Pred,
    alias: &Txt,
    name: &Txt,
) -> Result<Vec<Bound<'d>>, Memory>
    ensures { IfOk result (λ bounds. AsksAll (pred_view pred.now) alias.now name.now bounds.items) }
{
    let mut bounds = Vec::new(alloc);
    if let Some(bound) = of_pred(pred, alias, name) {
        bounds.push(bound)?;
    }
    Ok(bounds)
}

/// The comparisons with constants that a condition asks a column of an alias to meet.
pub(crate) fn bounds_in<'d>(
    alloc: Global,
    pred: &'d Pred,
    alias: &Txt,
    name: &Txt,
) -> Result<Vec<Bound<'d>>, Memory>
    ensures { IfOk result (λ bounds. AsksAll (pred_view pred.now) alias.now name.now bounds.items) }
{
    match pred {
        Pred::And(preds) => bounds_among(alloc, preds, alias, name),
        Pred::True
        | Pred::False
        | Pred::Test { .. }
        | Pred::Not(_)
        | Pred::Or(_)
        | Pred::Exists(_) => bounds_of(alloc, pred, alias, name),
    }
}

// The name of the first column with an index that a condition compares with a constant.
fn named_in<'d>(pred: &'d Pred, rows: &Rows, columns: &[Column], alias: &Txt) -> Option<&'d Txt> {
    match pred {
        Pred::And(preds) => first_name(preds, rows, columns, alias),
        Pred::True
        | Pred::False
        | Pred::Test { .. }
        | Pred::Not(_)
        | Pred::Or(_)
        | Pred::Exists(_) => name_of(pred, rows, columns, alias),
    }
}

/// The column of an alias, with an index over it alone, that a condition compares with constants, with these comparisons.
#[tactic(auto, using(crate::proofs::Ranges::asks_range))]
pub(crate) fn ranged_in<'d>(
    alloc: Global,
    pred: &'d Pred,
    rows: &Rows,
    columns: &[Column],
    alias: &Txt,
) -> Result<Option<Ranged<'d>>, Memory>
    ensures { IfOk result (λ found. IfSome found (λ r. AsksRange (pred_view pred.now) alias.now r.name.now r.bounds.items)) }
{
    let Some(name) = named_in(pred, rows, columns, alias) else {
        return Ok(None);
    };
    let bounds = bounds_in(alloc, pred, alias, name)?;
    if bounds.is_empty() {
        return Ok(None);
    }
    Ok(Some(Ranged { name, bounds }))
}
