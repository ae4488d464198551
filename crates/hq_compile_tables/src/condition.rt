//! Conditions: literals, lists of conditions in one, WHERE, and a test of one column.
ghost use Rattle.std.specs.Prelude.{◌≡◌, ◌++◌, ◌∷◌, [], ℕ, IfOk, map, cond};
ghost use Rattle.hq_model.specs.Bexp.{operands_of};
ghost use Rattle.hq_model.specs.Tests.{is_of_nothing};
ghost use Rattle.hq_model.specs.declared.test.Test.TheVariants.{Compare};
ghost use Rattle.hq_sql_tree.specs.Tree as tree;
ghost use Rattle.hq_sql_tree.specs.View.{expr_view, pred_view, filter_view};
ghost use Rattle.hq_translation.specs.Conditions.{text_literal, literal, operand_literal, joined_by_and, joined_by_or, with_member, where_of, negation_if, first_literal, literals_for, test_of};
ghost use Rattle.hq_translation.specs.Looks.{compared_at, tested_at, type_in};
ghost use Rattle.hq_compile_tables.specs.Shown.{look_of};

use crate::columns::type_in;
use crate::shown::{Shown, compared_shown, tested_shown};
use hq_base::{Memory, Txt, Ty, Val};
use hq_model::{Arity, ColId, Op, Operand, Operands, Test};
use hq_sql_tree::{Expr, ExprList, Pred, PredList};
use std::alloc::Global;

// The literal of a text: where it is compared with a uuid, one of that type.
fn text_literal(alloc: Global, ty: Ty, text: &Txt) -> Result<Expr, Memory>
    ensures { IfOk result (λ e. expr_view e ≡ text_literal ty text.now) }
{
    let text = text.copy(alloc)?;
    match ty {
        Ty::Uuid => Ok(Expr::Uuid(text)),
        Ty::Integer | Ty::Bigint | Ty::Text | Ty::Boolean | Ty::Opaque => Ok(Expr::Text(text)),
    }
}

/// The literal of a value that is compared with a column of a type.
pub fn literal(alloc: Global, ty: Ty, value: &Val) -> Result<Expr, Memory>
    ensures { IfOk result (λ e. expr_view e ≡ literal ty value.now) }
{
    match value {
        Val::Null => Ok(Expr::Object(Vec::new(alloc))),
        Val::Int(n) => Ok(Expr::Int(*n)),
        Val::Text(text) => text_literal(alloc, ty, text),
        Val::Bool(b) => Ok(Expr::Bool(*b)),
    }
}

// The literal of an operand.
fn operand_literal(alloc: Global, ty: Ty, operand: &Operand) -> Result<Expr, Memory>
    ensures { IfOk result (λ e. expr_view e ≡ operand_literal ty operand.now) }
{
    match operand {
        Operand::Const(value) => literal(alloc, ty, value),
        Operand::Session(_) => Ok(Expr::Object(Vec::new(alloc))),
    }
}

fn operand_literals(alloc: Global, ty: Ty, operands: &[Operand]) -> Result<ExprList, Memory>
    ensures { IfOk result (λ es. map expr_view es.items ≡ map (operand_literal ty) operands.now) }
{
    let mut literals = Vec::with_capacity(alloc, operands.len())?;
    for operand in operands {
        literals.push(operand_literal(alloc, ty, operand)?)?;
    }
    Ok(literals)
}

// The literal of the first operand; that of NULL where there is none.
fn first_literal(alloc: Global, ty: Ty, operands: &[Operand]) -> Result<Expr, Memory>
    ensures { IfOk result (λ e. expr_view e ≡ first_literal ty operands.now) }
{
    match operands {
        [] => literal(alloc, ty, &Val::Null),
        [first, ..] => operand_literal(alloc, ty, first),
    }
}

/// Conditions that all hold, as one.
pub fn joined_by_and(mut preds: PredList) -> Pred
    ensures { pred_view result ≡ joined_by_and (map pred_view preds.items) }
{
    if preds.len() > 1 {
        return Pred::And(preds);
    }
    match preds.pop() {
        None => Pred::True,
        Some(pred) => pred,
    }
}

/// Conditions of which one holds, as one.
pub fn joined_by_or(mut preds: PredList) -> Pred
    ensures { pred_view result ≡ joined_by_or (map pred_view preds.items) }
{
    if preds.len() > 1 {
        return Pred::Or(preds);
    }
    match preds.pop() {
        None => Pred::False,
        Some(pred) => pred,
    }
}

/// The members of a WHERE and one more, which is left out where it is TRUE.
pub fn with_member(mut members: PredList, pred: Pred) -> Result<PredList, Memory>
    ensures { IfOk result (λ all. map pred_view all.items ≡ map pred_view members.items ++ with_member (pred_view pred) []) }
{
    match pred {
        Pred::True => Ok(members),
        pred => {
            members.push(pred)?;
            Ok(members)
        }
    }
}

/// A WHERE's first member, which is left out where it is TRUE.
pub fn first_member(alloc: Global, pred: Pred) -> Result<PredList, Memory>
    ensures { IfOk result (λ all. map pred_view all.items ≡ with_member (pred_view pred) []) }
{
    with_member(Vec::new(alloc), pred)
}

/// WHERE of these members; absent where there is none.
pub fn where_of(members: PredList) -> Option<Pred>
    ensures { filter_view result ≡ where_of (map pred_view members.items) }
{
    if members.is_empty() {
        return None;
    }
    Some(joined_by_and(members))
}

/// NOT of a condition.
pub fn negation(alloc: Global, pred: Pred) -> Result<Pred, Memory>
    ensures { IfOk result (λ p. pred_view p ≡ tree.negation (pred_view pred)) }
{
    Ok(Pred::Not(Box::new(alloc, pred)?))
}

// NOT, where it is asked for.
fn negation_if(alloc: Global, negated: bool, pred: Pred) -> Result<Pred, Memory>
    ensures { IfOk result (λ p. pred_view p ≡ negation_if negated (pred_view pred)) }
{
    if negated {
        negation(alloc, pred)
    } else {
        Ok(pred)
    }
}

// One expression, alone.
fn one_expr(alloc: Global, expr: Expr) -> Result<ExprList, Memory>
    ensures { IfOk result (λ es. map expr_view es.items ≡ expr_view expr ∷ []) }
{
    let mut exprs = Vec::new(alloc);
    exprs.push(expr)?;
    Ok(exprs)
}

/// A comparison of two values.
pub fn comparison(alloc: Global, left: Expr, op: Op, right: Expr) -> Result<Pred, Memory>
    ensures { IfOk result (λ p. pred_view p ≡ tree.test (expr_view left) (Compare op) (expr_view right ∷ [])) }
{
    let operands = one_expr(alloc, right)?;
    Ok(Pred::Test {
        value: left,
        test: Test::Compare(op),
        operands,
    })
}

// The literals of as many operands as are taken; one that is absent is NULL.
fn literals_for(
    alloc: Global,
    ty: Ty,
    arity: Arity,
    operands: &[Operand],
) -> Result<ExprList, Memory>
    ensures { IfOk result (λ es. map expr_view es.items ≡ literals_for ty arity operands.now) }
{
    match arity {
        Arity::Nothing => Ok(Vec::new(alloc)),
        Arity::One => {
            let first = first_literal(alloc, ty, operands)?;
            one_expr(alloc, first)
        }
        Arity::Many => operand_literals(alloc, ty, operands),
    }
}

// Whether a value is tested to be one of none, for which it is not looked at.
fn is_of_nothing(test: Test, operands: &[Operand]) -> bool
    ensures { result ≡ is_of_nothing test operands.now }
{
    matches!(test, Test::Among) && operands.is_empty()
}

// No value is one of none.
fn one_of_nothing(negated: bool) -> Pred
    ensures { pred_view result ≡ cond negated tree.always tree.never }
{
    if negated { Pred::True } else { Pred::False }
}

// A test of a column as it is shown against these operands, or its opposite where negated.
fn listed_test(
    alloc: Global,
    shown: &Shown,
    column: ColId,
    test: Test,
    operands: &[Operand],
    negated: bool,
) -> Result<Pred, Memory>
    ensures { IfOk result (λ p. pred_view p ≡ test_of (type_in shown.now.columns.now column) (tested_at shown.now.columns.now (look_of shown.now column) column test) test operands.now negated) }
{
    if is_of_nothing(test, operands) {
        return Ok(one_of_nothing(negated));
    }
    let value = tested_shown(alloc, shown, column, test)?;
    let ty = type_in(shown.columns, column);
    let operands = literals_for(alloc, ty, test.arity(), operands)?;
    let pred = Pred::Test {
        value,
        test,
        operands,
    };
    negation_if(alloc, negated, pred)
}

/// A test of a column as it is shown, or its opposite where negated.
pub fn column_test(
    alloc: Global,
    shown: &Shown,
    column: ColId,
    test: Test,
    operands: &Operands,
    negated: bool,
) -> Result<Pred, Memory>
    ensures { IfOk result
        (λ p. pred_view p
        ≡ test_of (type_in shown.now.columns.now column) (tested_at shown.now.columns.now (look_of shown.now column) column test) test
        (operands_of operands.now) negated) }
{
    match operands {
        Operands::List(operands) => {
            listed_test(alloc, shown, column, test, operands.as_slice(), negated)
        }
        Operands::Session(name) => {
            let unlisted = [Operand::Session(name.copy(alloc)?)];
            listed_test(alloc, shown, column, test, &unlisted, negated)
        }
    }
}

/// A comparison of two columns of a row as they are shown.
pub fn columns_test(
    alloc: Global,
    shown: &Shown,
    left: ColId,
    op: Op,
    right: ColId,
) -> Result<Pred, Memory>
    ensures { let at = λ (c : ℕ). compared_at shown.now.columns.now (look_of shown.now c) c in
        IfOk result (λ p. pred_view p ≡ tree.test (at left) (Compare op) (at right ∷ [])) }
{
    let left = compared_shown(alloc, shown, left)?;
    let right = compared_shown(alloc, shown, right)?;
    comparison(alloc, left, op, right)
}
