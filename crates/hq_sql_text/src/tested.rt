//! Reading tests of values.
ghost use Rattle.std.specs.Prelude.{◌≡◌, map, option_map, IfOk};
ghost use Rattle.hq_model.specs.declared.test.Arity.TheVariants as arities;
ghost use Rattle.hq_sql_tree.specs.View.{expr_view, pred_view};
ghost use Rattle.hq_sql_expr.specs.Reading.{Reads, after};
ghost use Rattle.hq_sql_text.specs.Reading.{cast_next, joint_behind, joint_next, member_next, test_at, operands_at, test_with, tested_at};

use crate::parts::boxed;
use hq_base::Memory;
use hq_model::{Arity, Test};
use hq_sql_expr::{
    ReadRefusal, read_cast, read_closed_expr, read_closed_exprs, read_expr, skip, starts,
};
use hq_sql_tree::{Expr, ExprList, Pred, Word};
use std::alloc::Global;

// The test whose operator stands here, and what follows it.
#[tactic(auto, unfolding(crate::specs::Reading::test_at))]
fn test_of(bytes: &[u8]) -> Result<(Test, &[u8]), ReadRefusal>
    ensures { Reads (λ x. (x.0, x.1.now)) result (test_at bytes.now) }
{
    for test in Word::tests() {
        if let Some(rest) = starts(bytes, Word::of_test(test)) {
            return Ok((test, rest));
        }
    }
    Err(ReadRefusal::NotSql)
}

// The one operand of a test, and the closing parenthesis.
fn operand_of(alloc: Global, depth: u32, bytes: &[u8]) -> Result<(ExprList, &[u8]), ReadRefusal>
    ensures { Reads (λ x. (map expr_view x.0.items, x.1.now)) result (operands_at arities.One depth bytes.now) }
{
    let (operand, rest) = read_closed_expr(alloc, depth, bytes)?;
    let mut operands = Vec::new(alloc);
    operands.push(operand)?;
    Ok((operands, rest))
}

// As many operands as a test takes, up to the closing parenthesis.
fn operands_of(
    alloc: Global,
    depth: u32,
    arity: Arity,
    bytes: &[u8],
) -> Result<(ExprList, &[u8]), ReadRefusal>
    ensures { Reads (λ x. (map expr_view x.0.items, x.1.now)) result (operands_at arity depth bytes.now) }
{
    match arity {
        Arity::Nothing => {
            let rest = skip(bytes, Word::Close)?;
            Ok((Vec::new(alloc), rest))
        }
        Arity::One => operand_of(alloc, depth, bytes),
        Arity::Many => read_closed_exprs(alloc, depth, Word::CloseIn, bytes),
    }
}

// What is asked of the value, up to the closing parenthesis. It lies in a box, so that it is let go in one step.
#[tactic(auto, unfolding(crate::specs::Reading::test_with))]
fn asked_of(
    alloc: Global,
    depth: u32,
    value: Box<Expr>,
    bytes: &[u8],
) -> Result<(Pred, &[u8]), ReadRefusal>
    ensures { Reads (λ x. (pred_view x.0, x.1.now)) result (test_with depth (expr_view value.value) bytes.now) }
{
    let (test, rest) = test_of(bytes)?;
    let (operands, rest) = operands_of(alloc, depth, test.arity(), rest)?;
    let value = Box::into_inner(value);
    Ok((
        Pred::Test {
            value,
            test,
            operands,
        },
        rest,
    ))
}

/// What is asked of the value, up to the closing parenthesis, in a box.
#[inline(never)]
pub(crate) fn asked_boxed(
    alloc: Global,
    depth: u32,
    value: Box<Expr>,
    bytes: &[u8],
) -> Result<(Box<Pred>, &[u8]), ReadRefusal>
    ensures { Reads (λ x. (pred_view x.0.value, x.1.now)) result (test_with depth (expr_view value.value) bytes.now) }
{
    let (pred, rest) = asked_of(alloc, depth, value, bytes)?;
    boxed(alloc, pred, rest)
}

/// A column that is written by its text, where one stands here in its parentheses.
#[inline(never)]
pub(crate) fn cast_of(alloc: Global, bytes: &[u8]) -> Result<Option<(Box<Expr>, &[u8])>, Memory>
    ensures { IfOk result (λ found. cast_next bytes.now ≡ option_map (λ x. (expr_view x.0.value, x.1.now)) found) }
{
    let Some(rest) = starts(bytes, Word::Open) else {
        return Ok(None);
    };
    match read_cast(alloc, rest) {
        Ok((value, rest)) => {
            let value = Box::new(alloc, value)?;
            Ok(Some((value, rest)))
        }
        Err(ReadRefusal::NotSql) => Ok(None),
        Err(ReadRefusal::Memory) => Err(Memory),
    }
}

/// An expression and what is asked of it, up to the closing parenthesis.
#[inline(never)]
#[tactic(auto, unfolding(crate::specs::Reading::tested_at))]
pub(crate) fn tested_of(
    alloc: Global,
    depth: u32,
    bytes: &[u8],
) -> Result<(Box<Pred>, &[u8]), ReadRefusal>
    ensures { Reads (λ x. (pred_view x.0.value, x.1.now)) result (tested_at depth bytes.now) }
{
    let (value, rest) = read_expr(alloc, depth, bytes)?;
    let value = Box::new(alloc, value)?;
    asked_boxed(alloc, depth, value, rest)
}

// Whether AND or OR stands here.
fn is_joint_next(bytes: &[u8]) -> bool
    ensures { result ≡ joint_next bytes.now }
{
    starts(bytes, Word::And).is_some() || starts(bytes, Word::Or).is_some()
}

// Whether AND or OR stands behind the word, which stands here.
fn is_joint_behind(bytes: &[u8], word: Word) -> bool
    ensures { result ≡ joint_behind (after word bytes.now) }
{
    match starts(bytes, word) {
        Some(rest) => is_joint_next(rest),
        None => false,
    }
}

/// Whether a member of AND or OR begins here, and no expression.
pub(crate) fn is_member_next(bytes: &[u8]) -> bool
    ensures { result ≡ member_next bytes.now }
{
    starts(bytes, Word::Open).is_some()
        || starts(bytes, Word::Exists).is_some()
        || is_joint_behind(bytes, Word::True)
        || is_joint_behind(bytes, Word::False)
}
