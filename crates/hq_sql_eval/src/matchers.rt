//! The patterns of LIKE that stand in a statement, read once. Whichever are read, the answer is the meaning.
use hq_base::{Memory, Txt};
use hq_like::Matcher;
use hq_model::Test;
use hq_sql_tree::{Expr, From, JoinList, Pred, PredList, Select};
use std::alloc::Global;

// No more patterns are read before: one is looked for among them at each row.
const MOST: usize = 64;

/// Reads the patterns in the conditions of a select.
#[cycle(matchers)]
pub fn read_select(
    alloc: Global,
    select: &Select,
    matchers: &mut Vec<Matcher>,
) -> Result<(), Memory> {
    match select {
        Select::Fold { rows, .. } => read_select(alloc, rows, matchers),
        Select::Rows {
            from,
            joins,
            filter,
            ..
        } => {
            read_from(alloc, from, matchers)?;
            read_joins(alloc, joins, matchers)?;
            read_filter(alloc, filter, matchers)
        }
    }
}

#[cycle(matchers)]
fn read_from(alloc: Global, from: &From, matchers: &mut Vec<Matcher>) -> Result<(), Memory> {
    match from {
        From::Sub { select, .. } => read_select(alloc, select, matchers),
        From::Table { .. } | From::One { .. } => Ok(()),
    }
}

#[cycle(matchers)]
fn read_joins(alloc: Global, joins: &JoinList, matchers: &mut Vec<Matcher>) -> Result<(), Memory> {
    for join in joins {
        read_select(alloc, &join.select, matchers)?;
    }
    Ok(())
}

#[cycle(matchers)]
fn read_filter(
    alloc: Global,
    filter: &Option<Pred>,
    matchers: &mut Vec<Matcher>,
) -> Result<(), Memory> {
    match filter {
        Some(pred) => read_pred(alloc, pred, matchers),
        None => Ok(()),
    }
}

#[cycle(matchers)]
fn read_pred(alloc: Global, pred: &Pred, matchers: &mut Vec<Matcher>) -> Result<(), Memory> {
    match pred {
        Pred::Not(inner) => read_pred(alloc, inner, matchers),
        Pred::And(preds) | Pred::Or(preds) => read_preds(alloc, preds, matchers),
        Pred::Exists(select) => read_select(alloc, select, matchers),
        Pred::Test { test, operands, .. } => read_test(alloc, *test, operands.as_slice(), matchers),
        Pred::True | Pred::False => Ok(()),
    }
}

#[cycle(matchers)]
fn read_preds(alloc: Global, preds: &PredList, matchers: &mut Vec<Matcher>) -> Result<(), Memory> {
    for pred in preds {
        read_pred(alloc, pred, matchers)?;
    }
    Ok(())
}

// Reads the pattern of a test.
fn read_test(
    alloc: Global,
    test: Test,
    operands: &[Expr],
    matchers: &mut Vec<Matcher>,
) -> Result<(), Memory> {
    if let (Test::Like { fold }, [Expr::Text(pattern)]) = (test, operands) {
        read_pattern(alloc, pattern, fold, matchers)?;
    }
    Ok(())
}

// Reads a pattern, unless it was read or there are enough.
fn read_pattern(
    alloc: Global,
    pattern: &Txt,
    fold: bool,
    matchers: &mut Vec<Matcher>,
) -> Result<(), Memory> {
    if matchers.len() >= MOST {
        return Ok(());
    }
    for matcher in &*matchers {
        if matcher.is_of(pattern, fold) {
            return Ok(());
        }
    }
    matchers.push(Matcher::new(alloc, pattern, fold)?)?;
    Ok(())
}
