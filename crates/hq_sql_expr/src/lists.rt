//! Reading expressions, sort keys and outputs, within so many parentheses.
ghost use Rattle.std.specs.Prelude.{map};
ghost use Rattle.hq_sql_tree.specs.View.{expr_view, order_view, out_view};
ghost use Rattle.hq_sql_tree.specs.declared.word.Word.TheVariants as words;
ghost use Rattle.hq_sql_expr.specs.Reading.{Reads, below, all_many, argument_with, order_with, expr_at, closed_exprs, out_with};

use crate::reading::{expr_of, order_list};
use crate::{ReadRefusal, read_name, skip, starts};
use hq_sql_tree::{Expr, ExprList, OrderList, Out, OutList, Word};
use std::alloc::Global;

/// Reads an expression that opens at most `depth` parentheses at once.
pub fn read_expr(alloc: Global, depth: u32, bytes: &[u8]) -> Result<(Expr, &[u8]), ReadRefusal>
    ensures { Reads (λ x. (expr_view x.0, x.1.now)) result (expr_at depth bytes.now) }
{
    expr_of(alloc, depth, bytes)
}

/// Reads one sort key or more, with commas between.
pub fn read_keys(alloc: Global, depth: u32, bytes: &[u8]) -> Result<(OrderList, &[u8]), ReadRefusal>
    ensures { Reads (λ x. (map order_view x.0.items, x.1.now)) result (all_many (order_with (expr_at depth)) words.Comma bytes.now) }
{
    order_list(alloc, depth, bytes)
}

/// Reads one expression or more, with commas between.
pub fn read_exprs(alloc: Global, depth: u32, bytes: &[u8]) -> Result<(ExprList, &[u8]), ReadRefusal>
    ensures { Reads (λ x. (map expr_view x.0.items, x.1.now)) result (all_many (expr_at depth) words.Comma bytes.now) }
{
    let mut found = Vec::new(alloc);
    let mut rest = bytes;
    for _ in 0..bytes.len() + 1 {
        let (expr, left) = read_expr(alloc, depth, rest)?;
        found.push(expr)?;
        match starts(left, Word::Comma) {
            None => return Ok((found, left)),
            Some(next) => rest = next,
        }
    }
    Err(ReadRefusal::NotSql)
}

#[tactic(auto, unfolding(crate::specs::Reading::out_with))]
fn out_of(alloc: Global, depth: u32, bytes: &[u8]) -> Result<(Out, &[u8]), ReadRefusal>
    ensures { Reads (λ x. (out_view x.0, x.1.now)) result (out_with (expr_at depth) bytes.now) }
{
    let (value, rest) = read_expr(alloc, depth, bytes)?;
    let rest = skip(rest, Word::As)?;
    let (name, rest) = read_name(alloc, rest)?;
    Ok((Out { value, name }, rest))
}

/// Reads one output or more, with commas between.
pub fn read_outs(alloc: Global, depth: u32, bytes: &[u8]) -> Result<(OutList, &[u8]), ReadRefusal>
    ensures { Reads (λ x. (map out_view x.0.items, x.1.now)) result (all_many (out_with (expr_at depth)) words.Comma bytes.now) }
{
    let mut found = Vec::new(alloc);
    let mut rest = bytes;
    for _ in 0..bytes.len() + 1 {
        let (output, left) = out_of(alloc, depth, rest)?;
        found.push(output)?;
        match starts(left, Word::Comma) {
            None => return Ok((found, left)),
            Some(next) => rest = next,
        }
    }
    Err(ReadRefusal::NotSql)
}

/// Reads an expression and the parenthesis that closes it.
#[tactic(auto, unfolding(crate::specs::Reading::argument_with))]
pub fn read_closed_expr(
    alloc: Global,
    depth: u32,
    bytes: &[u8],
) -> Result<(Expr, &[u8]), ReadRefusal>
    ensures { Reads (λ x. (expr_view x.0, x.1.now)) result (argument_with (expr_at depth) bytes.now) }
{
    let (expr, rest) = read_expr(alloc, depth, bytes)?;
    let rest = skip(rest, Word::Close)?;
    Ok((expr, rest))
}

#[tactic(auto, unfolding(crate::specs::Reading::closed_exprs))]
fn closed_of(
    alloc: Global,
    depth: u32,
    close: Word,
    bytes: &[u8],
) -> Result<(ExprList, &[u8]), ReadRefusal>
    ensures { Reads (λ x. (map expr_view x.0.items, x.1.now)) result (closed_exprs close depth bytes.now) }
{
    let (exprs, rest) = read_exprs(alloc, depth, bytes)?;
    let rest = skip(rest, close)?;
    Ok((exprs, rest))
}

/// Reads one expression or more behind a parenthesis, with commas between, and the word that closes them.
pub fn read_closed_exprs(
    alloc: Global,
    depth: u32,
    close: Word,
    bytes: &[u8],
) -> Result<(ExprList, &[u8]), ReadRefusal>
    ensures { Reads (λ x. (map expr_view x.0.items, x.1.now)) result (below (closed_exprs close) depth bytes.now) }
{
    if depth == 0 {
        return Err(ReadRefusal::NotSql);
    }
    closed_of(alloc, depth - 1, close, bytes)
}
