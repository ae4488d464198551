//! Reading the clauses of a select that hold no select. Each stands apart, so that its frame is not part of that of a select.
ghost use Rattle.std.specs.Prelude.{map};
ghost use Rattle.hq_sql_tree.specs.declared.word.Word.TheVariants as words;
ghost use Rattle.hq_sql_tree.specs.View.{expr_view, order_view, out_view, from_view};
ghost use Rattle.hq_sql_expr.specs.Reading.{Reads, all_many, expr_at, order_with, out_with};
ghost use Rattle.hq_sql_text.specs.Reading.{clause_with, count_at, distinct_at, one_at, table_at};

use crate::parts::boxed_from;
use hq_sql_expr::{
    ReadRefusal, read_closed_exprs, read_keys, read_name, read_number, read_outs, skip, starts,
};
use hq_sql_tree::{ExprList, From, OrderList, OutList, Word};
use std::alloc::Global;

/// The expressions of DISTINCT ON, where it stands.
#[inline(never)]
pub(crate) fn distinct_clause(
    alloc: Global,
    depth: u32,
    bytes: &[u8],
) -> Result<(ExprList, &[u8]), ReadRefusal>
    ensures { Reads (λ x. (map expr_view x.0.items, x.1.now)) result (distinct_at depth bytes.now) }
{
    match starts(bytes, Word::DistinctOn) {
        Some(rest) => read_closed_exprs(alloc, depth, Word::CloseDistinct, rest),
        None => Ok((Vec::new(alloc), bytes)),
    }
}

/// One output or more.
#[inline(never)]
pub(crate) fn out_list(
    alloc: Global,
    depth: u32,
    bytes: &[u8],
) -> Result<(OutList, &[u8]), ReadRefusal>
    ensures { Reads (λ x. (map out_view x.0.items, x.1.now)) result (all_many (out_with (expr_at depth)) words.Comma bytes.now) }
{
    read_outs(alloc, depth, bytes)
}

/// A table and its alias.
#[inline(never)]
#[tactic(auto, unfolding(crate::specs::Reading::table_at))]
pub(crate) fn table_of(alloc: Global, bytes: &[u8]) -> Result<(Box<From>, &[u8]), ReadRefusal>
    ensures { Reads (λ x. (from_view x.0.value, x.1.now)) result (table_at bytes.now) }
{
    let (schema, rest) = read_name(alloc, bytes)?;
    let rest = skip(rest, Word::Dot)?;
    let (table, rest) = read_name(alloc, rest)?;
    let rest = skip(rest, Word::As)?;
    let (alias, rest) = read_name(alloc, rest)?;
    let from = From::Table {
        schema,
        table,
        alias,
    };
    boxed_from(alloc, from, rest)
}

/// One under an alias, where its parenthesis may open.
#[inline(never)]
#[tactic(auto, unfolding(crate::specs::Reading::one_at))]
pub(crate) fn one_of(
    alloc: Global,
    depth: u32,
    bytes: &[u8],
) -> Result<(Box<From>, &[u8]), ReadRefusal>
    ensures { Reads (λ x. (from_view x.0.value, x.1.now)) result (one_at depth bytes.now) }
{
    if depth == 0 {
        return Err(ReadRefusal::NotSql);
    }
    let (alias, rest) = read_name(alloc, bytes)?;
    boxed_from(alloc, From::One { alias }, rest)
}

/// The sort keys of ORDER BY, where it stands.
#[inline(never)]
pub(crate) fn order_clause(
    alloc: Global,
    depth: u32,
    bytes: &[u8],
) -> Result<(OrderList, &[u8]), ReadRefusal>
    ensures { Reads (λ x. (map order_view x.0.items, x.1.now)) result (clause_with words.OrderBy words.Comma (order_with (expr_at depth)) bytes.now) }
{
    match starts(bytes, Word::OrderBy) {
        Some(rest) => read_keys(alloc, depth, rest),
        None => Ok((Vec::new(alloc), bytes)),
    }
}

/// The number behind the word of LIMIT or OFFSET, where it stands.
#[inline(never)]
pub(crate) fn count_clause(
    alloc: Global,
    word: Word,
    bytes: &[u8],
) -> Result<(Option<u64>, &[u8]), ReadRefusal>
    ensures { Reads (λ x. (x.0, x.1.now)) result (count_at word bytes.now) }
{
    let Some(rest) = starts(bytes, word) else {
        return Ok((None, bytes));
    };
    let (count, rest) = read_number(alloc, rest)?;
    Ok((Some(count), rest))
}
