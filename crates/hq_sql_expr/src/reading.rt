//! Reading expressions.
ghost use Rattle.std.specs.Prelude.{◌≡◌, map, Some};
ghost use Rattle.hq_base.specs.Aggregates.{all_aggregates};
ghost use Rattle.hq_sql_tree.specs.View.{expr_view, pair_view, order_view};
ghost use Rattle.hq_sql_tree.specs.Word.{aggregate_word};
ghost use Rattle.hq_sql_tree.specs.declared.word.Word.TheVariants as words;
ghost use Rattle.hq_sql_expr.specs.Reading.{Reads, below, all_many, form_at, cast_form_at, column_at, cast_at, first_word, head_word, head_at, expr_with, pair_with, pairs_with, argument_with, direction_at, order_with, ordered_with, inside_with, inside_at, listed_at};

use crate::head::Head;
use crate::texts::{literal_of, text_of};
use crate::{ReadRefusal, read_name, skip, starts};
use hq_base::Aggregate;
use hq_sql_tree::{Agg, ColumnForm, Expr, ExprPair, ExprPairList, Order, OrderList, Word};
use std::alloc::Global;

fn form_of(bytes: &[u8]) -> (ColumnForm, &[u8])
    ensures { form_at bytes.now ≡ Some (result.0, result.1.now) }
{
    match starts(bytes, Word::Collate) {
        Some(rest) => (ColumnForm::Collated, rest),
        None => (ColumnForm::Plain, bytes),
    }
}

fn cast_form_of(bytes: &[u8]) -> Result<(ColumnForm, &[u8]), ReadRefusal>
    ensures { Reads (λ x. (x.0, x.1.now)) result (cast_form_at bytes.now) }
{
    if let Some(rest) = starts(bytes, Word::CloseAsTextCollate) {
        return Ok((ColumnForm::AsTextCollated, rest));
    }
    let rest = skip(bytes, Word::CloseAsText)?;
    Ok((ColumnForm::AsText, rest))
}

#[tactic(auto, unfolding(crate::specs::Reading::column_at))]
fn column_of(alloc: Global, bytes: &[u8]) -> Result<(Expr, &[u8]), ReadRefusal>
    ensures { Reads (λ x. (expr_view x.0, x.1.now)) result (column_at bytes.now) }
{
    let (alias, rest) = read_name(alloc, bytes)?;
    let rest = skip(rest, Word::Dot)?;
    let (name, rest) = read_name(alloc, rest)?;
    let (form, rest) = form_of(rest);
    Ok((Expr::Column { alias, name, form }, rest))
}

/// Reads a column that is written by its text, behind the parenthesis before it.
#[tactic(auto, unfolding(crate::specs::Reading::cast_at))]
pub fn read_cast(alloc: Global, bytes: &[u8]) -> Result<(Expr, &[u8]), ReadRefusal>
    ensures { Reads (λ x. (expr_view x.0, x.1.now)) result (cast_at bytes.now) }
{
    let (alias, rest) = read_name(alloc, bytes)?;
    let rest = skip(rest, Word::Dot)?;
    let (name, rest) = read_name(alloc, rest)?;
    let (form, rest) = cast_form_of(rest)?;
    Ok((Expr::Column { alias, name, form }, rest))
}

impl Head {
    // What it is written as.
    fn word(self) -> Word
        ensures { result ≡ head_word self }
    {
        match self {
            Head::Object => Word::BuildObject,
            Head::CountAll => Word::CountAll,
            Head::CountDistinct => Word::CountDistinct,
            Head::Count => Word::Count,
            Head::JsonAgg => Word::JsonAgg,
            Head::Take(aggregate) => Word::of_aggregate(aggregate),
        }
    }
}

// The aggregate whose word stands here, and what follows it.
fn aggregate_of(bytes: &[u8]) -> Result<(Aggregate, &[u8]), ReadRefusal>
    ensures { Reads (λ x. (x.0, x.1.now)) result (first_word aggregate_word all_aggregates bytes.now) }
{
    for aggregate in Aggregate::all() {
        if let Some(rest) = starts(bytes, Word::of_aggregate(aggregate)) {
            return Ok((aggregate, rest));
        }
    }
    Err(ReadRefusal::NotSql)
}

// What an object or an aggregate begins with, and what follows it.
#[tactic(auto, unfolding(crate::specs::Reading::head_at))]
fn head_of(bytes: &[u8]) -> Result<(Head, &[u8]), ReadRefusal>
    ensures { Reads (λ x. (x.0, x.1.now)) result (head_at bytes.now) }
{
    if let Some(rest) = starts(bytes, Word::BuildObject) {
        return Ok((Head::Object, rest));
    }
    if let Some(rest) = starts(bytes, Word::CountAll) {
        return Ok((Head::CountAll, rest));
    }
    if let Some(rest) = starts(bytes, Word::CountDistinct) {
        return Ok((Head::CountDistinct, rest));
    }
    if let Some(rest) = starts(bytes, Word::Count) {
        return Ok((Head::Count, rest));
    }
    if let Some(rest) = starts(bytes, Word::JsonAgg) {
        return Ok((Head::JsonAgg, rest));
    }
    let (aggregate, rest) = aggregate_of(bytes)?;
    Ok((Head::Take(aggregate), rest))
}

#[cycle(read_expr)]
#[tactic(auto, unfolding(crate::specs::Reading::expr_with))]
pub(crate) fn expr_of(alloc: Global, depth: u32, bytes: &[u8]) -> Result<(Expr, &[u8]), ReadRefusal>
    ensures { Reads (λ x. (expr_view x.0, x.1.now)) result (expr_with (λ h. below (inside_at h) depth) bytes.now) }
{
    if let Some(rest) = starts(bytes, Word::True) {
        return Ok((Expr::Bool(true), rest));
    }
    if let Some(rest) = starts(bytes, Word::False) {
        return Ok((Expr::Bool(false), rest));
    }
    if starts(bytes, Word::TextQuote).is_some() {
        return literal_of(alloc, bytes);
    }
    if starts(bytes, Word::NameQuote).is_some() {
        return column_of(alloc, bytes);
    }
    if let Some(rest) = starts(bytes, Word::Open) {
        return read_cast(alloc, rest);
    }
    let (head, rest) = head_of(bytes)?;
    inside_below(alloc, depth, head, rest)
}

#[cycle(read_expr)]
fn inside_below(
    alloc: Global,
    depth: u32,
    head: Head,
    bytes: &[u8],
) -> Result<(Expr, &[u8]), ReadRefusal>
    ensures { Reads (λ x. (expr_view x.0, x.1.now)) result (below (inside_at head) depth bytes.now) }
{
    if depth == 0 {
        return Err(ReadRefusal::NotSql);
    }
    inside_of(alloc, depth - 1, head, bytes)
}

#[cycle(read_expr)]
#[tactic(auto, unfolding(crate::specs::Reading::inside_with))]
fn inside_of(
    alloc: Global,
    depth: u32,
    head: Head,
    bytes: &[u8],
) -> Result<(Expr, &[u8]), ReadRefusal>
    ensures { Reads (λ x. (expr_view x.0, x.1.now)) result (inside_with (expr_with (λ h. below (inside_at h) depth)) (below listed_at depth) head bytes.now) }
{
    match head {
        Head::Object => pairs_of(alloc, depth, bytes),
        Head::CountAll => Ok((Expr::Agg(Agg::CountAll), bytes)),
        Head::CountDistinct => {
            let (value, rest) = argument_of(alloc, depth, bytes)?;
            Ok((
                Expr::Agg(Agg::Count {
                    value,
                    distinct: true,
                }),
                rest,
            ))
        }
        Head::Count => {
            let (value, rest) = argument_of(alloc, depth, bytes)?;
            Ok((
                Expr::Agg(Agg::Count {
                    value,
                    distinct: false,
                }),
                rest,
            ))
        }
        Head::JsonAgg => ordered_below(alloc, depth, bytes),
        Head::Take(aggregate) => {
            let (value, rest) = argument_of(alloc, depth, bytes)?;
            Ok((Expr::Agg(Agg::Take { aggregate, value }), rest))
        }
    }
}

// An aggregate's argument and the parenthesis that closes it.
#[cycle(read_expr)]
#[tactic(auto, unfolding(crate::specs::Reading::argument_with))]
fn argument_of(alloc: Global, depth: u32, bytes: &[u8]) -> Result<(Box<Expr>, &[u8]), ReadRefusal>
    ensures { Reads (λ x. (expr_view x.0.value, x.1.now)) result (argument_with (expr_with (λ h. below (inside_at h) depth)) bytes.now) }
{
    let (value, rest) = expr_of(alloc, depth, bytes)?;
    let value = Box::new(alloc, value)?;
    let rest = skip(rest, Word::Close)?;
    Ok((value, rest))
}

#[cycle(read_expr)]
#[tactic(auto, unfolding(crate::specs::Reading::pairs_with))]
fn pairs_of(alloc: Global, depth: u32, bytes: &[u8]) -> Result<(Expr, &[u8]), ReadRefusal>
    ensures { Reads (λ x. (expr_view x.0, x.1.now)) result (pairs_with (expr_with (λ h. below (inside_at h) depth)) bytes.now) }
{
    if let Some(rest) = starts(bytes, Word::Close) {
        return Ok((Expr::Object(Vec::new(alloc)), rest));
    }
    let (pairs, rest) = pair_list(alloc, depth, bytes)?;
    let rest = skip(rest, Word::Close)?;
    Ok((Expr::Object(pairs), rest))
}

#[cycle(read_expr)]
fn pair_list(alloc: Global, depth: u32, bytes: &[u8]) -> Result<(ExprPairList, &[u8]), ReadRefusal>
    ensures { Reads (λ x. (map pair_view x.0.items, x.1.now)) result (all_many (pair_with (expr_with (λ h. below (inside_at h) depth))) words.Comma bytes.now) }
{
    let mut found = Vec::new(alloc);
    let mut rest = bytes;
    for _ in 0..bytes.len() + 1 {
        let (pair, left) = pair_of(alloc, depth, rest)?;
        found.push(pair)?;
        match starts(left, Word::Comma) {
            None => return Ok((found, left)),
            Some(next) => rest = next,
        }
    }
    Err(ReadRefusal::NotSql)
}

#[cycle(read_expr)]
#[tactic(auto, unfolding(crate::specs::Reading::pair_with))]
fn pair_of(alloc: Global, depth: u32, bytes: &[u8]) -> Result<(ExprPair, &[u8]), ReadRefusal>
    ensures { Reads (λ x. (pair_view x.0, x.1.now)) result (pair_with (expr_with (λ h. below (inside_at h) depth)) bytes.now) }
{
    let (name, rest) = text_of(alloc, bytes)?;
    let rest = skip(rest, Word::Comma)?;
    let (value, rest) = expr_of(alloc, depth, rest)?;
    Ok((ExprPair { name, value }, rest))
}

#[cycle(read_expr)]
fn ordered_below(alloc: Global, depth: u32, bytes: &[u8]) -> Result<(Expr, &[u8]), ReadRefusal>
    ensures { Reads (λ x. (expr_view x.0, x.1.now)) result (below listed_at depth bytes.now) }
{
    if depth == 0 {
        return Err(ReadRefusal::NotSql);
    }
    ordered_of(alloc, depth - 1, bytes)
}

#[cycle(read_expr)]
#[tactic(auto, unfolding(crate::specs::Reading::ordered_with))]
fn ordered_of(alloc: Global, depth: u32, bytes: &[u8]) -> Result<(Expr, &[u8]), ReadRefusal>
    ensures { Reads (λ x. (expr_view x.0, x.1.now)) result (ordered_with (expr_with (λ h. below (inside_at h) depth)) bytes.now) }
{
    let (value, rest) = expr_of(alloc, depth, bytes)?;
    let value = Box::new(alloc, value)?;
    let rest = skip(rest, Word::OrderBy)?;
    let (order, rest) = order_list(alloc, depth, rest)?;
    let rest = skip(rest, Word::OrEmptyArray)?;
    Ok((Expr::Agg(Agg::JsonAgg { value, order }), rest))
}

// Whether descending, and whether NULLs stand first.
#[tactic(auto, unfolding(crate::specs::Reading::direction_at))]
fn direction_of(bytes: &[u8]) -> Result<((bool, bool), &[u8]), ReadRefusal>
    ensures { Reads (λ x. (x.0, x.1.now)) result (direction_at bytes.now) }
{
    if let Some(rest) = starts(bytes, Word::AscNullsFirst) {
        return Ok(((false, true), rest));
    }
    if let Some(rest) = starts(bytes, Word::AscNullsLast) {
        return Ok(((false, false), rest));
    }
    if let Some(rest) = starts(bytes, Word::DescNullsFirst) {
        return Ok(((true, true), rest));
    }
    let rest = skip(bytes, Word::DescNullsLast)?;
    Ok(((true, false), rest))
}

#[cycle(read_expr)]
#[tactic(auto, unfolding(crate::specs::Reading::order_with))]
fn order_of(alloc: Global, depth: u32, bytes: &[u8]) -> Result<(Order, &[u8]), ReadRefusal>
    ensures { Reads (λ x. (order_view x.0, x.1.now)) result (order_with (expr_with (λ h. below (inside_at h) depth)) bytes.now) }
{
    let (value, rest) = expr_of(alloc, depth, bytes)?;
    let ((desc, nulls_first), rest) = direction_of(rest)?;
    Ok((
        Order {
            value,
            desc,
            nulls_first,
        },
        rest,
    ))
}

#[cycle(read_expr)]
pub(crate) fn order_list(
    alloc: Global,
    depth: u32,
    bytes: &[u8],
) -> Result<(OrderList, &[u8]), ReadRefusal>
    ensures { Reads (λ x. (map order_view x.0.items, x.1.now)) result (all_many (order_with (expr_with (λ h. below (inside_at h) depth))) words.Comma bytes.now) }
{
    let mut found = Vec::new(alloc);
    let mut rest = bytes;
    for _ in 0..bytes.len() + 1 {
        let (order, left) = order_of(alloc, depth, rest)?;
        found.push(order)?;
        match starts(left, Word::Comma) {
            None => return Ok((found, left)),
            Some(next) => rest = next,
        }
    }
    Err(ReadRefusal::NotSql)
}
