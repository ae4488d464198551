//! The parts of a select, put together.
//!
//! The readers of a select and of its conditions call one another as deep as parentheses are open. What they hand on lies on the
//! heap, and what is made of it is made here, in functions that stand apart, so that their frames are small: 2,000 open
//! parentheses are read on 8 MiB of stack.
ghost use Rattle.std.specs.Prelude.{◌≡◌, ◌++◌, ◌∷◌, [], List, ℕ, map, Some, OnOk, option_map};
ghost use Rattle.hq_sql_tree.specs.Tree as tree;
ghost use Rattle.hq_sql_tree.specs.Tree.{SelectTree, FromTree, PredTree, joins_of};
ghost use Rattle.hq_sql_tree.specs.View.{expr_view, out_view, order_view, select_view, from_view, join_view, pred_view, filter_view, filter_of};
ghost use Rattle.hq_sql_expr.specs.Reading.{Reads};
ghost use Rattle.hq_sql_text.specs.Reading.{counts_with, shaped};

use crate::clauses::count_clause;
use crate::shape::shaped;
use hq_sql_expr::ReadRefusal;
use hq_sql_tree::{ExprList, From, JoinList, OrderList, OutList, Pred, PredList, Select, Word};
use std::alloc::{AllocError, Global};

/// What stands behind the joins of a select.
#[derive(Drop)]
pub(crate) struct End {
    pub filter: Option<Box<Pred>>,
    pub order: OrderList,
    pub limit: Option<u64>,
    pub offset: Option<u64>,
}

/// The condition, and the bytes behind it.
#[inline(never)]
pub(crate) fn boxed<'a>(
    alloc: Global,
    pred: Pred,
    rest: &'a [u8],
) -> Result<(Box<Pred>, &'a [u8]), ReadRefusal>
    ensures { Reads {Y = PredTree × List ℕ} (λ x. (pred_view x.0.value, x.1.now)) result (Some (pred_view pred, rest.now)) }
{
    Ok((Box::new(alloc, pred)?, rest))
}

/// What a select takes its rows from, and the bytes behind it.
#[inline(never)]
pub(crate) fn boxed_from<'a>(
    alloc: Global,
    from: From,
    rest: &'a [u8],
) -> Result<(Box<From>, &'a [u8]), ReadRefusal>
    ensures { Reads {Y = FromTree × List ℕ} (λ x. (from_view x.0.value, x.1.now)) result (Some (from_view from, rest.now)) }
{
    Ok((Box::new(alloc, from)?, rest))
}

/// Adds the condition behind the others.
#[inline(never)]
pub(crate) fn add_last(preds: &mut PredList, pred: Box<Pred>) -> Result<(), AllocError>
    ensures { OnOk result (map pred_view preds.new.items ≡ map pred_view preds.old.items ++ pred_view pred.value ∷ []) }
{
    preds.push(Box::into_inner(pred))?;
    Ok(())
}

/// Adds the condition before the others.
#[inline(never)]
pub(crate) fn add_first(preds: &mut PredList, pred: Box<Pred>) -> Result<(), AllocError>
    ensures { OnOk result (map pred_view preds.new.items ≡ pred_view pred.value ∷ map pred_view preds.old.items) }
{
    preds.insert(0, Box::into_inner(pred))?;
    Ok(())
}

/// The limit and the offset, behind WHERE and ORDER BY.
#[inline(never)]
#[tactic(auto, unfolding(crate::specs::Reading::counts_with))]
pub(crate) fn counts_of(
    alloc: Global,
    filter: Option<Box<Pred>>,
    order: OrderList,
    bytes: &[u8],
) -> Result<(Box<End>, &[u8]), ReadRefusal>
    ensures { Reads
        (λ x. (
          record {
            condition = filter_of (option_map (λ p. pred_view p.value) x.0.value.filter);
            keys = map order_view x.0.value.order.items;
            limit = x.0.value.limit;
            offset = x.0.value.offset;
          },
          x.1.now,
        ))
        result (counts_with (filter_of (option_map (λ p. pred_view p.value) filter)) (map order_view order.items) bytes.now) }
{
    let (limit, rest) = count_clause(alloc, Word::Limit, bytes)?;
    let (offset, rest) = count_clause(alloc, Word::Offset, rest)?;
    let end = End {
        filter,
        order,
        limit,
        offset,
    };
    Ok((Box::new(alloc, end)?, rest))
}

fn unboxed(filter: Option<Box<Pred>>) -> Option<Pred>
    ensures { filter_view result ≡ filter_of (option_map (λ p. pred_view p.value) filter) }
{
    match filter {
        Some(pred) => Some(Box::into_inner(pred)),
        None => None,
    }
}

/// The rows of these parts, which are a fold where they are written as one, and the bytes behind them.
#[inline(never)]
pub(crate) fn rows_of<'a>(
    alloc: Global,
    distinct: ExprList,
    outs: OutList,
    from: Box<From>,
    joins: JoinList,
    end: Box<End>,
    rest: &'a [u8],
) -> Result<(Box<Select>, &'a [u8]), ReadRefusal>
    ensures { Reads {Y = SelectTree × List ℕ} (λ x. (select_view x.0.value, x.1.now)) result
        (Some (
          shaped
              (tree.rows (map expr_view distinct.items) (map out_view outs.items) (from_view from.value)
              (joins_of (map join_view joins.items)) (filter_of (option_map (λ p. pred_view p.value) end.value.filter))
              (map order_view end.value.order.items) end.value.limit end.value.offset),
          rest.now,
        )) }
{
    let End {
        filter,
        order,
        limit,
        offset,
    } = Box::into_inner(end);
    let rows = Select::Rows {
        distinct,
        outs,
        from: Box::into_inner(from),
        joins,
        filter: unboxed(filter),
        order,
        limit,
        offset,
    };
    Ok((Box::new(alloc, shaped(rows))?, rest))
}
