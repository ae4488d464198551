//! The columns of its rows that a list uses.
ghost use Rattle.std.specs.Prelude.{◌≡◌, ◌++◌, IfOk, OnOk};
ghost use Rattle.hq_request_tree.specs.Arguments.{arguments_view};
ghost use Rattle.hq_translation.specs.Lists.{list_sorts, list_used, once};
ghost use Rattle.hq_translation.specs.Sorts.{used_sorts};
ghost use Rattle.hq_compile_tables.specs.Contexts.{context_schema};

use crate::{add_used_sorts, list_sorts};
use hq_base::{List, Memory};
use hq_compile_masks::add_columns;
use hq_compile_tables::{Context, each_once};
use hq_model::{ColId, ColList, TableId};
use hq_request_tree::Args;
use std::alloc::Global;

/// Adds columns.
pub fn add_each(more: &[ColId], columns: &mut ColList) -> Result<(), Memory>
    ensures { OnOk result (columns.new ≡ columns.old ++ more.now) }
{
    for column in more {
        columns.push(*column)?;
    }
    Ok(())
}

// Adds those of the sort keys.
fn add_sorts(
    alloc: Global,
    context: &Context,
    t: TableId,
    args: &Args,
    columns: &mut ColList,
) -> Result<(), Memory>
    ensures { let s = context_schema context.now in
        OnOk result (columns.new ≡ columns.old ++ used_sorts (list_sorts s t (arguments_view args.now))) }
{
    let sorts = list_sorts(alloc, context, t, args)?;
    add_used_sorts(sorts.as_slice(), columns)
}

// Adds those of DISTINCT ON.
fn add_distinct(alloc: Global, args: &Args, columns: &mut ColList) -> Result<(), Memory>
    ensures { OnOk result (columns.new ≡ columns.old ++ (once (arguments_view args.now)).distinct) }
{
    let once = each_once(alloc, args.distinct.as_slice())?;
    add_each(once.as_slice(), columns)
}

/// The columns of its rows that a list of rows of table t uses, with those of its outputs.
pub fn list_used(
    alloc: Global,
    context: &Context,
    t: TableId,
    args: &Args,
    outs: &[ColId],
) -> Result<ColList, Memory>
    ensures { IfOk result (λ columns. columns ≡ list_used (context_schema context.now) t (arguments_view args.now) outs.now) }
{
    let mut columns = List::new(alloc);
    add_columns(&args.filter, &mut columns)?;
    add_sorts(alloc, context, t, args, &mut columns)?;
    add_distinct(alloc, args, &mut columns)?;
    add_each(outs, &mut columns)?;
    Ok(columns)
}
