//! The sort keys of each list and the needed columns of each aggregate can be counted in 64 bits. Each is seen by a walk.
ghost use Rattle.std.specs.Prelude.{◌≡◌, ◌≤◌, ◌^◌, ◌+◌, [], OnOk, length};
ghost use Rattle.hq_model.specs.Schema.{table};
ghost use Rattle.hq_model.specs.Selected.{entries};
ghost use Rattle.hq_request_tree.specs.Arguments.{arguments_view};
ghost use Rattle.hq_request_tree.specs.Fields.{origin_of, field_view, part_view, keyed_field_view, keyed_part_view};
ghost use Rattle.hq_request_tree.specs.Resolve.{origin_table};
ghost use Rattle.hq_translation.specs.Aggregates.{needed};
ghost use Rattle.hq_translation.specs.Correct.{AreFew, IsFew, AreFewParts, IsFewPart};
ghost use Rattle.hq_translation.specs.Lists.{list_sorts};
ghost use Rattle.hq_compile_tables.specs.Contexts.{context_schema};
ghost use Rattle.hq_compile.specs.Fields.{fields_view, parts_view};

use hq_base::Memory;
use hq_compile_lists::needed;
use hq_compile_tables::Context;
use hq_model::{RelId, TableId};
use hq_request_tree::{
    AggFields, AggPart, AggParts, Args, AskField, AskFields, KeyedAggPart, KeyedAskField,
};
use std::alloc::Global;

// How many entries count at most: with none in `order_by`, the distinct columns.
fn entry_count(args: &Args) -> usize
    ensures { result ≡ length (entries (arguments_view args.now)) }
{
    let sorts = args.sorts.len();
    if sorts > 0 {
        sorts
    } else {
        args.distinct.len()
    }
}

// The sum of two counts, where it has 64 bits.
fn count_both(first: usize, second: usize) -> Result<(), Memory>
    ensures { OnOk result (first + second ≤ 2 ^ 64) }
{
    match first.checked_add(second) {
        Some(_) => Ok(()),
        None => Err(Memory),
    }
}

fn count_sorts(context: &Context, t: TableId, args: &Args) -> Result<(), Memory>
    ensures { OnOk result (length (list_sorts (context_schema context.now) t (arguments_view args.now)) ≤ 2 ^ 64) }
{
    count_both(entry_count(args), context.key(t).len())
}

fn count_needed(alloc: Global, fields: &AggFields) -> Result<(), Memory>
    ensures { OnOk result (length (needed fields.now []) ≤ 2 ^ 64) }
{
    let columns = needed(alloc, fields.as_slice())?;
    let _count = columns.len();
    Ok(())
}

// The table of the rows of a list below a row of table t.
fn rows_table(context: &Context, t: TableId, table: TableId, rel: Option<RelId>) -> TableId
    ensures { result ≡ origin_table (origin_of table rel) (context_schema context.now) t }
{
    match rel {
        None => table,
        Some(r) => context.remote(t, r),
    }
}

/// Counts the lists of fields at a row of table t.
#[cycle(counts)]
pub(crate) fn count_fields(
    alloc: Global,
    context: &Context,
    t: TableId,
    fields: &AskFields,
) -> Result<(), Memory>
    ensures { OnOk result (AreFew (fields_view fields.now.items) (context_schema context.now) t) }
{
    for keyed in fields {
        count_keyed(alloc, context, t, keyed)?;
    }
    Ok(())
}

#[cycle(counts)]
fn count_keyed(
    alloc: Global,
    context: &Context,
    t: TableId,
    keyed: &KeyedAskField,
) -> Result<(), Memory>
    ensures { OnOk result (IsFew (keyed_field_view keyed.now).1 (context_schema context.now) t) }
{
    count_field(alloc, context, t, &keyed.field)
}

#[cycle(counts)]
fn count_field(alloc: Global, context: &Context, t: TableId, field: &AskField) -> Result<(), Memory>
    ensures { OnOk result (IsFew (field_view field.now) (context_schema context.now) t) }
{
    match field {
        AskField::Column { .. } => Ok(()),
        AskField::Typename { .. } => Ok(()),
        AskField::NoQueries => Ok(()),
        AskField::Introspect { .. } => Ok(()),
        AskField::Object { rel, fields } => {
            count_fields(alloc, context, context.remote(t, *rel), fields)
        }
        AskField::ByPk { table, fields, .. } => count_fields(alloc, context, *table, fields),
        AskField::List {
            table,
            rel,
            args,
            fields,
        } => {
            let rows = rows_table(context, t, *table, *rel);
            count_sorts(context, rows, args)?;
            count_fields(alloc, context, rows, fields)
        }
        AskField::Aggregate {
            table,
            rel,
            args,
            parts,
        } => {
            let rows = rows_table(context, t, *table, *rel);
            count_sorts(context, rows, args)?;
            count_parts(alloc, context, rows, parts)
        }
    }
}

#[cycle(counts)]
fn count_parts(alloc: Global, context: &Context, u: TableId, parts: &AggParts) -> Result<(), Memory>
    ensures { OnOk result (AreFewParts (parts_view parts.now.items) (context_schema context.now) u) }
{
    for keyed in parts {
        count_keyed_part(alloc, context, u, keyed)?;
    }
    Ok(())
}

#[cycle(counts)]
fn count_keyed_part(
    alloc: Global,
    context: &Context,
    u: TableId,
    keyed: &KeyedAggPart,
) -> Result<(), Memory>
    ensures { OnOk result (IsFewPart (keyed_part_view keyed.now).1 (context_schema context.now) u) }
{
    count_part(alloc, context, u, &keyed.part)
}

#[cycle(counts)]
fn count_part(alloc: Global, context: &Context, u: TableId, part: &AggPart) -> Result<(), Memory>
    ensures { OnOk result (IsFewPart (part_view part.now) (context_schema context.now) u) }
{
    match part {
        AggPart::Fields(fields) => count_needed(alloc, fields),
        AggPart::Nodes(fields) => count_fields(alloc, context, u, fields),
        AggPart::Typename { .. } => Ok(()),
    }
}
