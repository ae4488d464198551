//! Arguments that name columns: `distinct_on` of a list, and `columns` of `count`.
ghost use Rattle.std.specs.Prelude.{◌≡◌, ◌≤◌, ◌==◌, ◌&&◌, IfOk, OnOk, Some, map, option_map, length, take};
ghost use Rattle.std.specs.List.{list_all, list_any};
ghost use Rattle.hq_request_tree.specs.Conditions.{are_sorts_of, fits_distinct, is_plain_sort};
ghost use Rattle.hq_request_tree.specs.Arguments.{sort_view};
ghost use Rattle.hq_base.specs.Due.{Gives, and_then};
ghost use Rattle.hq_base.specs.Json.{json_view};
ghost use Rattle.hq_base.specs.Lists.{firsts};
ghost use Rattle.hq_request_arguments.specs.Columns.{column_due, with_different, has_order, ordered, is_counted, by_distinct, distinct_columns, distinct_due, one_column, by_columns, counted_due};
ghost use Rattle.hq_request_arguments.specs.Context.{context_view};
ghost use Rattle.hq_request_arguments.specs.Given.{given_view};
ghost use Rattle.hq_request_arguments.specs.Reading.{each};
ghost use Rattle.hq_request_arguments.specs.declared.refusal.ArgRefusal.TheVariants as refusal;

use crate::reading::{Given, items_in};
use crate::{ArgRefusal, Context};
use hq_base::{Json, List, Memory};
use hq_gql_tree::RuleId;
use hq_model::{ColId, ColList, TableId, has_column};
use hq_request_tree::Sort;
use hq_schema::{ArgOrigin, TypeId};
use std::alloc::Global;

// The column that a name of the enum `p` stands for.
fn column(context: &Context<'_>, p: TypeId, json: &Json) -> Result<ColId, ArgRefusal>
    ensures { result ≡ column_due (context_view context.now) p (json_view json.now) }
{
    let Json::Str(name) = json else {
        return Err(ArgRefusal::Rule(RuleId::ValuesOfCorrectType));
    };
    match context.schema.enum_column(p, name) {
        Some(col) => Ok(col),
        None => Err(ArgRefusal::Rule(RuleId::ValuesOfCorrectType)),
    }
}

fn columns(
    alloc: Global,
    context: &Context<'_>,
    p: TypeId,
    items: &[Json],
) -> Result<ColList, ArgRefusal>
    ensures { Gives (λ cs. cs) refusal.Memory (each (column_due (context_view context.now) p) (map json_view items.now)) result }
{
    let mut columns = List::new(alloc);
    for json in items {
        columns.push(column(context, p, json)?)?;
    }
    Ok(columns)
}

// The distinct columns of a value of an argument of the type `p`, by what the argument stands for.
fn argument_columns(
    alloc: Global,
    context: &Context<'_>,
    p: TypeId,
    origin: ArgOrigin,
    json: &Json,
) -> Result<ColList, ArgRefusal>
    ensures { Gives (λ cs. cs) refusal.Memory (by_distinct (context_view context.now) (json_view json.now) p origin) result }
{
    match origin {
        ArgOrigin::DistinctOn => columns(alloc, context, p, items_in(json)),
        _ => Ok(List::new(alloc)),
    }
}

fn distinct_columns(
    alloc: Global,
    context: &Context<'_>,
    given: Option<Given<'_>>,
) -> Result<ColList, ArgRefusal>
    ensures { Gives (λ cs. cs) refusal.Memory (distinct_columns (context_view context.now) (option_map given_view given.entry)) result }
{
    match given {
        Some(given) => {
            let arg = given.arg;
            argument_columns(alloc, context, arg.ty.base(), arg.origin, &given.value)
        }
        None => Ok(List::new(alloc)),
    }
}

// Adds a column, where it is not among the columns.
fn push_different(different: &mut ColList, column: ColId) -> Result<(), Memory>
    ensures { OnOk result (different.new ≡ with_different different.old column) }
{
    if !has_column(different.as_slice(), column) {
        different.push(column)?;
    }
    Ok(())
}

// The different columns of a list, in the order in which they come first.
fn different(alloc: Global, columns: &[ColId]) -> Result<ColList, Memory>
    ensures { IfOk result (λ cs. cs ≡ firsts (λ c d. c == d) columns.now) }
{
    let mut different = List::new(alloc);
    for column in columns {
        push_different(&mut different, *column)?;
    }
    Ok(different)
}

fn is_sort_of(columns: &[ColId], sort: &Sort) -> bool
    ensures { let k = sort_view sort.now in result ≡ (is_plain_sort k && list_any (λ c. c == k.column) columns.now) }
{
    sort.through.len() == 0 && has_column(columns, sort.col)
}

fn has_sort_by(sorts: &[Sort], column: ColId) -> bool
    ensures { result ≡ list_any (λ k. k.column == column) (map sort_view sorts.now) }
{
    for sort in sorts {
        if sort.col.at() == column.at() {
            return true;
        }
    }
    false
}

fn are_all_of(columns: &[ColId], sorts: &[Sort]) -> bool
    ensures { result ≡ list_all (λ k. is_plain_sort k && list_any (λ c. c == k.column) columns.now) (map sort_view sorts.now) }
{
    for sort in sorts {
        if !is_sort_of(columns, sort) {
            return false;
        }
    }
    true
}

fn cover_all(columns: &[ColId], sorts: &[Sort]) -> bool
    ensures { result ≡ list_all (λ c. list_any (λ k. k.column == c) (map sort_view sorts.now)) columns.now }
{
    for column in columns {
        if !has_sort_by(sorts, *column) {
            return false;
        }
    }
    true
}

// Whether sorts are plain ones by exactly these columns.
fn are_sorts_of(columns: &[ColId], sorts: &[Sort]) -> bool
    ensures { result ≡ are_sorts_of columns.now (map sort_view sorts.now) }
{
    are_all_of(columns, sorts) && cover_all(columns, sorts)
}

// The first sorts, so many.
fn first_sorts(sorts: &[Sort], count: usize) -> &[Sort]
    requires { count ≤ length sorts.now }
    ensures { result.now ≡ take count sorts.now }
{
    &sorts[..count]
}

// Whether the sorts, where there are any, begin with those by exactly these columns, of which so many differ.
fn begins_with(columns: &[ColId], different: usize, sorts: &[Sort]) -> bool
    requires { different ≡ length (firsts (λ c d. c == d) columns.now) }
    ensures { result ≡ fits_distinct columns.now (map sort_view sorts.now) }
{
    let count = sorts.len();
    if count == 0 {
        return true;
    }
    if different > count {
        return false;
    }
    are_sorts_of(columns, first_sorts(sorts, different))
}

// Whether the values of a column of a table are compared.
fn has_order(context: &Context<'_>, t: TableId, column: ColId) -> bool
    ensures { result ≡ has_order (context_view context.now) t column }
{
    context.scope.column_type(t, column).is_ordered()
}

// Whether those of all of these are.
fn have_order(context: &Context<'_>, t: TableId, columns: &[ColId]) -> bool
    ensures { result ≡ list_all (has_order (context_view context.now) t) columns.now }
{
    for column in columns {
        if !has_order(context, t, *column) {
            return false;
        }
    }
    true
}

// The distinct columns, where the values of each are compared.
fn ordered_columns(
    alloc: Global,
    context: &Context<'_>,
    t: TableId,
    given: Option<Given<'_>>,
) -> Result<ColList, ArgRefusal>
    ensures { let c = context_view context.now in Gives (λ cs. cs) refusal.Memory (and_then (ordered c t) (distinct_columns c (option_map given_view given.entry))) result }
{
    let columns = distinct_columns(alloc, context, given)?;
    if have_order(context, t, columns.as_slice()) {
        Ok(columns)
    } else {
        Err(ArgRefusal::Rule(RuleId::UnorderedColumn))
    }
}

/// The columns of the argument `distinct_on` of a list of rows of a table beside these sorts, none where it is not given.
pub fn distinct_on(
    alloc: Global,
    context: &Context<'_>,
    t: TableId,
    sorts: &[Sort],
    given: Option<Given<'_>>,
) -> Result<ColList, ArgRefusal>
    ensures { Gives (λ cs. cs) refusal.Memory (distinct_due (context_view context.now) t (map sort_view sorts.now) (option_map given_view given.entry)) result }
{
    let columns = ordered_columns(alloc, context, t, given)?;
    let count = different(alloc, columns.as_slice())?.len();
    if begins_with(columns.as_slice(), count, sorts) {
        Ok(columns)
    } else {
        Err(ArgRefusal::Rule(RuleId::DistinctOrder))
    }
}

// Whether all columns are this one.
fn are_all(columns: &[ColId], column: ColId) -> bool
    ensures { result ≡ list_all (λ d. d == column) columns.now }
{
    for other in columns {
        if other.at() != column.at() {
            return false;
        }
    }
    true
}

// The one column of a list, None of an empty one.
fn one_column(columns: &[ColId]) -> Result<Option<ColId>, ArgRefusal>
    ensures { result ≡ one_column columns.now }
{
    match columns.first() {
        Some(first) if are_all(columns, *first) => Ok(Some(*first)),
        Some(_) => Err(ArgRefusal::Rule(RuleId::CountColumns)),
        None => Ok(None),
    }
}

// The column of a value of an argument of the type `p`, by what the argument stands for.
fn argument_column(
    alloc: Global,
    context: &Context<'_>,
    p: TypeId,
    origin: ArgOrigin,
    json: &Json,
) -> Result<Option<ColId>, ArgRefusal>
    ensures { Gives (λ c. c) refusal.Memory (by_columns (context_view context.now) (json_view json.now) p origin) result }
{
    match origin {
        ArgOrigin::Columns => {
            let columns = columns(alloc, context, p, items_in(json))?;
            one_column(columns.as_slice())
        }
        _ => Ok(None),
    }
}

/// The column that `count` counts, None where it counts rows.
pub fn counted(
    alloc: Global,
    context: &Context<'_>,
    given: Option<Given<'_>>,
) -> Result<Option<ColId>, ArgRefusal>
    ensures { Gives (λ c. c) refusal.Memory (counted_due (context_view context.now) (option_map given_view given.entry)) result }
{
    match given {
        Some(given) => {
            let arg = given.arg;
            argument_column(alloc, context, arg.ty.base(), arg.origin, &given.value)
        }
        None => Ok(None),
    }
}

/// Whether the values of a column of a table are counted, or different ones alone: of the latter there is an order.
pub fn is_counted(context: &Context<'_>, t: TableId, column: ColId, distinct: bool) -> bool
    ensures { result ≡ is_counted (context_view context.now) t (Some column) distinct }
{
    !distinct || has_order(context, t, column)
}
