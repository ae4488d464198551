//! The select of `aggregate`: over the selected rows, whose outputs are the columns that its fields need.
ghost use Rattle.std.specs.Prelude.{◌≡◌, ◌+◌, ◌∷◌, [], IfOk, OnOk, map, Some, None, true};
ghost use Rattle.hq_model.specs.Schema.{table};
ghost use Rattle.hq_request_tree.specs.Arguments.{arguments_view};
ghost use Rattle.hq_sql_tree.specs.Tree as tree;
ghost use Rattle.hq_sql_tree.specs.View.{expr_view, pair_view, out_view, select_view};
ghost use Rattle.hq_translation.specs.Names.{fold_alias, value_name, needed_name, unit_name};
ghost use Rattle.hq_translation.specs.Aggregates.{needed, needed_cell, counted_form, taken_value, taken_pairs, count_value, summary_value, summary_pairs, needed_columns, needed_outputs, summary_used, summary_numbers, folded_select, plain_select, summary_select};
ghost use Rattle.hq_translation.specs.Lists.{list_used, list_rows, children_from};
ghost use Rattle.hq_translation.specs.Masks.{shown_look};
ghost use Rattle.hq_compile_tables.specs.Contexts.{context_schema, context_granted};
ghost use Rattle.hq_compile_tables.specs.Shown.{look_in, look_of};
ghost use Rattle.hq_compile_lists.specs.Starts.{start_tie};

use crate::needs::{needed, place_of, some_aggregate};
use crate::{ListStart, fold, list_body, list_rows, list_used, object, one_row};
use hq_base::{Aggregate, Memory, Ty};
use hq_compile_tables::{
    Context, MaskPlace, RowUse, Shown, compared_form, fold_alias, needed_name, row_limit,
    shown_column, table_shown, type_in, unit_name, value_name,
};
use hq_model::{ColId, Column, TableId};
use hq_request_tree::{AggCol, AggField, KeyedAggCol, KeyedAggField};
use hq_sql_tree::{Agg, ColumnForm, Expr, ExprPair, ExprPairList, Out, OutList, Select};
use std::alloc::Global;

// A needed column at the fold of number n.
fn needed_cell(
    alloc: Global,
    n: u64,
    needed: &[ColId],
    column: ColId,
    form: ColumnForm,
) -> Result<Expr, Memory>
    ensures { IfOk result (λ e. expr_view e ≡ needed_cell n needed.now column form) }
{
    let alias = fold_alias(alloc, n)?;
    let name = needed_name(alloc, place_of(column, needed))?;
    Ok(Expr::Column { alias, name, form })
}

fn taken(alloc: Global, aggregate: Aggregate, value: Expr) -> Result<Expr, Memory>
    ensures { IfOk result (λ e. expr_view e ≡ tree.aggregate (tree.take aggregate (expr_view value))) }
{
    let value = Box::new(alloc, value)?;
    Ok(Expr::Agg(Agg::Take { aggregate, value }))
}

// A column of an aggregate.
fn taken_value(
    alloc: Global,
    aggregate: Aggregate,
    columns: &[Column],
    n: u64,
    needed: &[ColId],
    field: &AggCol,
) -> Result<Expr, Memory>
    ensures { IfOk result (λ e. expr_view e ≡ taken_value aggregate columns.now n needed.now field.now) }
{
    match field {
        AggCol::Column { col } => {
            let form = compared_form(type_in(columns, *col));
            let value = needed_cell(alloc, n, needed, *col, form)?;
            taken(alloc, aggregate, value)
        }
        AggCol::Typename { name } => Ok(Expr::Text(name.copy(alloc)?)),
    }
}

fn taken_pair(
    alloc: Global,
    aggregate: Aggregate,
    columns: &[Column],
    n: u64,
    needed: &[ColId],
    keyed: &KeyedAggCol,
) -> Result<ExprPair, Memory>
    ensures { IfOk result (λ pair. pair_view pair ≡ record { name = keyed.now.key; value = taken_value aggregate columns.now n needed.now keyed.now.field }) }
{
    let name = keyed.key.copy(alloc)?;
    let value = taken_value(alloc, aggregate, columns, n, needed, &keyed.field)?;
    Ok(ExprPair { name, value })
}

fn taken_pairs(
    alloc: Global,
    aggregate: Aggregate,
    columns: &[Column],
    n: u64,
    needed: &[ColId],
    fields: &[KeyedAggCol],
) -> Result<ExprPairList, Memory>
    ensures { IfOk result (λ pairs. map pair_view pairs.items ≡ taken_pairs aggregate columns.now n needed.now fields.now) }
{
    let mut pairs = Vec::new(alloc);
    for keyed in fields {
        pairs.push(taken_pair(alloc, aggregate, columns, n, needed, keyed)?)?;
    }
    Ok(pairs)
}

// The object of the columns of an aggregate.
fn taken_object(
    alloc: Global,
    aggregate: Aggregate,
    columns: &[Column],
    n: u64,
    needed: &[ColId],
    fields: &[KeyedAggCol],
) -> Result<Expr, Memory>
    ensures { IfOk result (λ e. expr_view e ≡ tree.object (tree.pairs_of (taken_pairs aggregate columns.now n needed.now fields.now))) }
{
    let pairs = taken_pairs(alloc, aggregate, columns, n, needed, fields)?;
    Ok(object(pairs))
}

// A number of values of a column.
fn counted(alloc: Global, value: Expr, distinct: bool) -> Result<Expr, Memory>
    ensures { IfOk result (λ e. expr_view e ≡ tree.aggregate (tree.count (expr_view value) distinct)) }
{
    let value = Box::new(alloc, value)?;
    Ok(Expr::Agg(Agg::Count { value, distinct }))
}

// How a column of this type is counted: different values are compared.
fn counted_form(distinct: bool, ty: Ty) -> ColumnForm
    ensures { result ≡ counted_form distinct ty }
{
    if distinct {
        compared_form(ty)
    } else {
        ColumnForm::Plain
    }
}

// A number of rows, or of values.
fn count_value(
    alloc: Global,
    columns: &[Column],
    n: u64,
    needed: &[ColId],
    column: Option<ColId>,
    distinct: bool,
) -> Result<Expr, Memory>
    ensures { IfOk result (λ e. expr_view e ≡ count_value columns.now n needed.now column distinct) }
{
    match column {
        None => Ok(Expr::Agg(Agg::CountAll)),
        Some(column) => {
            let form = counted_form(distinct, type_in(columns, column));
            let value = needed_cell(alloc, n, needed, column, form)?;
            counted(alloc, value, distinct)
        }
    }
}

// A field of `aggregate`.
fn summary_value(
    alloc: Global,
    columns: &[Column],
    n: u64,
    needed: &[ColId],
    field: &AggField,
) -> Result<Expr, Memory>
    ensures { IfOk result (λ e. expr_view e ≡ summary_value columns.now n needed.now field.now) }
{
    match field {
        AggField::Count { col, distinct } => {
            count_value(alloc, columns, n, needed, *col, *distinct)
        }
        AggField::Columns {
            aggregate,
            columns: fields,
        } => taken_object(alloc, *aggregate, columns, n, needed, fields.as_slice()),
        AggField::Typename { name } => Ok(Expr::Text(name.copy(alloc)?)),
    }
}

fn summary_pair(
    alloc: Global,
    columns: &[Column],
    n: u64,
    needed: &[ColId],
    keyed: &KeyedAggField,
) -> Result<ExprPair, Memory>
    ensures { IfOk result (λ pair. pair_view pair ≡ record { name = keyed.now.key; value = summary_value columns.now n needed.now keyed.now.field }) }
{
    let name = keyed.key.copy(alloc)?;
    let value = summary_value(alloc, columns, n, needed, &keyed.field)?;
    Ok(ExprPair { name, value })
}

fn summary_pairs(
    alloc: Global,
    columns: &[Column],
    n: u64,
    needed: &[ColId],
    fields: &[KeyedAggField],
) -> Result<ExprPairList, Memory>
    ensures { IfOk result (λ pairs. map pair_view pairs.items ≡ summary_pairs columns.now n needed.now fields.now) }
{
    let mut pairs = Vec::new(alloc);
    for keyed in fields {
        pairs.push(summary_pair(alloc, columns, n, needed, keyed)?)?;
    }
    Ok(pairs)
}

fn needed_output(alloc: Global, shown: &Shown, column: ColId, i: u64) -> Result<Out, Memory>
    ensures { IfOk result (λ out. out_view out ∷ [] ≡ needed_columns (look_of shown.now) (column ∷ []) i) }
{
    let value = shown_column(alloc, shown, column)?;
    let name = needed_name(alloc, i)?;
    Ok(Out { value, name })
}

// The needed columns as outputs, numbered from 0.
fn needed_columns(alloc: Global, shown: &Shown, needed: &[ColId]) -> Result<OutList, Memory>
    ensures { IfOk result (λ outs. map out_view outs.items ≡ needed_columns (look_of shown.now) needed.now 0) }
{
    let mut outs = Vec::new(alloc);
    for (i, column) in needed.iter().enumerate() {
        outs.push(needed_output(alloc, shown, *column, i as u64)?)?;
    }
    Ok(outs)
}

// The output of rows of which only the number counts.
fn unit_output(alloc: Global) -> Result<OutList, Memory>
    ensures { IfOk result (λ outs. map out_view outs.items ≡ record { value = tree.bool true; name = unit_name } ∷ []) }
{
    let name = unit_name(alloc)?;
    let mut outs = Vec::new(alloc);
    outs.push(Out {
        value: Expr::Bool(true),
        name,
    })?;
    Ok(outs)
}

fn needed_outputs(alloc: Global, shown: &Shown, needed: &[ColId]) -> Result<OutList, Memory>
    ensures { IfOk result (λ outs. map out_view outs.items ≡ needed_outputs (look_of shown.now) needed.now) }
{
    match needed {
        [] => unit_output(alloc),
        [_, ..] => needed_columns(alloc, shown, needed),
    }
}

// The needed columns as outputs of rows of table t at the alias of number n, behind the joins of masks.
fn row_outputs(
    alloc: Global,
    context: &Context,
    t: TableId,
    n: u64,
    places: &[MaskPlace],
    needed: &[ColId],
) -> Result<OutList, Memory>
    ensures { let look = look_in places.now (table (context_schema context.now) t).columns n in
        IfOk result (λ outs. map out_view outs.items ≡ needed_outputs look needed.now) }
{
    let shown = table_shown(context, t, n, places);
    needed_outputs(alloc, &shown, needed)
}

// The selected rows, without the permission's limit, whose outputs are the needed columns.
fn needed_rows(
    alloc: Global,
    context: &Context,
    start: &ListStart,
    t: TableId,
    n: u64,
    needed: &[ColId],
    next: &mut u64,
) -> Result<Select, Memory>
    requires { next.old ≡ n + 1 }
    ensures select { let s = context_schema context.now in let g = context_granted context.now in let a = arguments_view start.now.args.now in
        let cs = list_used s t a needed.now in let outs = needed_outputs (shown_look s g t cs n) needed.now in
        IfOk result (λ select. select_view select ≡ list_rows s g t cs a n (start_tie s start.now n) a.limit outs []) }
    ensures numbers { let s = context_schema context.now in let a = arguments_view start.now.args.now in
        OnOk result (next.new ≡ children_from s (context_granted context.now) t (list_used s t a needed.now) a n) }
{
    let used = list_used(alloc, context, t, start.args, needed)?;
    let body = list_body(alloc, context, start, t, n, used.as_slice(), next)?;
    let places = body.masks.places.as_slice();
    let outs = row_outputs(alloc, context, t, n, places, needed)?;
    let limit = row_limit(context, t, RowUse::Aggregate, start.args.limit);
    let offset = start.args.offset;
    list_rows(
        alloc,
        context,
        t,
        n,
        body,
        outs,
        Vec::new(alloc),
        limit,
        offset,
    )
}

// The output of the values of fields: one object.
fn summary_output(
    alloc: Global,
    columns: &[Column],
    n: u64,
    needed: &[ColId],
    fields: &[KeyedAggField],
) -> Result<Out, Memory>
    ensures { IfOk result (λ out. out_view out ≡ record { value = tree.object (tree.pairs_of (summary_pairs columns.now n needed.now fields.now)); name = value_name }) }
{
    let name = value_name(alloc)?;
    let pairs = summary_pairs(alloc, columns, n, needed, fields)?;
    Ok(Out {
        value: object(pairs),
        name,
    })
}

// Over the selected rows.
fn folded_select(
    alloc: Global,
    context: &Context,
    start: &ListStart,
    t: TableId,
    n: u64,
    fields: &[KeyedAggField],
    next: &mut u64,
) -> Result<Select, Memory>
    requires { next.old ≡ n + 1 }
    ensures select { let s = context_schema context.now in let a = arguments_view start.now.args.now in
        IfOk result (λ select. select_view select ≡ folded_select fields.now s (context_granted context.now) t a n (start_tie s start.now n)) }
    ensures numbers { let s = context_schema context.now in let a = arguments_view start.now.args.now in
        OnOk result (next.new ≡ children_from s (context_granted context.now) t (summary_used s t a fields.now) a n) }
{
    let needs = needed(alloc, fields)?;
    let rows = needed_rows(alloc, context, start, t, n, needs.as_slice(), next)?;
    let rows = Box::new(alloc, rows)?;
    let alias = fold_alias(alloc, n)?;
    let out = summary_output(alloc, context.columns(t), n, needs.as_slice(), fields)?;
    Ok(fold(out, rows, alias))
}

// Over one row, where no aggregate occurs.
fn plain_select(
    alloc: Global,
    context: &Context,
    t: TableId,
    n: u64,
    fields: &[KeyedAggField],
) -> Result<Select, Memory>
    ensures { IfOk result (λ select. select_view select ≡ plain_select fields.now (context_schema context.now) t n) }
{
    let columns = needed(alloc, fields)?;
    let pairs = summary_pairs(alloc, context.columns(t), n, columns.as_slice(), fields)?;
    one_row(alloc, n, object(pairs), Vec::new(alloc))
}

/// The select of `aggregate` over rows of table t, which begin so, at the alias of number n.
pub fn summary_select(
    alloc: Global,
    context: &Context,
    start: &ListStart,
    t: TableId,
    n: u64,
    fields: &[KeyedAggField],
    next: &mut u64,
) -> Result<Select, Memory>
    requires { next.old ≡ n + 1 }
    ensures select { let s = context_schema context.now in let a = arguments_view start.now.args.now in
        IfOk result (λ select. select_view select ≡ summary_select fields.now s (context_granted context.now) t a n (start_tie s start.now n)) }
    ensures numbers { OnOk result (next.new ≡ n + summary_numbers fields.now (context_schema context.now) (context_granted context.now) t (arguments_view start.now.args.now)) }
{
    if some_aggregate(fields) {
        folded_select(alloc, context, start, t, n, fields, next)
    } else {
        plain_select(alloc, context, t, n, fields)
    }
}
