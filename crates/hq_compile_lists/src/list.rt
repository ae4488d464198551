//! The select of a list: the array of its rows' objects in order.
ghost use Rattle.std.specs.Prelude.{◌≡◌, ◌+◌, ◌∷◌, [], ℕ, List, IfOk, OnOk, map};
ghost use Rattle.hq_model.specs.Bexp.{bexp_view};
ghost use Rattle.hq_model.specs.Schema.{table};
ghost use Rattle.hq_model.specs.Selected.{smaller};
ghost use Rattle.hq_request_tree.specs.Arguments.{arguments_view};
ghost use Rattle.hq_sql_tree.specs.Tree as tree;
ghost use Rattle.hq_sql_tree.specs.Tree.{PredTree};
ghost use Rattle.hq_sql_tree.specs.View.{expr_view, order_view, out_view, pair_view, select_view, join_view, pred_view};
ghost use Rattle.hq_translation.specs.Conditions.{with_member};
ghost use Rattle.hq_translation.specs.Lists.{once, list_sorts, distinct_columns, where_numbers, children_from, list_select};
ghost use Rattle.hq_translation.specs.Masks.{filter_numbers, filter_predicate, where_mode};
ghost use Rattle.hq_translation.specs.Names.{fold_alias, value_name};
ghost use Rattle.hq_translation.specs.Predicates.{predicate};
ghost use Rattle.hq_translation.specs.Sorts.{sorts_numbers, sorts_joins, orders, key_outputs, output_orders};
ghost use Rattle.hq_compile_tables.specs.Contexts.{context_schema, context_granted};
ghost use Rattle.hq_compile_tables.specs.Shown.{look_in, look_of};
ghost use Rattle.hq_compile_lists.specs.Bodies.{IsBody, rows_of};
ghost use Rattle.hq_compile_lists.specs.Starts.{start_tie};

use crate::row::{Row, object};
use crate::start::{ListStart, list_tie};
use crate::{SortParts, list_sorts, output_orders, sort_parts};
use hq_base::{Memory, Txt};
use hq_compile_masks::{mask_parts, where_predicate};
use hq_compile_predicates::{MaskParts, row_members};
use hq_compile_tables::{
    Context, MaskPlace, RowUse, Shown, both_joins, compared_shown, each_once, fold_alias,
    from_table, row_limit, table_shown, value_name, value_output, where_of, wide, with_member,
};
use hq_model::{ColId, TableId};
use hq_request_tree::Args;
use hq_sql_tree::{
    Agg, ColumnForm, Expr, ExprList, JoinList, OrderList, Out, OutList, PredList, Select,
};
use std::alloc::Global;

/// What stands in the select of a list's rows beside its outputs and the joins of its children.
#[derive(Drop)]
pub struct ListBody {
    pub distinct: ExprList,
    pub masks: MaskParts,
    /// The members of WHERE.
    pub members: PredList,
    pub sorts: SortParts,
}

// The columns of DISTINCT ON.
fn distinct_columns(alloc: Global, shown: &Shown, distinct: &[ColId]) -> Result<ExprList, Memory>
    ensures { IfOk result (λ es. map expr_view es.items ≡ distinct_columns shown.now.columns.now (look_of shown.now) distinct.now) }
{
    let mut exprs = Vec::new(alloc);
    for column in distinct {
        exprs.push(compared_shown(alloc, shown, *column)?)?;
    }
    Ok(exprs)
}

// DISTINCT ON of a list of rows of table t at the alias of number n, behind the joins of masks.
fn list_distinct(
    alloc: Global,
    context: &Context,
    t: TableId,
    n: u64,
    places: &[MaskPlace],
    args: &Args,
) -> Result<ExprList, Memory>
    ensures { let columns = (table (context_schema context.now) t).columns in
        IfOk result (λ es. map expr_view es.items ≡ distinct_columns columns (look_in places.now columns n) (once (arguments_view args.now)).distinct) }
{
    let once = each_once(alloc, args.distinct.as_slice())?;
    let shown = table_shown(context, t, n, places);
    distinct_columns(alloc, &shown, once.as_slice())
}

// The members of WHERE of a list of rows of table t at the alias of number n, behind the joins of masks.
fn list_members(
    alloc: Global,
    context: &Context,
    start: &ListStart,
    t: TableId,
    n: u64,
    places: &[MaskPlace],
    next: &mut u64,
) -> Result<PredList, Memory>
    ensures members { let s = context_schema context.now in let g = context_granted context.now in
        let look = look_in places.now (table s t).columns n in
        let wanted = predicate (bexp_view start.now.args.now.filter) s (where_mode s g) look t n (next.old + filter_numbers s g t) in
        IfOk result (λ all. map pred_view all.items ≡ with_member (start_tie s start.now n) (with_member (filter_predicate s g t n next.old) (with_member wanted []))) }
    ensures numbers { let s = context_schema context.now in let g = context_granted context.now in
        OnOk result (next.new ≡ next.old + filter_numbers s g t + where_numbers (bexp_view start.now.args.now.filter) s g t) }
{
    let tie = list_tie(alloc, context, start, n)?;
    let members = row_members(alloc, context, t, n, tie, next)?;
    let wanted = where_predicate(alloc, context, t, n, places, &start.args.filter, next)?;
    with_member(members, wanted)
}

// What the sort keys of a list put into its rows.
fn list_parts(
    alloc: Global,
    context: &Context,
    t: TableId,
    n: u64,
    places: &[MaskPlace],
    args: &Args,
    next: &mut u64,
) -> Result<SortParts, Memory>
    ensures joins { let s = context_schema context.now in let g = context_granted context.now in
        IfOk result (λ parts. map join_view parts.joins.items ≡ sorts_joins (list_sorts s t (arguments_view args.now)) s g t n next.old) }
    ensures orders { let s = context_schema context.now in let g = context_granted context.now in
        let look = look_in places.now (table s t).columns n in
        IfOk result (λ parts. map order_view parts.orders.items ≡ orders (list_sorts s t (arguments_view args.now)) s g look t n next.old) }
    ensures outputs { let s = context_schema context.now in let g = context_granted context.now in
        let look = look_in places.now (table s t).columns n in
        IfOk result (λ parts. map out_view parts.outputs.items ≡ key_outputs (list_sorts s t (arguments_view args.now)) s g look t n next.old 0) }
    ensures numbers { let s = context_schema context.now in
        OnOk result (next.new ≡ next.old + sorts_numbers (list_sorts s t (arguments_view args.now)) s (context_granted context.now) t) }
{
    let sorts = list_sorts(alloc, context, t, args)?;
    sort_parts(alloc, context, t, n, places, sorts.as_slice(), next)
}

/// The body of a list of rows of table t at the alias of number n, whose rows use these columns.
pub fn list_body(
    alloc: Global,
    context: &Context,
    start: &ListStart,
    t: TableId,
    n: u64,
    used: &[ColId],
    next: &mut u64,
) -> Result<ListBody, Memory>
    requires { next.old ≡ n + 1 }
    ensures body { let s = context_schema context.now in let a = arguments_view start.now.args.now in
        IfOk result (λ body. IsBody s (context_granted context.now) t used.now a n (start_tie s start.now n) body) }
    ensures numbers { let a = arguments_view start.now.args.now in
        OnOk result (next.new ≡ children_from (context_schema context.now) (context_granted context.now) t used.now a n) }
{
    let masks = mask_parts(alloc, context, t, n, used, next)?;
    let places = masks.places.as_slice();
    let members = list_members(alloc, context, start, t, n, places, next)?;
    let distinct = list_distinct(alloc, context, t, n, places, start.args)?;
    let sorts = list_parts(alloc, context, t, n, places, start.args, next)?;
    Ok(ListBody {
        distinct,
        masks,
        members,
        sorts,
    })
}

/// The rows of a list, with these outputs.
pub fn list_rows(
    alloc: Global,
    context: &Context,
    t: TableId,
    n: u64,
    body: ListBody,
    outs: OutList,
    children: JoinList,
    limit: Option<u64>,
    offset: Option<u32>,
) -> Result<Select, Memory>
    ensures { IfOk result (λ select. select_view select ≡ rows_of (context_schema context.now) t n body limit (map out_view outs.items) (map join_view children.items) offset) }
{
    let ListBody {
        distinct,
        masks,
        members,
        sorts,
    } = body;
    let joins = both_joins(sorts.joins, children)?;
    let joins = both_joins(masks.joins, joins)?;
    let from = from_table(alloc, context, t, n)?;
    Ok(Select::Rows {
        distinct,
        outs,
        from,
        joins,
        filter: where_of(members),
        order: sorts.orders,
        limit,
        offset: wide(offset),
    })
}

// The value of a row of the fold of number n.
fn row_value(alloc: Global, n: u64) -> Result<Box<Expr>, Memory>
    ensures { IfOk result (λ value. expr_view value.value ≡ tree.column (fold_alias n) value_name ColumnForm.Plain) }
{
    let alias = fold_alias(alloc, n)?;
    let name = value_name(alloc)?;
    let value = Expr::Column {
        alias,
        name,
        form: ColumnForm::Plain,
    };
    Ok(Box::new(alloc, value)?)
}

// The array of the values of the fold of number n, in this order.
fn array_output(alloc: Global, n: u64, order: OrderList) -> Result<Out, Memory>
    ensures { IfOk result (λ out. out_view out ≡
        record { value = tree.aggregate (tree.json_agg (tree.column (fold_alias n) value_name ColumnForm.Plain) (tree.orders_of (map order_view order.items))); name = value_name }) }
{
    let name = value_name(alloc)?;
    let value = row_value(alloc, n)?;
    Ok(Out {
        value: Expr::Agg(Agg::JsonAgg { value, order }),
        name,
    })
}

// The outputs of a list's rows: the object, then the sort keys.
fn row_outputs(alloc: Global, value: Expr, keys: &mut OutList) -> Result<OutList, Memory>
    ensures { IfOk result (λ outs. map out_view outs.items ≡ record { value = expr_view value; name = value_name } ∷ map out_view keys.old.items) }
{
    let mut outs = value_output(alloc, value)?;
    outs.append(keys)?;
    Ok(outs)
}

/// The fold over rows under an alias.
pub fn fold(out: Out, rows: Box<Select>, alias: Txt) -> Select
    ensures { select_view result ≡ tree.fold (out_view out) (select_view rows.value) alias }
{
    Select::Fold { out, rows, alias }
}

// The sort keys of a list as those of the fold of number n over its rows.
fn list_orders(
    alloc: Global,
    context: &Context,
    t: TableId,
    n: u64,
    args: &Args,
) -> Result<OrderList, Memory>
    ensures { let s = context_schema context.now in
        IfOk result (λ order. map order_view order.items ≡ output_orders (list_sorts s t (arguments_view args.now)) s t n 0) }
{
    let sorts = list_sorts(alloc, context, t, args)?;
    output_orders(alloc, context, t, n, sorts.as_slice())
}

// The output of the fold of number n over a list's rows.
fn list_output(
    alloc: Global,
    context: &Context,
    t: TableId,
    n: u64,
    args: &Args,
) -> Result<Out, Memory>
    ensures { let s = context_schema context.now in let order = tree.orders_of (output_orders (list_sorts s t (arguments_view args.now)) s t n 0) in
        IfOk result (λ out. out_view out ≡ record { value = tree.aggregate (tree.json_agg (tree.column (fold_alias n) value_name ColumnForm.Plain) order); name = value_name }) }
{
    let order = list_orders(alloc, context, t, n, args)?;
    array_output(alloc, n, order)
}

// The rows of a list, with the values and the joins of its children.
fn object_rows(
    alloc: Global,
    context: &Context,
    t: TableId,
    n: u64,
    args: &Args,
    mut body: ListBody,
    row: Row,
) -> Result<Select, Memory>
    ensures { let outs = record { value = tree.object (tree.pairs_of (map pair_view row.pairs.items)); name = value_name } ∷ map out_view body.sorts.outputs.items in
        let limit = smaller args.now.limit ((context_granted context.now).limit t) in
        IfOk result (λ select. select_view select ≡ rows_of (context_schema context.now) t n body limit outs (map join_view row.joins.items) args.now.offset) }
{
    let outs = row_outputs(alloc, object(row.pairs), &mut body.sorts.outputs)?;
    let limit = row_limit(context, t, RowUse::List, args.limit);
    list_rows(
        alloc,
        context,
        t,
        n,
        body,
        outs,
        row.joins,
        limit,
        args.offset,
    )
}

/// A list of rows of table t, with the values and the joins of its children.
pub fn list_select(
    alloc: Global,
    context: &Context,
    t: TableId,
    n: u64,
    args: &Args,
    body: ListBody,
    row: Row,
) -> Result<Select, Memory>
    ensures { let s = context_schema context.now in let g = context_granted context.now in let a = arguments_view args.now in
        (used : List ℕ) (tie : PredTree) → IsBody s g t used a n tie body →
        IfOk result (λ select. select_view select ≡ list_select s g t used a n tie (map pair_view row.pairs.items) (map join_view row.joins.items)) }
{
    let rows = object_rows(alloc, context, t, n, args, body, row)?;
    let rows = Box::new(alloc, rows)?;
    let alias = fold_alias(alloc, n)?;
    let out = list_output(alloc, context, t, n, args)?;
    Ok(fold(out, rows, alias))
}
