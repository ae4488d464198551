//! What sort keys put into the select of rows: joins, ORDER BY, and outputs.
ghost use Rattle.std.specs.Prelude.{◌≡◌, ◌+◌, ◌++◌, ◌∷◌, [], IfOk, OnOk, map, false};
ghost use Rattle.hq_model.specs.Schema.{table};
ghost use Rattle.hq_sql_tree.specs.Tree as tree;
ghost use Rattle.hq_sql_tree.specs.View.{expr_view, order_view, out_view, join_view, pred_view};
ghost use Rattle.hq_translation.specs.Conditions.{where_of};
ghost use Rattle.hq_translation.specs.Looks.{type_in, compared_form, cell_at};
ghost use Rattle.hq_translation.specs.Masks.{value_output};
ghost use Rattle.hq_translation.specs.Names.{fold_alias, join_alias, key_name};
ghost use Rattle.hq_translation.specs.Sorts.{end_of, sort_place, sort_numbers, sort_joins, sorts_numbers, sorts_joins, orders, key_outputs, output_orders};
ghost use Rattle.hq_compile_tables.specs.Contexts.{context_schema, context_granted};
ghost use Rattle.hq_compile_tables.specs.Selects.{first_row};
ghost use Rattle.hq_compile_tables.specs.Shown.{look_in};
ghost use Rattle.hq_compile_lists.specs.RowSorts.{row_sort_view};

use crate::sorts::RowSort;
use crate::sorts_used::last_used;
use hq_base::Memory;
use hq_compile_masks::{FirstRow, remote_row};
use hq_compile_tables::{
    Context, MaskPlace, both_joins, column_at, compared_form, first_row, fold_alias, key_name,
    one_join, table_column, type_in, value_at, value_output,
};
use hq_model::{ColId, RelId, TableId};
use hq_sql_tree::{ColumnForm, Expr, JoinList, Order, OrderList, Out, OutList};
use std::alloc::Global;

// The table at the end of relationships.
fn end_of(context: &Context, t: TableId, through: &[RelId]) -> TableId
    ensures { result ≡ end_of through.now (context_schema context.now) t }
{
    let mut end = t;
    for r in through {
        end = context.remote(end, *r);
    }
    end
}

// The cell of a sort key for a row of table t at the alias of number p, behind the joins of masks; n is the number of its join.
fn sort_column(
    alloc: Global,
    context: &Context,
    t: TableId,
    p: u64,
    places: &[MaskPlace],
    own: bool,
    through: &[RelId],
    n: u64,
    column: ColId,
    form: ColumnForm,
) -> Result<Expr, Memory>
    ensures { let s = context_schema context.now in let place = sort_place own through.now s (look_in places.now (table s t).columns p) t p n column in
        IfOk result (λ e. expr_view e ≡ tree.column place.alias place.name form) }
{
    if own {
        return column_at(alloc, context.columns(t), p, column, form);
    }
    match through {
        [] => table_column(alloc, context, t, p, places, column, form),
        [_, ..] => value_at(alloc, n, form),
    }
}

// The output of the cell of a sort key at the end of relationships, for a first row; n is the number of the next join.
fn step_output(
    alloc: Global,
    context: &Context,
    first: &FirstRow,
    rest: &[RelId],
    n: u64,
    column: ColId,
) -> Result<OutList, Memory>
    ensures { let s = context_schema context.now in let u = first.now.table in let p = first.now.number in
        let look = look_in first.now.masks.places (table s u).columns p in
        IfOk result (λ outs. map out_view outs.items ≡ value_output (cell_at (sort_place false rest.now s look u p n column))) }
{
    let places = first.masks.places.as_slice();
    let value = sort_column(
        alloc,
        context,
        first.table,
        first.number,
        places,
        false,
        rest,
        n,
        column,
        ColumnForm::Plain,
    )?;
    value_output(alloc, value)
}

// The join of such a row, with those of its masks and of the next relationships inside it.
fn step_joins(
    alloc: Global,
    context: &Context,
    first: FirstRow,
    outs: OutList,
    inner: JoinList,
) -> Result<JoinList, Memory>
    ensures { let s = context_schema context.now in let all = map join_view first.masks.joins.items ++ map join_view inner.items in
        let select = first_row s first.table first.number (map out_view outs.items) all (where_of (map pred_view first.members.items)) in
        IfOk result (λ joins. map join_view joins.items ≡ record { select = select; alias = join_alias first.number } ∷ []) }
{
    let FirstRow {
        table,
        number,
        masks,
        members,
    } = first;
    let all = both_joins(masks.joins, inner)?;
    let select = first_row(alloc, context, table, number, members, outs, all)?;
    let join = one_join(alloc, select, number)?;
    let mut joins = Vec::new(alloc);
    joins.push(join)?;
    Ok(joins)
}

// The join of a sort key through relationships, with that of the next relationship inside it; none without one.
fn sort_joins(
    alloc: Global,
    context: &Context,
    t: TableId,
    p: u64,
    through: &[RelId],
    column: ColId,
    next: &mut u64,
) -> Result<JoinList, Memory>
    ensures joins { IfOk result (λ joins. map join_view joins.items ≡ sort_joins through.now (context_schema context.now) (context_granted context.now) t p next.old column) }
    ensures numbers { OnOk result (next.new ≡ next.old + sort_numbers through.now (context_schema context.now) (context_granted context.now) t column) }
{
    match through {
        [] => Ok(Vec::new(alloc)),
        [r, rest @ ..] => {
            let used = last_used(alloc, rest, column)?;
            let first = remote_row(alloc, context, t, p, *r, used.as_slice(), next)?;
            let outs = step_output(alloc, context, &first, rest, *next, column)?;
            let inner = sort_joins(
                alloc,
                context,
                first.table,
                first.number,
                rest,
                column,
                next,
            )?;
            step_joins(alloc, context, first, outs, inner)
        }
    }
}

/// What sort keys put into the select of rows.
#[derive(Drop)]
pub struct SortParts {
    /// The joins of those through relationships.
    pub joins: JoinList,
    /// ORDER BY.
    pub orders: OrderList,
    /// The sort keys as outputs, numbered from 0.
    pub outputs: OutList,
}

// A sort key as one of ORDER BY; n is the number of its join.
fn row_order(
    alloc: Global,
    context: &Context,
    t: TableId,
    p: u64,
    places: &[MaskPlace],
    sort: &RowSort,
    n: u64,
) -> Result<Order, Memory>
    ensures { let s = context_schema context.now in
        IfOk result (λ order. order_view order ∷ [] ≡ orders (row_sort_view sort.now ∷ []) s (context_granted context.now) (look_in places.now (table s t).columns p) t p n) }
{
    let end = end_of(context, t, sort.through.as_slice());
    let form = compared_form(type_in(context.columns(end), sort.column));
    let value = sort_column(
        alloc,
        context,
        t,
        p,
        places,
        sort.own,
        sort.through.as_slice(),
        n,
        sort.column,
        form,
    )?;
    Ok(Order {
        value,
        desc: sort.desc,
        nulls_first: sort.nulls_first,
    })
}

// A sort key as the output of number i; n is the number of its join.
fn row_output(
    alloc: Global,
    context: &Context,
    t: TableId,
    p: u64,
    places: &[MaskPlace],
    sort: &RowSort,
    n: u64,
    i: u64,
) -> Result<Out, Memory>
    ensures { let s = context_schema context.now in
        IfOk result (λ out. out_view out ∷ [] ≡ key_outputs (row_sort_view sort.now ∷ []) s (context_granted context.now) (look_in places.now (table s t).columns p) t p n i) }
{
    let value = sort_column(
        alloc,
        context,
        t,
        p,
        places,
        sort.own,
        sort.through.as_slice(),
        n,
        sort.column,
        ColumnForm::Plain,
    )?;
    let name = key_name(alloc, i)?;
    Ok(Out { value, name })
}

// Adds what one sort key puts in, as the one of number i.
fn push_sort(
    alloc: Global,
    context: &Context,
    t: TableId,
    p: u64,
    places: &[MaskPlace],
    sort: &RowSort,
    i: u64,
    next: &mut u64,
    parts: &mut SortParts,
) -> Result<(), Memory>
    ensures joins { let s = context_schema context.now in let g = context_granted context.now in
        OnOk result (map join_view parts.new.joins.items ≡ map join_view parts.old.joins.items ++ sort_joins sort.now.through s g t p next.old sort.now.column) }
    ensures orders { let s = context_schema context.now in let g = context_granted context.now in
        OnOk result (map order_view parts.new.orders.items ≡ map order_view parts.old.orders.items
        ++ orders (row_sort_view sort.now ∷ []) s g (look_in places.now (table s t).columns p) t p next.old) }
    ensures outputs { let s = context_schema context.now in let g = context_granted context.now in
        OnOk result (map out_view parts.new.outputs.items ≡ map out_view parts.old.outputs.items
        ++ key_outputs (row_sort_view sort.now ∷ []) s g (look_in places.now (table s t).columns p) t p next.old i) }
    ensures numbers { OnOk result (next.new ≡ next.old + sort_numbers sort.now.through (context_schema context.now) (context_granted context.now) t sort.now.column) }
{
    parts
        .orders
        .push(row_order(alloc, context, t, p, places, sort, *next)?)?;
    parts
        .outputs
        .push(row_output(alloc, context, t, p, places, sort, *next, i)?)?;
    let mut joins = sort_joins(
        alloc,
        context,
        t,
        p,
        sort.through.as_slice(),
        sort.column,
        next,
    )?;
    parts.joins.append(&mut joins)?;
    Ok(())
}

/// What sort keys of rows of table t put into their select, at the alias of number p and behind the joins of masks.
pub fn sort_parts(
    alloc: Global,
    context: &Context,
    t: TableId,
    p: u64,
    places: &[MaskPlace],
    sorts: &[RowSort],
    next: &mut u64,
) -> Result<SortParts, Memory>
    ensures joins { let s = context_schema context.now in let g = context_granted context.now in
        IfOk result (λ parts. map join_view parts.joins.items ≡ sorts_joins (map row_sort_view sorts.now) s g t p next.old) }
    ensures orders { let s = context_schema context.now in let g = context_granted context.now in
        IfOk result (λ parts. map order_view parts.orders.items ≡ orders (map row_sort_view sorts.now) s g (look_in places.now (table s t).columns p) t p next.old) }
    ensures outputs { let s = context_schema context.now in let g = context_granted context.now in
        IfOk result (λ parts. map out_view parts.outputs.items ≡ key_outputs (map row_sort_view sorts.now) s g (look_in places.now (table s t).columns p) t p next.old 0) }
    ensures numbers { OnOk result (next.new ≡ next.old + sorts_numbers (map row_sort_view sorts.now) (context_schema context.now) (context_granted context.now) t) }
{
    let mut parts = SortParts {
        joins: Vec::new(alloc),
        orders: Vec::new(alloc),
        outputs: Vec::new(alloc),
    };
    for (i, sort) in sorts.iter().enumerate() {
        push_sort(
            alloc, context, t, p, places, sort, i as u64, next, &mut parts,
        )?;
    }
    Ok(parts)
}

// A sort key of the fold of number n over the rows, whose output has the number i.
fn output_order(
    alloc: Global,
    context: &Context,
    t: TableId,
    n: u64,
    sort: &RowSort,
    i: u64,
) -> Result<Order, Memory>
    ensures { IfOk result (λ order. order_view order ∷ [] ≡ output_orders (row_sort_view sort.now ∷ []) (context_schema context.now) t n i) }
{
    let end = end_of(context, t, sort.through.as_slice());
    let form = compared_form(type_in(context.columns(end), sort.column));
    let alias = fold_alias(alloc, n)?;
    let name = key_name(alloc, i)?;
    Ok(Order {
        value: Expr::Column { alias, name, form },
        desc: sort.desc,
        nulls_first: sort.nulls_first,
    })
}

/// The sort keys of rows of table t as those of the fold of number n over the rows.
pub fn output_orders(
    alloc: Global,
    context: &Context,
    t: TableId,
    n: u64,
    sorts: &[RowSort],
) -> Result<OrderList, Memory>
    ensures { IfOk result (λ order. map order_view order.items ≡ output_orders (map row_sort_view sorts.now) (context_schema context.now) t n 0) }
{
    let mut order = Vec::new(alloc);
    for (i, sort) in sorts.iter().enumerate() {
        order.push(output_order(alloc, context, t, n, sort, i as u64)?)?;
    }
    Ok(order)
}
