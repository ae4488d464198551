//! Where the rows of a field begin.
ghost use Rattle.std.specs.Prelude.{◌≡◌, ◌+◌, ◌∷◌, [], IfOk, OnOk, map};
ghost use Rattle.hq_model.specs.Schema.{table};
ghost use Rattle.hq_model.specs.declared.op.Op.TheVariants.{Eq};
ghost use Rattle.hq_model.specs.declared.test.Test.TheVariants.{Compare};
ghost use Rattle.hq_sql_tree.specs.Tree as tree;
ghost use Rattle.hq_sql_tree.specs.View.{join_view, pred_view};
ghost use Rattle.hq_translation.specs.Conditions.{literal, joined_by_and, with_member};
ghost use Rattle.hq_translation.specs.Fields.{key_members};
ghost use Rattle.hq_translation.specs.Looks.{compared_at, type_in};
ghost use Rattle.hq_translation.specs.Masks.{masks, shown_look, filter_numbers, filter_predicate};
ghost use Rattle.hq_translation.specs.Selects.{filter_from, behind_filter};
ghost use Rattle.hq_compile_tables.specs.Contexts.{context_schema, context_granted};
ghost use Rattle.hq_compile_tables.specs.Shown.{look_in, look_of};
ghost use Rattle.hq_compile_lists.specs.Starts.{start_table, start_tie};

use hq_base::{Memory, Val};
use hq_compile_masks::{FirstRow, mask_parts};
use hq_compile_predicates::row_members;
use hq_compile_tables::{
    Context, MaskPlace, Shown, compared_shown, comparison, joined_by_and, link, literal,
    table_shown, take_number, type_in,
};
use hq_model::{ColId, Op, RelId, TableId};
use hq_request_tree::Args;
use hq_sql_tree::{Pred, PredList};
use std::alloc::Global;

// A column of a key equals a value.
fn key_member(alloc: Global, shown: &Shown, column: ColId, value: &Val) -> Result<Pred, Memory>
    ensures { IfOk result
        (λ p. pred_view p
        ≡ tree.test (compared_at shown.now.columns.now (look_of shown.now column) column) (Compare Eq)
        (literal (type_in shown.now.columns.now column) value.now ∷ [])) }
{
    let left = compared_shown(alloc, shown, column)?;
    let right = literal(alloc, type_in(shown.columns, column), value)?;
    comparison(alloc, left, Op::Eq, right)
}

// The columns of a key equal these values.
fn key_members(
    alloc: Global,
    shown: &Shown,
    key: &[ColId],
    values: &[Val],
) -> Result<PredList, Memory>
    ensures { IfOk result (λ preds. map pred_view preds.items ≡ key_members shown.now.columns.now (look_of shown.now) key.now values.now) }
{
    let mut preds = Vec::new(alloc);
    for (i, column) in key.iter().enumerate() {
        match values.get(i) {
            Some(value) => preds.push(key_member(alloc, shown, *column, value)?)?,
            None => return Ok(preds),
        }
    }
    Ok(preds)
}

// What the row of table t at the alias of number n, behind the joins of masks, meets: its key has these values; and the filter.
fn keyed_members(
    alloc: Global,
    context: &Context,
    t: TableId,
    n: u64,
    places: &[MaskPlace],
    key: &[Val],
    next: &mut u64,
) -> Result<PredList, Memory>
    ensures members { let s = context_schema context.now in let g = context_granted context.now in
        let columns = (table s t).columns in let tie = joined_by_and (key_members columns (look_in places.now columns n) (table s t).key key.now) in
        IfOk result (λ all. map pred_view all.items ≡ with_member tie (with_member (filter_predicate s g t n next.old) [])) }
    ensures numbers { let s = context_schema context.now in let g = context_granted context.now in
        OnOk result (next.new ≡ next.old + filter_numbers s g t) }
{
    let shown = table_shown(context, t, n, places);
    let tie = joined_by_and(key_members(alloc, &shown, context.key(t), key)?);
    row_members(alloc, context, t, n, tie, next)
}

/// The row of a table whose key has these values; these of its columns are used.
pub fn key_row(
    alloc: Global,
    context: &Context,
    t: TableId,
    key: &[Val],
    used: &[ColId],
    next: &mut u64,
) -> Result<FirstRow, Memory>
    ensures table { IfOk result (λ first. first.table ≡ t) }
    ensures number { IfOk result (λ first. first.number ≡ next.old) }
    ensures joins { let s = context_schema context.now in let g = context_granted context.now in
        IfOk result (λ first. map join_view first.masks.joins.items ≡ masks s g t used.now next.old) }
    ensures looks { let s = context_schema context.now in let g = context_granted context.now in
        IfOk result (λ first. look_in first.masks.places (table s t).columns next.old ≡ shown_look s g t used.now next.old) }
    ensures members { let s = context_schema context.now in let g = context_granted context.now in
        let n = next.old in let filter = filter_predicate s g t n (filter_from s g t used.now n) in
        let tie = joined_by_and (key_members (table s t).columns (shown_look s g t used.now n) (table s t).key key.now) in
        IfOk result (λ first. map pred_view first.members.items ≡ with_member tie (with_member filter [])) }
    ensures numbers { OnOk result (next.new ≡ behind_filter (context_schema context.now) (context_granted context.now) t used.now next.old) }
{
    let number = take_number(next)?;
    let masks = mask_parts(alloc, context, t, number, used, next)?;
    let places = masks.places.as_slice();
    let members = keyed_members(alloc, context, t, number, places, key, next)?;
    Ok(FirstRow {
        table: t,
        number,
        masks,
        members,
    })
}

/// A list below a row of a table, which stands at the alias of a number: the table that it names, its relationship below
/// the root, and its arguments.
#[derive(Clone, Copy)]
pub struct ListStart<'a> {
    pub row_table: TableId,
    pub row_number: u64,
    pub table: TableId,
    pub rel: Option<RelId>,
    pub args: &'a Args,
}

/// The table of a list's rows.
pub fn list_table(context: &Context, start: &ListStart) -> TableId
    ensures { result ≡ start_table (context_schema context.now) start.now }
{
    match start.rel {
        None => start.table,
        Some(r) => context.remote(start.row_table, r),
    }
}

/// What ties the rows of the list of this number to what stands around.
pub fn list_tie(
    alloc: Global,
    context: &Context,
    start: &ListStart,
    number: u64,
) -> Result<Pred, Memory>
    ensures { IfOk result (λ p. pred_view p ≡ start_tie (context_schema context.now) start.now number) }
{
    match start.rel {
        None => Ok(Pred::True),
        Some(r) => link(alloc, context, start.row_table, r, start.row_number, number),
    }
}
