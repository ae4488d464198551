//! The first row behind a relationship.
ghost use Rattle.std.specs.Prelude.{◌≡◌, ◌+◌, [], IfOk, OnOk, map};
ghost use Rattle.hq_model.specs.Schema.{table, rel};
ghost use Rattle.hq_sql_tree.specs.View.{join_view, pred_view};
ghost use Rattle.hq_translation.specs.Conditions.{with_member};
ghost use Rattle.hq_translation.specs.Masks.{masks, shown_look, filter_numbers, filter_predicate};
ghost use Rattle.hq_translation.specs.Predicates.{link};
ghost use Rattle.hq_translation.specs.Selects.{filter_from, behind_filter};
ghost use Rattle.hq_compile_tables.specs.Contexts.{context_schema, context_granted};
ghost use Rattle.hq_compile_tables.specs.Shown.{look_in};

use crate::masks::mask_parts;
use hq_base::Memory;
use hq_compile_predicates::{MaskParts, row_members};
use hq_compile_tables::{Context, link, take_number};
use hq_model::{ColId, RelId, TableId};
use hq_sql_tree::PredList;
use std::alloc::Global;

/// A table whose first row is asked for, its number, the joins of its masks, and what the row meets.
#[derive(Drop)]
pub struct FirstRow {
    pub table: TableId,
    pub number: u64,
    pub masks: MaskParts,
    /// The members of WHERE.
    pub members: PredList,
}

// What the row at the alias of number n of relationship r meets: its link, and the filter.
fn linked_members(
    alloc: Global,
    context: &Context,
    t: TableId,
    p: u64,
    r: RelId,
    n: u64,
    next: &mut u64,
) -> Result<PredList, Memory>
    ensures members { let s = context_schema context.now in let g = context_granted context.now in let u = (rel s t r).remote in
        IfOk result (λ all. map pred_view all.items ≡ with_member (link s t (rel s t r) p n) (with_member (filter_predicate s g u n next.old) [])) }
    ensures numbers { let s = context_schema context.now in let g = context_granted context.now in
        OnOk result (next.new ≡ next.old + filter_numbers s g (rel s t r).remote) }
{
    let link = link(alloc, context, t, r, p, n)?;
    row_members(alloc, context, context.remote(t, r), n, link, next)
}

/// The first row behind a relationship of table t, whose row stands at the alias of number p; these of its columns are used.
pub fn remote_row(
    alloc: Global,
    context: &Context,
    t: TableId,
    p: u64,
    r: RelId,
    used: &[ColId],
    next: &mut u64,
) -> Result<FirstRow, Memory>
    ensures table { IfOk result (λ first. first.table ≡ (rel (context_schema context.now) t r).remote) }
    ensures number { IfOk result (λ first. first.number ≡ next.old) }
    ensures joins { let s = context_schema context.now in let g = context_granted context.now in
        IfOk result (λ first. map join_view first.masks.joins.items ≡ masks s g (rel s t r).remote used.now next.old) }
    ensures looks { let s = context_schema context.now in let g = context_granted context.now in let u = (rel s t r).remote in
        IfOk result (λ first. look_in first.masks.places (table s u).columns next.old ≡ shown_look s g u used.now next.old) }
    ensures members { let s = context_schema context.now in let g = context_granted context.now in
        let u = (rel s t r).remote in let n = next.old in let filter = filter_predicate s g u n (filter_from s g u used.now n) in
        IfOk result (λ first. map pred_view first.members.items ≡ with_member (link s t (rel s t r) p n) (with_member filter [])) }
    ensures numbers { let s = context_schema context.now in let g = context_granted context.now in
        OnOk result (next.new ≡ behind_filter s g (rel s t r).remote used.now next.old) }
{
    let number = take_number(next)?;
    let table = context.remote(t, r);
    let masks = mask_parts(alloc, context, table, number, used, next)?;
    let members = linked_members(alloc, context, t, p, r, number, next)?;
    Ok(FirstRow {
        table,
        number,
        masks,
        members,
    })
}
