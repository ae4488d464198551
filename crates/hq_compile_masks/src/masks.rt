//! The joins that show masked columns.
ghost use Rattle.std.specs.Prelude.{◌≡◌, ◌+◌, ◌++◌, ◌∷◌, [], IfOk, OnOk, map, None};
ghost use Rattle.hq_model.specs.PermView.{mask_view};
ghost use Rattle.hq_model.specs.Schema.{table};
ghost use Rattle.hq_sql_tree.specs.Tree as tree;
ghost use Rattle.hq_sql_tree.specs.View.{expr_view, join_view, pred_view, select_view};
ghost use Rattle.hq_translation.specs.Conditions.{where_of, with_member};
ghost use Rattle.hq_translation.specs.Masks.{value_output, mask_numbers, mask_select, mask_joins, extra, masks, shown_look};
ghost use Rattle.hq_translation.specs.Names.{table_alias, join_alias};
ghost use Rattle.hq_translation.specs.Predicates.{own_numbers, own_predicate};
ghost use Rattle.hq_compile_tables.specs.Contexts.{context_schema, context_granted};
ghost use Rattle.hq_compile_tables.specs.Shown.{look_in};
ghost use Rattle.hq_compile_masks.specs.MaskPlaces.{used_of, mask_places};

use hq_base::{List, Memory};
use hq_compile_predicates::{MaskParts, own_predicate};
use hq_compile_tables::{
    Context, MaskPlace, first_member, is_used, one_join, own_column, table_alias, take_number,
    value_output, where_of,
};
use hq_model::{ColId, Mask, TableId};
use hq_sql_tree::{Expr, From, Join, PredList, Select};
use std::alloc::Global;

// A value where these members of a WHERE hold.
fn value_where(alloc: Global, value: Expr, n: u64, members: PredList) -> Result<Select, Memory>
    ensures { IfOk result (λ select. select_view select ≡
        tree.rows [] (value_output (expr_view value)) (tree.one (table_alias n)) tree.no_join (where_of (map pred_view members.items)) [] None None) }
{
    let outs = value_output(alloc, value)?;
    let alias = table_alias(alloc, n)?;
    Ok(Select::Rows {
        distinct: Vec::new(alloc),
        outs,
        from: From::One { alias },
        joins: Vec::new(alloc),
        filter: where_of(members),
        order: Vec::new(alloc),
        limit: None,
        offset: None,
    })
}

// The members of the WHERE of a mask at the alias of number p.
fn mask_members(
    alloc: Global,
    context: &Context,
    t: TableId,
    p: u64,
    mask: &Mask,
    next: &mut u64,
) -> Result<PredList, Memory>
    ensures members { IfOk result (λ all. map pred_view all.items ≡ with_member (own_predicate (mask_view mask.now).shown (context_schema context.now) t p next.old) []) }
    ensures numbers { OnOk result (next.new ≡ next.old + own_numbers (mask_view mask.now).shown (context_schema context.now) t) }
{
    let condition = own_predicate(alloc, context, t, p, &mask.shown, next)?;
    first_member(alloc, condition)
}

// The join of a mask at the alias of number p.
fn mask_join(
    alloc: Global,
    context: &Context,
    t: TableId,
    p: u64,
    mask: &Mask,
    next: &mut u64,
) -> Result<Join, Memory>
    ensures join { IfOk result (λ join. join_view join ≡ record { select = mask_select (mask_view mask.now) (context_schema context.now) t p next.old; alias = join_alias next.old }) }
    ensures numbers { OnOk result (next.new ≡ next.old + (1 + own_numbers (mask_view mask.now).shown (context_schema context.now) t)) }
{
    let n = take_number(next)?;
    let members = mask_members(alloc, context, t, p, mask, next)?;
    let value = own_column(alloc, context.columns(t), p, mask.col)?;
    let select = value_where(alloc, value, n, members)?;
    one_join(alloc, select, n)
}

// Adds the join of a mask at the alias of number p.
fn add_mask(
    alloc: Global,
    context: &Context,
    t: TableId,
    p: u64,
    mask: &Mask,
    next: &mut u64,
    parts: &mut MaskParts,
) -> Result<(), Memory>
    ensures joins { let ms = mask_view mask.now ∷ [] in
        OnOk result (map join_view parts.new.joins.items ≡ map join_view parts.old.joins.items ++ mask_joins ms (context_schema context.now) t p next.old) }
    ensures places { let ms = mask_view mask.now ∷ [] in
        OnOk result (parts.new.places ≡ parts.old.places ++ mask_places ms (context_schema context.now) t next.old) }
    ensures numbers { let ms = mask_view mask.now ∷ [] in
        OnOk result (next.new ≡ next.old + mask_numbers ms (context_schema context.now) t) }
{
    parts.places.push(MaskPlace {
        col: mask.col,
        number: *next,
    })?;
    parts
        .joins
        .push(mask_join(alloc, context, t, p, mask, next)?)?;
    Ok(())
}

// Adds it where its column is used.
fn push_mask(
    alloc: Global,
    context: &Context,
    t: TableId,
    p: u64,
    used: &[ColId],
    mask: &Mask,
    next: &mut u64,
    parts: &mut MaskParts,
) -> Result<(), Memory>
    ensures joins { let ms = used_of used.now (mask_view mask.now ∷ []) in
        OnOk result (map join_view parts.new.joins.items ≡ map join_view parts.old.joins.items ++ mask_joins ms (context_schema context.now) t p next.old) }
    ensures places { let ms = used_of used.now (mask_view mask.now ∷ []) in
        OnOk result (parts.new.places ≡ parts.old.places ++ mask_places ms (context_schema context.now) t next.old) }
    ensures numbers { let ms = used_of used.now (mask_view mask.now ∷ []) in
        OnOk result (next.new ≡ next.old + mask_numbers ms (context_schema context.now) t) }
{
    if is_used(mask.col, used) {
        add_mask(alloc, context, t, p, mask, next, parts)
    } else {
        Ok(())
    }
}

/// The joins of the masks of table t at the alias of number p, of those whose columns are used.
pub fn mask_parts(
    alloc: Global,
    context: &Context,
    t: TableId,
    p: u64,
    used: &[ColId],
    next: &mut u64,
) -> Result<MaskParts, Memory>
    requires { next.old ≡ p + 1 }
    ensures joins { let s = context_schema context.now in let g = context_granted context.now in
        IfOk result (λ parts. map join_view parts.joins.items ≡ masks s g t used.now p) }
    ensures looks { let s = context_schema context.now in let g = context_granted context.now in
        IfOk result (λ parts. look_in parts.places (table s t).columns p ≡ shown_look s g t used.now p) }
    ensures numbers { OnOk result (next.new ≡ next.old + extra (context_schema context.now) (context_granted context.now) t used.now) }
{
    let mut parts = MaskParts {
        joins: Vec::new(alloc),
        places: List::new(alloc),
    };
    for mask in context.masks(t) {
        push_mask(alloc, context, t, p, used, mask, next, &mut parts)?;
    }
    Ok(parts)
}
