//! Boolean expressions as conditions.
ghost use Rattle.std.specs.Prelude.{◌≡◌, ◌+◌, ◌++◌, [], IfOk, OnOk, map};
ghost use Rattle.hq_model.specs.Schema.{table, rel};
ghost use Rattle.hq_model.specs.Bexp.{bexp_view, bexps_of, exists_in, through};
ghost use Rattle.hq_sql_tree.specs.Tree as tree;
ghost use Rattle.hq_sql_tree.specs.View.{join_view, pred_view};
ghost use Rattle.hq_translation.specs.Conditions.{with_member, where_of};
ghost use Rattle.hq_translation.specs.Looks.{own_look};
ghost use Rattle.hq_translation.specs.Predicates.{columns_in, numbers, numbers_all, counted_rows, inner_from, predicate, predicates, own_predicate, own_numbers};
ghost use Rattle.hq_translation.specs.Masks.{filter_numbers, filter_predicate};
ghost use Rattle.hq_compile_tables.specs.Contexts.{context_schema, context_granted};
ghost use Rattle.hq_compile_tables.specs.Selects.{exists_where};
ghost use Rattle.hq_compile_tables.specs.Shown.{look_in};

use crate::counted::{AllRows, Counted};
use hq_base::Memory;
use hq_compile_tables::{
    Context, MaskPlace, column_test, columns_test, exists_where, first_member, joined_by_and,
    joined_by_or, link, negation, table_shown, take_number, with_member,
};
use hq_model::{Bexp, BexpList, RelId, TableId};
use hq_sql_tree::{JoinList, Pred, PredList};
use std::alloc::Global;

/// An expression over table t, whose rows stand at the alias of number p and are looked at behind the joins of masks.
#[cycle(predicate)]
pub fn predicate_of<C: Counted>(
    alloc: Global,
    context: &Context,
    counted: &C,
    t: TableId,
    p: u64,
    places: &[MaskPlace],
    bexp: &Bexp,
    next: &mut u64,
) -> Result<Pred, Memory>
    ensures predicate { let s = context_schema context.now in let m = C.mode s (context_granted context.now) in
        IfOk result (λ pred. pred_view pred ≡ predicate (bexp_view bexp.now) s m (look_in places.now (table s t).columns p) t p next.old) }
    ensures numbers { let s = context_schema context.now in
        OnOk result (next.new ≡ next.old + numbers (bexp_view bexp.now) s (C.mode s (context_granted context.now)) t) }
{
    match bexp {
        Bexp::True => Ok(Pred::True),
        Bexp::And(bexps) => Ok(joined_by_and(predicates(
            alloc, context, counted, t, p, places, bexps, next,
        )?)),
        Bexp::Or(bexps) => Ok(joined_by_or(predicates(
            alloc, context, counted, t, p, places, bexps, next,
        )?)),
        Bexp::Not(inner) => {
            let inner = predicate_of(alloc, context, counted, t, p, places, inner, next)?;
            negation(alloc, inner)
        }
        Bexp::Test {
            col,
            test,
            operands,
            negated,
        } => column_test(
            alloc,
            &table_shown(context, t, p, places),
            *col,
            *test,
            operands,
            *negated,
        ),
        Bexp::Through { rel, inner } => {
            remote_row(alloc, context, counted, t, p, *rel, inner, next)
        }
        Bexp::Exists { table, inner } => some_row(alloc, context, counted, *table, inner, next),
        Bexp::Columns { left, op, right } => columns_test(
            alloc,
            &table_shown(context, t, p, places),
            *left,
            *op,
            *right,
        ),
    }
}

// Some row behind a relationship counts and meets the inner expression.
#[cycle(predicate)]
fn remote_row<C: Counted>(
    alloc: Global,
    context: &Context,
    counted: &C,
    t: TableId,
    p: u64,
    r: RelId,
    inner: &Bexp,
    next: &mut u64,
) -> Result<Pred, Memory>
    ensures predicate { let s = context_schema context.now in let m = C.mode s (context_granted context.now) in
        IfOk result (λ pred. pred_view pred ≡ predicate (through r (bexp_view inner.now)) s m (own_look (table s t).columns p) t p next.old) }
    ensures numbers { let s = context_schema context.now in
        OnOk result (next.new ≡ next.old + numbers (through r (bexp_view inner.now)) s (C.mode s (context_granted context.now)) t) }
{
    let n = take_number(next)?;
    let remote = context.remote(t, r);
    let link = link(alloc, context, t, r, p, n)?;
    counted_row(alloc, context, counted, remote, n, inner, link, next)
}

// Some row of table u counts and meets the inner expression.
#[cycle(predicate)]
fn some_row<C: Counted>(
    alloc: Global,
    context: &Context,
    counted: &C,
    u: TableId,
    inner: &Bexp,
    next: &mut u64,
) -> Result<Pred, Memory>
    ensures predicate { let s = context_schema context.now in let m = C.mode s (context_granted context.now) in
        IfOk result (λ pred. pred_view pred ≡ predicate (exists_in u (bexp_view inner.now)) s m (own_look [] 0) 0 0 next.old) }
    ensures numbers { let s = context_schema context.now in
        OnOk result (next.new ≡ next.old + numbers (exists_in u (bexp_view inner.now)) s (C.mode s (context_granted context.now)) 0) }
{
    let n = take_number(next)?;
    counted_row(alloc, context, counted, u, n, inner, Pred::True, next)
}

// Some row of table u at the alias of number n is tied to what stands around, counts and meets the inner expression.
#[cycle(predicate)]
fn counted_row<C: Counted>(
    alloc: Global,
    context: &Context,
    counted: &C,
    u: TableId,
    n: u64,
    inner: &Bexp,
    tie: Pred,
    next: &mut u64,
) -> Result<Pred, Memory>
    requires { next.old ≡ n + 1 }
    ensures predicate { let s = context_schema context.now in let m = C.mode s (context_granted context.now) in
        let b = bexp_view inner.now in let cs = columns_in b in
        IfOk result (λ pred. pred_view pred ≡ tree.exists (counted_rows s m u n cs (pred_view tie) (predicate b s m (m.look u cs n) u n (inner_from m u cs n)))) }
    ensures numbers { let s = context_schema context.now in let m = C.mode s (context_granted context.now) in
        let b = bexp_view inner.now in OnOk result (next.new ≡ next.old + (m.extra u (columns_in b) + m.more u + numbers b s m u)) }
{
    let members = first_member(alloc, tie)?;
    let parts = counted.masks(alloc, context, u, n, inner, next)?;
    let members = with_guard(alloc, context, counted, u, n, members, next)?;
    let places = parts.places.as_slice();
    let inner = predicate_of(alloc, context, counted, u, n, places, inner, next)?;
    some_exists(alloc, context, u, n, parts.joins, members, inner)
}

// The members of a WHERE, and that rows of table u at the alias of number n count.
fn with_guard<C: Counted>(
    alloc: Global,
    context: &Context,
    counted: &C,
    u: TableId,
    n: u64,
    members: PredList,
    next: &mut u64,
) -> Result<PredList, Memory>
    ensures members { let m = C.mode (context_schema context.now) (context_granted context.now) in
        IfOk result (λ all. map pred_view all.items ≡ map pred_view members.items ++ with_member (m.guard u n next.old) []) }
    ensures numbers { let m = C.mode (context_schema context.now) (context_granted context.now) in OnOk result (next.new ≡ next.old + m.more u) }
{
    let guard = counted.condition(alloc, context, u, n, next)?;
    with_member(members, guard)
}

// Whether table u has a row at the alias of number n, behind these joins, that meets these members and one more.
fn some_exists(
    alloc: Global,
    context: &Context,
    u: TableId,
    n: u64,
    joins: JoinList,
    members: PredList,
    inner: Pred,
) -> Result<Pred, Memory>
    ensures { IfOk result (λ pred. pred_view pred ≡ exists_where (context_schema context.now) u n (map join_view joins.items)
        (where_of (map pred_view members.items ++ with_member (pred_view inner) []))) }
{
    let members = with_member(members, inner)?;
    exists_where(alloc, context, u, n, joins, members)
}

#[cycle(predicate)]
fn predicates<C: Counted>(
    alloc: Global,
    context: &Context,
    counted: &C,
    t: TableId,
    p: u64,
    places: &[MaskPlace],
    bexps: &BexpList,
    next: &mut u64,
) -> Result<PredList, Memory>
    ensures predicates { let s = context_schema context.now in let m = C.mode s (context_granted context.now) in let bs = bexps_of (map bexp_view bexps.now.items) in
        IfOk result (λ preds. map pred_view preds.items ≡ predicates bs s m (look_in places.now (table s t).columns p) t p next.old) }
    ensures numbers { let s = context_schema context.now in let bs = bexps_of (map bexp_view bexps.now.items) in
        OnOk result (next.new ≡ next.old + numbers_all bs s (C.mode s (context_granted context.now)) t) }
{
    let mut preds = Vec::new(alloc);
    for bexp in bexps {
        preds.push(predicate_of(alloc, context, counted, t, p, places, bexp, next)?)?;
    }
    Ok(preds)
}

/// A filter or a mask of a table at the alias of this number: all remote rows count, with their own cells.
pub fn own_predicate(
    alloc: Global,
    context: &Context,
    t: TableId,
    number: u64,
    bexp: &Bexp,
    next: &mut u64,
) -> Result<Pred, Memory>
    ensures predicate { IfOk result (λ p. pred_view p ≡ own_predicate (bexp_view bexp.now) (context_schema context.now) t number next.old) }
    ensures numbers { OnOk result (next.new ≡ next.old + own_numbers (bexp_view bexp.now) (context_schema context.now) t) }
{
    predicate_of(alloc, context, &AllRows, t, number, &[], bexp, next)
}

/// The filter of a table at the alias of this number: never true where nothing is granted of the table.
pub fn filter_predicate(
    alloc: Global,
    context: &Context,
    t: TableId,
    number: u64,
    next: &mut u64,
) -> Result<Pred, Memory>
    ensures predicate { IfOk result (λ p. pred_view p ≡ filter_predicate (context_schema context.now) (context_granted context.now) t number next.old) }
    ensures numbers { OnOk result (next.new ≡ next.old + filter_numbers (context_schema context.now) (context_granted context.now) t) }
{
    match context.granted(t) {
        Some(granted) => own_predicate(alloc, context, t, number, &granted.filter, next),
        None => negation(alloc, Pred::True),
    }
}

/// The members of a WHERE that each row of a table meets, at the alias of this number: its tie to what stands around, and the table's filter.
pub fn row_members(
    alloc: Global,
    context: &Context,
    t: TableId,
    number: u64,
    tie: Pred,
    next: &mut u64,
) -> Result<PredList, Memory>
    ensures members { let s = context_schema context.now in let g = context_granted context.now in
        IfOk result (λ all. map pred_view all.items ≡ with_member (pred_view tie) (with_member (filter_predicate s g t number next.old) [])) }
    ensures numbers { OnOk result (next.new ≡ next.old + filter_numbers (context_schema context.now) (context_granted context.now) t) }
{
    let members = first_member(alloc, tie)?;
    let filter = filter_predicate(alloc, context, t, number, next)?;
    with_member(members, filter)
}
