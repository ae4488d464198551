//! What is learned of an EXISTS before a statement is walked: the keys of the rows that its WHERE keeps.
ghost use Rattle.std.specs.Prelude.{◌≡◌, [], true, IfOk, IfSome};
ghost use Rattle.hq_sql_tree.specs.Tree.{exists};
ghost use Rattle.hq_sql_tree.specs.View.{pred_view, select_view};
ghost use Rattle.hq_sql_access.specs.KeySets.{IsOwnSet};
ghost use Rattle.hq_sql_access.specs.Lent.{rows_lent};
ghost use Rattle.hq_sql_eval.specs.Filtered.{Filters};
ghost use Rattle.hq_sql_access.specs.View.{world_of};

use crate::learn_rows::truths_over;
use hq_base::{Memory, Txt};
use hq_load_index::Index;
use hq_load_tables::Rows;
use hq_sql_access::pinned::{KeySet, Pinned};
use hq_sql_access::scope::{Source, source_of};
use hq_sql_access::stored::Stored;
use hq_sql_conjuncts::{Names, split};
use hq_sql_scans::key_set::key_set;
use hq_sql_scans::links::{LinkList, links_of};
use hq_sql_tree::{From, JoinList, Pred, Select};
use std::alloc::Global;

// Whether an index is over the one column of these links.
fn is_over(index: &Index, links: &LinkList<'_>) -> bool {
    match (index.columns(), links.columns.as_slice()) {
        ([own], [column]) => own.at() == column.at(),
        _ => false,
    }
}

// Whether an index over the rows finds those that have the key of these links.
fn has_index(stored: &Stored<'_>, rows: &Rows, links: &LinkList<'_>) -> bool {
    for index in rows.indexes() {
        if is_over(index, links) {
            return true;
        }
    }
    for index in &stored.more {
        if is_over(index, links) {
            return true;
        }
    }
    false
}

// The keys of a condition that is true exactly where this WHERE keeps one of these rows; None where it asks more of what is around them
// than that columns equal it, or an index finds the row that it asks for.
fn keys_over<'d>(
    alloc: Global,
    pred: &'d Pred,
    stored: &'d Stored<'d>,
    rows: &Rows,
    alias: &'d Txt,
    filter: &'d Pred,
    world: &Pinned<'d>,
) -> Result<Option<KeySet<'d>>, Memory>
    requires lent { rows_lent stored.now.rows ≡ rows.now }
    requires filters { Filters (world_of world.now) (pred_view pred.now) stored.now.table.now.columns rows.now alias.now (pred_view filter.now) }
    ensures { IfOk result (λ found. IfSome found (IsOwnSet (world_of world.now))) }
{
    let outer = Names::Nothing;
    let names = Names::Named {
        alias,
        outer: &outer,
    };
    let mut closed = Vec::new(alloc);
    let mut rest = Vec::new(alloc);
    split(filter, &names, &mut closed, &mut rest)?;
    let Some(links) = links_of(alloc, &rest, stored.table.columns.as_slice(), alias)? else {
        return Ok(None);
    };
    if closed.is_empty() && has_index(stored, rows, &links) {
        return Ok(None);
    }
    let truths = truths_over(alloc, Source::Stored(stored), alias, &closed, world)?;
    if truths.len() != rows.len() {
        return Ok(None);
    }
    let exprs = links.exprs;
    let set = key_set(alloc, pred, rows, &truths, &links.columns, exprs, world)?;
    Ok(Some(set))
}

fn has_no_join(joins: &JoinList) -> bool
    ensures { result ≡ true → joins.now.items ≡ [] }
{
    joins.is_empty()
}

// The keys of the rows of a select, where a condition says that it has one.
fn keys_of<'d>(
    alloc: Global,
    pred: &'d Pred,
    select: &'d Select,
    world: &Pinned<'d>,
) -> Result<Option<KeySet<'d>>, Memory>
    requires { pred_view pred.now ≡ exists (select_view select.now) }
    ensures { IfOk result (λ found. IfSome found (IsOwnSet (world_of world.now))) }
{
    let Select::Rows {
        from,
        joins,
        filter,
        limit: None,
        offset: None,
        ..
    } = select
    else {
        return Ok(None);
    };
    let Some(filter) = filter else {
        return Ok(None);
    };
    let From::Table { alias, .. } = from else {
        return Ok(None);
    };
    if !has_no_join(joins) {
        return Ok(None);
    }
    let Source::Stored(stored) = source_of(world, from, &[]) else {
        return Ok(None);
    };
    match stored.rows {
        Some(rows) => keys_over(alloc, pred, stored, rows, alias, filter, world),
        None => Ok(None),
    }
}

/// The keys of the rows of an EXISTS; None of another one than of rows of a table without joins and pages, whose WHERE asks no more of
/// what is around it than that columns equal it.
pub fn learned_keys<'d>(
    alloc: Global,
    pred: &'d Pred,
    world: &Pinned<'d>,
) -> Result<Option<KeySet<'d>>, Memory>
    ensures { IfOk result (λ found. IfSome found (IsOwnSet (world_of world.now))) }
{
    match pred {
        Pred::Exists(select) => keys_of(alloc, pred, select, world),
        Pred::True | Pred::False | Pred::Test { .. } | Pred::Not(_) | Pred::And(_) | Pred::Or(_) =>
            Ok(None),
    }
}
