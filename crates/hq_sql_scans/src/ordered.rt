//! The places at which a scan looks, in the order that ORDER BY asks for where an index has it.
ghost use Rattle.std.specs.Prelude.{◌≡◌, ◌<◌, ◌∷◌, [], true, false, map, length, Some, IfOk, IfSome, bytes_eq};
ghost use Rattle.std.specs.List.{position};
ghost use Rattle.hq_load_index.specs.Indexes.{IsOver};
ghost use Rattle.hq_load_index.specs.declared.index.Index.{Index};
ghost use Rattle.hq_model.specs.Database.{are_rows};
ghost use Rattle.hq_sql_tree.specs.Tree.{FilterTree, joins_of};
ghost use Rattle.hq_sql_tree.specs.View.{expr_view, join_view, order_view};
ghost use Rattle.hq_sql_access.specs.Lent.{rows_lent};
ghost use Rattle.hq_load_index.specs.Repeats.{KeysDiffer};
ghost use Rattle.hq_sql_scans.specs.Ordered.{IsKey, OrdersBy, OrdersRows, TiesAt, HasOrder, Finds, is_own, places_looked, standing, walked};
ghost use Rattle.hq_sql_scans.specs.Positions.{rows_at, FindsArranged, IsOverSource, WalksRows};
ghost use Rattle.hq_sql_access.specs.declared.scope.Scope.{Scope as InScope};

use crate::positions::{Positions, looked_at};
use hq_base::{Memory, Txt};
use hq_load_index::Index;
use hq_load_tables::Rows;
use hq_model::{ColId, Table};
use hq_sql_access::equations::{is_column, is_first, is_joined};
use hq_sql_access::scope::{Scope, Source};
use hq_sql_access::stages::Parts;
use hq_sql_access::stored::Stored;
use hq_sql_tree::{Expr, ExprList, Join, Order};
use std::alloc::Global;
use std::cell::Cell;

/// The places at which a scan looks.
#[derive(Clone, Copy)]
pub enum Looked<'d> {
    /// What WHERE keeps there stands as ORDER BY and DISTINCT ON leave it.
    Arranged(Positions<'d>),
    /// It stands as ORDER BY leaves it.
    Sorted(Positions<'d>),
    /// It is in file order.
    Unsorted(Positions<'d>),
}

fn are_alike(own: bool, asked: bool) -> bool
    ensures { result ≡ true → own ≡ asked }
{
    own == asked
}

/// The name of a column of a table, where it is the first of that name.
pub fn name_of(table: &Table, column: ColId) -> Option<&Txt>
    ensures { IfSome result (λ name. position (λ c. bytes_eq c.name name.now) table.now.columns ≡ Some column) }
{
    let Some(named) = table.column(column) else {
        return None;
    };
    if is_first(table.columns.as_slice(), column.at(), &named.name) {
        Some(&named.name)
    } else {
        None
    }
}

// Whether a sort key is a column of the alias, and has this direction.
fn is_key(table: &Table, column: ColId, alias: &Txt, key: &Order, desc: bool) -> bool
    ensures { result ≡ true → IsKey desc table.now.columns alias.now column (order_view key.now) }
{
    if !are_alike(key.desc, desc) {
        return false;
    }
    match name_of(table, column) {
        Some(name) => is_column(&key.value, alias, name),
        None => false,
    }
}

// Whether sort keys are these columns of the alias, in their order, and have this direction.
#[tactic(auto, using(crate::proofs::InOrder::orders_none, crate::proofs::InOrder::orders_more))]
fn are_keys(table: &Table, columns: &[ColId], alias: &Txt, order: &[Order], desc: bool) -> bool
    ensures { result ≡ true → OrdersBy desc table.now.columns alias.now columns.now (map order_view order.now) }
{
    match columns.split_first() {
        None => order.is_empty(),
        Some((column, columns)) => match order.split_first() {
            None => false,
            Some((key, order)) => {
                is_key(table, *column, alias, key, desc)
                    && are_keys(table, columns, alias, order, desc)
            }
        },
    }
}

// Whether these are the same columns, in one order.
fn are_same(columns: &[ColId], others: &[ColId]) -> bool
    ensures { result ≡ true → columns.now ≡ others.now }
{
    match columns.split_first() {
        None => others.is_empty(),
        Some((column, columns)) => match others.split_first() {
            None => false,
            Some((other, others)) => column.at() == other.at() && are_same(columns, others),
        },
    }
}

// Whether an expression is a column of the alias.
fn is_own(expr: &Expr, alias: &Txt) -> bool
    ensures { result ≡ is_own alias.now (expr_view expr.now) }
{
    match expr {
        Expr::Column { alias: named, .. } => *alias == *named,
        Expr::Int(_)
        | Expr::Text(_)
        | Expr::Uuid(_)
        | Expr::Bool(_)
        | Expr::Object(_)
        | Expr::Agg(_) => false,
    }
}

// Whether a sort key is a column of the alias: it ties at one row of it.
fn is_tied(alias: &Txt, key: &Order) -> bool
    ensures { result ≡ true → TiesAt alias.now (order_view key.now ∷ []) }
{
    is_own(&key.value, alias)
}

// Whether sort keys are columns of the alias.
#[tactic(auto, using(crate::proofs::Behind::ties_none, crate::proofs::Behind::ties_more))]
fn are_own(alias: &Txt, order: &[Order]) -> bool
    ensures { result ≡ true → TiesAt alias.now (map order_view order.now) }
{
    match order.split_first() {
        None => true,
        Some((key, order)) => is_tied(alias, key) && are_own(alias, order),
    }
}

// Whether these columns are the primary key, in which no two rows are alike.
#[tactic(auto, using(crate::proofs::Backward::keys_apart))]
fn is_unique(table: &Table, rows: &Rows, columns: &[ColId]) -> bool
    requires { are_rows table.now rows.now ≡ true }
    ensures { result ≡ true → KeysDiffer columns.now rows.now (length rows.now) }
{
    are_same(columns, table.key.as_slice())
}

// Whether ORDER BY has the rows of a table in the order of their keys in these columns, or in the one against it. Behind a unique
// key further columns of the alias change nothing.
fn orders_rows(
    table: &Table,
    rows: &Rows,
    columns: &[ColId],
    alias: &Txt,
    order: &[Order],
    desc: bool,
) -> bool
    requires { are_rows table.now rows.now ≡ true }
    ensures orders { result ≡ true → OrdersRows desc table.now.columns rows.now alias.now columns.now (map order_view order.now) }
    ensures unique { result ≡ true → desc ≡ true → KeysDiffer columns.now rows.now (length rows.now) }
{
    if order.len() < columns.len() {
        return false;
    }
    let (first, more) = order.split_at(columns.len());
    if !are_keys(table, columns, alias, first, desc) {
        return false;
    }
    if !are_own(alias, more) {
        return false;
    }
    if is_unique(table, rows, columns) {
        return true;
    }
    if desc {
        return false;
    }
    more.is_empty()
}

// Whether an index over the rows of a table has all of them in this order, or, over the primary key, in the one against it.
fn has_order(
    table: &Table,
    rows: &Rows,
    index: &Index,
    alias: &Txt,
    order: &[Order],
    desc: bool,
) -> bool
    requires over { IsOver rows.now index.now }
    requires valid { are_rows table.now rows.now ≡ true }
    ensures { result ≡ true → HasOrder desc table.now.columns rows.now alias.now (map order_view order.now) index.now }
{
    if index.len() != rows.len() {
        return false;
    }
    orders_rows(table, rows, index.columns(), alias, order, desc)
}

// The index that has all rows of a table in this order, or in the one against it.
fn index_of<'d>(
    table: &Table,
    rows: &'d Rows,
    alias: &Txt,
    order: &[Order],
    desc: bool,
) -> Option<&'d Index>
    requires { are_rows table.now rows.now ≡ true }
    ensures { IfSome result (λ index. HasOrder desc table.now.columns rows.now alias.now (map order_view order.now) index.now) }
{
    for index in rows.indexes() {
        if has_order(table, rows, index, alias, order, desc) {
            return Some(index);
        }
    }
    None
}

// The same, where the rows of the table are lent.
fn index_of_stored<'d>(
    stored: &'d Stored<'d>,
    alias: &Txt,
    order: &[Order],
    desc: bool,
) -> Option<&'d Index>
    ensures { IfSome result (λ index. HasOrder desc stored.now.table.now.columns (rows_lent stored.now.rows) alias.now (map order_view order.now) index.now) }
{
    match stored.rows {
        Some(rows) => index_of(stored.table, rows, alias, order, desc),
        None => None,
    }
}

// The index that has all rows of a source in this order, or in the one against it, where no join hides its alias.
fn index_in_order<'s, 'd>(
    source: Source<'s, 'd>,
    alias: &Txt,
    joins: &[Join],
    order: &[Order],
    desc: bool,
) -> Option<&'d Index>
    ensures finds { IfSome result
        (λ index. (scope : InScope) (f : FilterTree)
        → FindsArranged (joins_of (map join_view joins.now)) scope alias.now f [] (map order_view order.now) source.entry
        (rows_at source.entry (walked desc index))) }
    ensures over { IfSome result (λ index. IsOverSource source.entry index.now) }
{
    if is_joined(joins, alias) {
        return None;
    }
    match source {
        Source::Stored(stored) => index_of_stored(stored, alias, order, desc),
        Source::Made(_) | Source::One => None,
    }
}

// The places of an index in its order, or from the last one on.
fn walked(index: &Index, desc: bool) -> Positions<'_>
    ensures { result ≡ walked desc index.entry }
{
    if desc {
        Positions::Backward(index)
    } else {
        Positions::Ordered(index)
    }
}

// Whether the first sort key descends.
fn descends(order: &[Order]) -> bool {
    match order.first() {
        Some(key) => key.desc,
        None => false,
    }
}

// Places that stand as ORDER BY leaves them, and without DISTINCT ON as all is left.
fn standing<'d>(distinct: &ExprList, positions: Positions<'d>) -> Looked<'d>
    ensures { result ≡ standing distinct.now.items positions.entry }
{
    if distinct.is_empty() {
        return Looked::Arranged(positions);
    }
    Looked::Sorted(positions)
}

/// The places at which a scan looks, however they stand.
pub fn places_looked(looked: Looked<'_>) -> Positions<'_>
    ensures { result ≡ places_looked looked.entry }
{
    match looked {
        Looked::Arranged(positions) => positions,
        Looked::Sorted(positions) => positions,
        Looked::Unsorted(positions) => positions,
    }
}

/// The places at which a scan looks, in the order of an index, or against it, where ORDER BY asks for that and WHERE asks for no key.
pub fn ordered_at<'s, 'd>(
    alloc: Global,
    source: Source<'s, 'd>,
    alias: &Txt,
    joins: &[Join],
    parts: Parts<'d>,
    looked: &Cell<u64>,
    scope: &Scope<'_, 'd>,
) -> Result<Looked<'d>, Memory>
    ensures finds { IfOk result (λ looked. Finds (joins_of (map join_view joins.now)) scope.now alias.now parts.entry source.entry looked) }
    ensures walks { IfOk result (λ looked. WalksRows source.entry (places_looked looked)) }
{
    let positions = looked_at(alloc, source, alias, joins, parts.filter, looked, scope)?;
    if parts.order.is_empty() {
        return Ok(standing(parts.distinct, positions));
    }
    if let Positions::All(_) = positions {
        let order = parts.order.as_slice();
        let desc = descends(order);
        if let Some(index) = index_in_order(source, alias, joins, order, desc) {
            return Ok(standing(parts.distinct, walked(index, desc)));
        }
    }
    Ok(Looked::Unsorted(positions))
}
