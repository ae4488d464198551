//! Scans in the order of an index over one column: where WHERE asks that column to be in a range, they look at the range alone.
ghost use Rattle.std.specs.Prelude.{◌≡◌, ◌∷◌, [], map, false, IfOk, IfSome};
ghost use Rattle.hq_load_index.specs.Indexes.{IsOver, columns_of, entries_of};
ghost use Rattle.hq_sql_constants.specs.Walked.{HasRange, KeepsAlike};
ghost use Rattle.hq_sql_access.specs.Equations.{is_joined};
ghost use Rattle.hq_sql_access.specs.Lent.{rows_lent};
ghost use Rattle.hq_sql_access.specs.declared.scope.Source.TheVariants as source;
ghost use Rattle.hq_sql_scans.specs.Positions.{WalksRows};
ghost use Rattle.hq_sql_tree.specs.Tree.{filter as filtered, joins_of};
ghost use Rattle.hq_sql_tree.specs.View.{filter_view, join_view, pred_view};

use crate::ranged::bounds_in;
use crate::spans::span_of;
use hq_base::{Memory, Txt};
use hq_load_index::Index;
use hq_load_tables::Rows;
use hq_model::ColId;
use hq_sql_access::equations::is_joined;
use hq_sql_access::scope::Source;
use hq_sql_access::stored::Stored;
use hq_sql_scans::ordered::name_of;
use hq_sql_scans::positions::Positions;
use hq_sql_tree::{Join, Pred};
use std::alloc::Global;

// The column of an index, where it has one alone.
fn only_column(index: &Index) -> Option<ColId>
    ensures { IfSome result (λ column. columns_of index.now ≡ column ∷ []) }
{
    match index.columns() {
        [column] => Some(*column),
        _ => None,
    }
}

// The entries of an index over one column whose rows stand in the range in which a condition asks the column to be.
fn range_of<'d>(
    alloc: Global,
    stored: &'d Stored<'d>,
    rows: &Rows,
    index: &'d Index,
    alias: &Txt,
    pred: &Pred,
) -> Result<Option<&'d [u32]>, Memory>
    requires { IsOver rows.now index.now }
    ensures { IfOk result (λ found. IfSome found (λ some. HasRange (pred_view pred.now) alias.now stored.now.table.now.columns rows.now (entries_of index.now) some.now)) }
{
    let Some(column) = only_column(index) else {
        return Ok(None);
    };
    let Some(name) = name_of(stored.table, column) else {
        return Ok(None);
    };
    let bounds = bounds_in(alloc, pred, alias, name)?;
    if bounds.is_empty() {
        return Ok(None);
    }
    let span = span_of(rows, index, column, bounds.as_slice());
    Ok(Some(index.between(span.from, span.to)))
}

// The places of a table, or those in the range, where an index has them in its order, or against it.
fn walked<'d>(
    alloc: Global,
    stored: &'d Stored<'d>,
    alias: &Txt,
    joins: &[Join],
    pred: &Pred,
    positions: Positions<'d>,
) -> Result<Positions<'d>, Memory>
    requires joined { is_joined (joins_of (map join_view joins.now)) alias.now ≡ false }
    requires walks { WalksRows (source.Stored stored) positions }
    ensures { IfOk result (KeepsAlike joins.now alias.now (filtered (pred_view pred.now)) (source.Stored stored.entry) positions.entry) }
{
    let Some(rows) = stored.rows else {
        return Ok(positions);
    };
    match positions {
        Positions::Ordered(index) => match range_of(alloc, stored, rows, index, alias, pred)? {
            Some(entries) => Ok(Positions::Entries(entries)),
            None => Ok(positions),
        },
        Positions::Backward(index) => match range_of(alloc, stored, rows, index, alias, pred)? {
            Some(entries) => Ok(Positions::Reversed(entries)),
            None => Ok(positions),
        },
        Positions::All(_) | Positions::Entries(_) | Positions::Reversed(_) => Ok(positions),
    }
}

/// The places at which a scan looks; where an index over one column has them in its order, or against it, and WHERE asks the column to
/// be in a range, those in the range.
pub(crate) fn in_range<'s, 'd>(
    alloc: Global,
    source: Source<'s, 'd>,
    alias: &Txt,
    joins: &[Join],
    filter: &Option<Pred>,
    positions: Positions<'d>,
) -> Result<Positions<'d>, Memory>
    requires { WalksRows source positions }
    ensures { IfOk result (KeepsAlike joins.now alias.now (filter_view filter.now) source.entry positions.entry) }
{
    let (Source::Stored(stored), Some(pred)) = (source, filter) else {
        return Ok(positions);
    };
    if is_joined(joins, alias) {
        return Ok(positions);
    }
    walked(alloc, stored, alias, joins, pred, positions)
}
