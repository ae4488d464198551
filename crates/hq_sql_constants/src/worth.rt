//! When it is worth to find the places at whose rows WHERE may be true, before it is tried at any.

use crate::listed::is_many;
use crate::marked::index_over;
use crate::ranged::{Ranged, ranged_in};
use crate::sifted::column_named;
use crate::spans::{Between, span_of};
use hq_base::{Memory, Txt};
use hq_load_tables::Rows;
use hq_sql_access::equations::equal_to;
use hq_sql_access::pinned::Pinned;
use hq_sql_access::scope::Source;
use hq_sql_access::stored::Stored;
use hq_sql_scans::ordered::Looked;
use hq_sql_scans::positions::{Positions, number_of};
use hq_sql_tree::{Expr, Pred};
use std::alloc::Global;

// Of fewer places none is worth to be left out.
const FEW: usize = 64;

// More than one in so many places is not worth to be found by an index.
const PART: usize = 4;

// So many rows are found by an index before a few of them are looked for.
const SMALL: usize = 1024;

/// Whether so few places are there that none is worth to be left out.
pub(crate) fn are_few(positions: Positions<'_>) -> bool {
    number_of(positions) < FEW
}

/// Whether all places are there.
pub(crate) fn are_all(positions: Positions<'_>) -> bool {
    match positions {
        Positions::All(_) => true,
        Positions::Entries(_)
        | Positions::Ordered(_)
        | Positions::Backward(_)
        | Positions::Reversed(_) => false,
    }
}

/// Whether a scan looks at all its places: with LIMIT it may end before, unless what it finds is sorted.
pub(crate) fn looks_at_all(looked: Looked<'_>, limit: Option<u64>) -> bool {
    match looked {
        Looked::Unsorted(_) => true,
        Looked::Arranged(_) | Looked::Sorted(_) => limit.is_none(),
    }
}

/// Whether the rows between two entries are few enough beside these places. Where the scan may end before it has looked at all of
/// them, they are to be very few. Those of a key are few as they are, and in the order of an index a scan ends at its page.
pub(crate) fn is_narrow(span: Between, positions: Positions<'_>, whole: bool) -> bool {
    let number = span.to.saturating_sub(span.from);
    match positions {
        Positions::All(all) => number <= all / PART && (whole || number <= SMALL),
        Positions::Entries(_)
        | Positions::Ordered(_)
        | Positions::Backward(_)
        | Positions::Reversed(_) => false,
    }
}

// Whether the range that a column is asked to be in has few rows.
fn has_few<'d>(stored: &'d Stored<'d>, rows: &Rows, asked: &Ranged<'_>) -> bool {
    let Some(column) = column_named(stored, asked.name) else {
        return false;
    };
    match index_over(rows, column) {
        Some(index) => {
            let span = span_of(rows, index, column, asked.bounds.as_slice());
            is_narrow(span, Positions::All(rows.len()), true)
        }
        None => false,
    }
}

// Whether a condition asks a column to equal another.
fn is_link(pred: &Pred) -> bool {
    match pred {
        Pred::Test { test, operands, .. } => {
            matches!(equal_to(*test, operands), Some(Expr::Column { .. }))
        }
        _ => false,
    }
}

// The same of a member of an AND.
fn has_link(pred: &Pred) -> bool {
    match pred {
        Pred::And(preds) => preds.as_slice().iter().any(is_link),
        _ => is_link(pred),
    }
}

// Whether a condition asks a column with an index to be in a range of few rows. One that asks a column to equal another is asked
// again at each row around it, and looks at the places of a key.
fn asks_few<'d>(
    alloc: Global,
    stored: &'d Stored<'d>,
    alias: &Txt,
    pred: &Pred,
) -> Result<bool, Memory> {
    let Some(rows) = stored.rows else {
        return Ok(false);
    };
    if rows.len() < FEW || has_link(pred) {
        return Ok(false);
    }
    let columns = stored.table.columns.as_slice();
    match ranged_in(alloc, pred, rows, columns, alias)? {
        Some(asked) => Ok(has_few(stored, rows, &asked)),
        None => Ok(false),
    }
}

// Whether a condition, or a part of an AND, has many operands or conditions, or its keys are known.
fn asks_many(filter: &Option<Pred>, world: &Pinned<'_>) -> bool {
    match filter {
        Some(Pred::And(preds)) => preds.as_slice().iter().any(|p| is_many(p, world)),
        Some(pred) => is_many(pred, world),
        None => false,
    }
}

/// Whether it is worth to find the rows of a source that WHERE keeps before any of them is written: it asks for one of many
/// constants, or for a range of few rows of a table. Where a range has more rows, they are written one by one, as others are.
pub fn is_worth_finding<'s, 'd>(
    alloc: Global,
    source: Source<'s, 'd>,
    alias: &Txt,
    filter: &Option<Pred>,
    world: &Pinned<'_>,
) -> Result<bool, Memory> {
    if asks_many(filter, world) {
        return Ok(true);
    }
    match (source, filter) {
        (Source::Stored(stored), Some(pred)) => asks_few(alloc, stored, alias, pred),
        _ => Ok(false),
    }
}
