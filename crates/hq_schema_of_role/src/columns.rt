ghost use Rattle.std.specs.Prelude.{◌≡◌, ◌≤◌, ◌+◌, length, filter, IfOk};
ghost use Rattle.hq_base.specs.Aggregates.{all_aggregates};
ghost use Rattle.hq_schema_of_role.specs.Shown.{has_aggregate, is_over, aggregates_over};
ghost use Rattle.hq_schema_of_role.specs.Placed.{part_count};

use crate::shown::{ShownColumn, ShownColumnList, ShownTable};
use hq_base::{Aggregate, Memory};
use std::alloc::Global;

/// Whether an aggregate is one of a column's values.
pub fn has_aggregate(aggregate: Aggregate, column: &ShownColumn) -> bool
    ensures { result ≡ has_aggregate aggregate column.now }
{
    aggregate.is_of(column.ty)
}

// Whether it is one of those of some column.
fn is_over(columns: &ShownColumnList, aggregate: Aggregate) -> bool
    ensures { result ≡ is_over columns.now aggregate }
{
    columns
        .as_slice()
        .iter()
        .any(|column| has_aggregate(aggregate, column))
}

// Those of these that are.
fn those_over(
    alloc: Global,
    columns: &ShownColumnList,
    aggregates: &[Aggregate],
) -> Result<Vec<Aggregate>, Memory>
    ensures { IfOk result (λ over. over.items ≡ filter (is_over columns.now) aggregates.now) }
{
    let mut over = Vec::new(alloc);
    for aggregate in aggregates {
        if is_over(columns, *aggregate) {
            over.push(*aggregate)?;
        }
    }
    Ok(over)
}

/// The aggregates that are ones of the values of some of these columns.
pub fn aggregates_over(alloc: Global, columns: &ShownColumnList) -> Result<Vec<Aggregate>, Memory>
    ensures { IfOk result (λ over. over.items ≡ aggregates_over columns.now) }
{
    those_over(alloc, columns, &Aggregate::all())
}

// How many of these there are.
fn count_over(columns: &ShownColumnList, aggregates: &[Aggregate]) -> usize
    ensures count { result ≡ length (filter (is_over columns.now) aggregates.now) }
    ensures within { result ≤ length aggregates.now }
{
    aggregates
        .iter()
        .filter(|aggregate| is_over(columns, **aggregate))
        .count()
}

/// How many types a table has.
#[tactic(auto, unfolding(crate::specs::Placed::part_count))]
pub fn part_count(table: &ShownTable) -> u32
    ensures count { result ≡ part_count table.now }
    ensures within { result ≤ 6 + length all_aggregates }
{
    if !table.aggregates {
        return 4;
    }
    6 + count_over(&table.columns, &Aggregate::all()) as u32
}
