//! The rows of a select.
ghost use Rattle.std.specs.Prelude.{◌≡◌, map, IfOk};
ghost use Rattle.hq_sql_tree.specs.Meaning.{rows_of};
ghost use Rattle.hq_sql_tree.specs.Tree.{fold};
ghost use Rattle.hq_sql_tree.specs.View.{out_view, select_view, from_view};
ghost use Rattle.hq_sql_access.specs.Keys.{outputs_of};
ghost use Rattle.hq_sql_access.specs.Sources.{made_rows};
ghost use Rattle.hq_sql_access.specs.View.{made_view, first_row, world_of, names_of};
ghost use Rattle.hq_sql_select.specs.Selected.{scope_at, selected};

use crate::joins::outputs_at;
use crate::pages::page;
use crate::values::value;
use hq_base::{Memory, Txt};
use hq_sql_access::pinned::Pinned;
use hq_sql_access::place::JoinedRow;
use hq_sql_access::row::{Made, first_row, one_row};
use hq_sql_access::scope::{Group, Scope, Source, alias_of, row_at, source_of};
use hq_sql_access::stages::{Parts, Stage, stages};
use hq_sql_tree::{From, Join, Out, OutList, Select};
use std::alloc::Global;

/// The rows of a select in its scope.
#[cycle(eval)]
pub fn rows<'d>(
    alloc: Global,
    select: &'d Select,
    world: &Pinned<'d>,
    scope: &Scope<'_, 'd>,
) -> Result<Vec<Made<'d>>, Memory>
    ensures { IfOk result (λ rows. map made_view rows.items ≡ rows_of (select_view select.now) (world_of world.now) (names_of scope.now world.now)) }
{
    match select {
        Select::Fold { out, rows, alias } => folded(alloc, out, rows, alias, world, scope),
        Select::Rows {
            distinct,
            outs,
            from,
            joins,
            filter,
            order,
            limit,
            offset,
        } => {
            let made = made_of(alloc, from, world, scope)?;
            let parts = Parts {
                distinct,
                outs,
                filter,
                order,
            };
            let list = joins.as_slice();
            let given = made.as_slice();
            rows_over(
                alloc, parts, from, list, *limit, *offset, given, world, &*scope,
            )
        }
    }
}

/// The first row of a select, and the row of NULLs where it has none.
#[cycle(eval)]
pub fn first<'d>(
    alloc: Global,
    select: &'d Select,
    world: &Pinned<'d>,
    scope: &Scope<'_, 'd>,
) -> Result<Made<'d>, Memory>
    ensures { IfOk result (λ row. made_view row ≡ first_row (rows_of (select_view select.now) (world_of world.now) (names_of scope.now world.now))) }
{
    Ok(first_row(alloc, rows(alloc, select, world, scope)?))
}

// The row of a fold.
#[cycle(eval)]
fn folded<'d>(
    alloc: Global,
    out: &'d Out,
    select: &'d Select,
    alias: &'d Txt,
    world: &Pinned<'d>,
    scope: &Scope<'_, 'd>,
) -> Result<Vec<Made<'d>>, Memory>
    ensures { IfOk result (λ rows. map made_view rows.items ≡ rows_of (fold (out_view out.now) (select_view select.now) alias.now) (world_of world.now) (names_of scope.now world.now)) }
{
    let made = rows(alloc, select, world, scope)?;
    let group = Group::Of { alias, rows: &made };
    let cell = value(alloc, &out.value, world, group, scope)?;
    one_row(alloc, &out.name, cell)
}

/// The rows of a sub-select that a FROM names, none where it names another thing.
#[cycle(eval)]
pub fn made_of<'d>(
    alloc: Global,
    from: &'d From,
    world: &Pinned<'d>,
    scope: &Scope<'_, 'd>,
) -> Result<Vec<Made<'d>>, Memory>
    ensures { IfOk result (λ made. map made_view made.items ≡ made_rows (from_view from.now) (world_of world.now) (names_of scope.now world.now)) }
{
    match from {
        From::Sub { select, .. } => rows(alloc, select, world, scope),
        From::Table { .. } | From::One { .. } => Ok(Vec::new(alloc)),
    }
}

// The rows of a select with these parts, where FROM gives these rows of a sub-select.
#[cycle(eval)]
fn rows_over<'s, 'd>(
    alloc: Global,
    parts: Parts<'d>,
    from: &'d From,
    joins: &'d [Join],
    limit: Option<u64>,
    offset: Option<u64>,
    made: &'s [Made<'d>],
    world: &Pinned<'d>,
    scope: &'s Scope<'s, 'd>,
) -> Result<Vec<Made<'d>>, Memory>
    ensures { IfOk result (λ rows. map made_view rows.items ≡ selected parts.entry from.now joins.now limit offset made.now world.now scope.now) }
{
    let stages = stages(alloc, parts, joins)?;
    let source = source_of(world, from, made);
    let alias = alias_of(from);
    let paged = page(
        alloc, source, alias, joins, &stages, parts, limit, offset, world, scope,
    )?;
    let places = paged.as_slice();
    all_outputs(
        alloc, source, alias, joins, &stages, parts.outs, places, world, scope,
    )
}

// The outputs at each of the rows.
#[cycle(eval)]
fn all_outputs<'s, 'd>(
    alloc: Global,
    source: Source<'s, 'd>,
    alias: &'d Txt,
    joins: &'d [Join],
    stages: &[Stage],
    outs: &'d OutList,
    places: &[JoinedRow<'d>],
    world: &Pinned<'d>,
    scope: &'s Scope<'s, 'd>,
) -> Result<Vec<Made<'d>>, Memory>
    ensures { IfOk result (λ made. map made_view made.items ≡ map (outputs_of (map out_view outs.now.items)) (map (scope_at source.entry alias.now joins.now world.now scope.now) places.now)) }
{
    let mut made = Vec::with_capacity(alloc, places.len())?;
    for place in places {
        let at = Scope::Bound {
            alias,
            row: row_at(source, place.position),
            outer: &*scope,
        };
        made.push(outputs_at(alloc, outs, joins, stages, &place.joined, world, &at)?)?;
    }
    Ok(made)
}
