//! The rows of lateral joins, and what is taken at them.
ghost use Rattle.std.specs.Prelude.{◌≡◌, true, map, IfOk};
ghost use Rattle.hq_sql_tree.specs.Tree.{no_join};
ghost use Rattle.hq_sql_tree.specs.View.{out_view, join_view};
ghost use Rattle.hq_sql_access.specs.Keys.{outputs_of};
ghost use Rattle.hq_sql_access.specs.Single.{is_single};
ghost use Rattle.hq_sql_access.specs.View.{made_view, names_of};
ghost use Rattle.hq_sql_select.specs.Gathered.{Gathers, Spreads, first_beside, first_join, joins_view, names_beside, names_joined};

use crate::clauses::{first, rows};
use crate::truths::kept;
use crate::values::value;
use hq_base::Memory;
use hq_sql_access::pinned::Pinned;
use hq_sql_access::place::{Joined, add_lists, copy_joined, put_joined, with_none, with_row};
use hq_sql_access::row::{Made, Named, Row, or_null_row};
use hq_sql_access::scope::{Group, Scope};
use hq_sql_access::stages::{Stage, first_stage, has_due, is_due, is_put_off};
use hq_sql_tree::{Join, OutList, Pred};
use std::alloc::Global;

/// Of each row of the joins that WHERE keeps, which rows the joins have in it.
#[cycle(eval)]
pub fn gather<'f, 'd: 'f>(
    alloc: Global,
    joins: &'d [Join],
    stages: &[Stage],
    filter: &'f Option<Pred>,
    world: &Pinned<'d>,
    scope: &Scope<'_, 'd>,
) -> Result<Vec<Joined<'d>>, Memory>
    ensures { IfOk result (λ lists. Gathers (joins_view joins.now) filter.now world.now (names_of scope.now world.now) lists.items) }
{
    match joins.split_first() {
        None => gather_alone(alloc, filter, world, scope),
        Some((join, rest)) => {
            let (stage, others) = first_stage(stages);
            if is_put_off(stage, &join.select) {
                return gather_put_off(alloc, join, rest, stage, others, filter, world, scope);
            }
            gather_each(alloc, join, rest, others, filter, world, scope)
        }
    }
}

// The same where no join is left: the row itself, if WHERE keeps it.
#[cycle(eval)]
fn gather_alone<'f, 'd: 'f>(
    alloc: Global,
    filter: &'f Option<Pred>,
    world: &Pinned<'d>,
    scope: &Scope<'_, 'd>,
) -> Result<Vec<Joined<'d>>, Memory>
    ensures { IfOk result (λ lists. Gathers no_join filter.now world.now (names_of scope.now world.now) lists.items) }
{
    let mut lists = Vec::new(alloc);
    if kept(alloc, filter, &*world, &*scope)? {
        lists.push(Vec::new(alloc))?;
    }
    Ok(lists)
}

// The same where the first join gives one row at most, and WHERE does not need it.
#[cycle(eval)]
fn gather_put_off<'f, 'd: 'f>(
    alloc: Global,
    join: &'d Join,
    rest: &'d [Join],
    stage: Stage,
    stages: &[Stage],
    filter: &'f Option<Pred>,
    world: &Pinned<'d>,
    scope: &Scope<'_, 'd>,
) -> Result<Vec<Joined<'d>>, Memory>
    requires { is_single (join_view join.now).select ≡ true }
    ensures { IfOk result (λ lists. Gathers (first_join join.now rest.now) filter.now world.now (names_of scope.now world.now) lists.items) }
{
    let at = Scope::Later {
        alias: &join.alias,
        select: &join.select,
        outer: &*scope,
    };
    let lists = gather(alloc, rest, stages, filter, world, &at)?;
    if stage == Stage::Keys && !lists.is_empty() {
        let row = first(alloc, &join.select, world, scope)?;
        return with_row(alloc, row, lists);
    }
    with_none(alloc, lists)
}

// The same where the first join is evaluated before WHERE.
#[cycle(eval)]
fn gather_each<'f, 'd: 'f>(
    alloc: Global,
    join: &'d Join,
    rest: &'d [Join],
    stages: &[Stage],
    filter: &'f Option<Pred>,
    world: &Pinned<'d>,
    scope: &Scope<'_, 'd>,
) -> Result<Vec<Joined<'d>>, Memory>
    ensures { IfOk result (λ lists. Gathers (first_join join.now rest.now) filter.now world.now (names_of scope.now world.now) lists.items) }
{
    let made = rows(alloc, &join.select, world, scope)?;
    let made = or_null_row(alloc, made)?;
    spread(alloc, made, join, rest, stages, filter, world, scope)
}

// The same at each of these rows of the first join.
#[cycle(eval)]
fn spread<'f, 'd: 'f>(
    alloc: Global,
    made: Vec<Made<'d>>,
    join: &'d Join,
    rest: &'d [Join],
    stages: &[Stage],
    filter: &'f Option<Pred>,
    world: &Pinned<'d>,
    scope: &Scope<'_, 'd>,
) -> Result<Vec<Joined<'d>>, Memory>
    ensures { IfOk result (λ lists. Spreads join.now rest.now made.entry.items filter.now world.now (names_of scope.now world.now) lists.items) }
{
    let mut all = Vec::new(alloc);
    for row in made {
        let lists = gather_beside(alloc, &row, join, rest, stages, filter, world, scope)?;
        add_lists(&mut all, with_row(alloc, row, lists)?)?;
    }
    Ok(all)
}

// The same beside one row of the first join.
#[cycle(eval)]
fn gather_beside<'f, 'd: 'f>(
    alloc: Global,
    row: &Made<'d>,
    join: &'d Join,
    rest: &'d [Join],
    stages: &[Stage],
    filter: &'f Option<Pred>,
    world: &Pinned<'d>,
    scope: &Scope<'_, 'd>,
) -> Result<Vec<Joined<'d>>, Memory>
    ensures { IfOk result (λ lists. Gathers (joins_view rest.now) filter.now world.now (names_beside join.now row.now world.now scope.now) lists.items) }
{
    let at = Scope::Bound {
        alias: &join.alias,
        row: Row::Made { cells: &row.cells },
        outer: &*scope,
    };
    gather(alloc, rest, stages, filter, world, &at)
}

// The first row of a join, beside those before it.
#[cycle(eval)]
fn first_beside<'d>(
    alloc: Global,
    join: &'d Join,
    before: &'d [Join],
    joined: &[Option<Made<'d>>],
    world: &Pinned<'d>,
    scope: &Scope<'_, 'd>,
) -> Result<Made<'d>, Memory>
    ensures { IfOk result (λ row. made_view row ≡ first_beside join.now (names_joined before.now joined.now world.now (names_of scope.now world.now)) world.now) }
{
    let at = Scope::Joined {
        joins: before,
        rows: joined,
        outer: &*scope,
    };
    first(alloc, &join.select, world, &at)
}

/// Copies of these rows of joins, beside those of the joins that are evaluated behind LIMIT. What is in scope stays the same.
#[cycle(eval)]
pub fn with_due<'d>(
    alloc: Global,
    joins: &'d [Join],
    stages: &[Stage],
    joined: &[Option<Made<'d>>],
    world: &Pinned<'d>,
    scope: &Scope<'_, 'd>,
) -> Result<Joined<'d>, Memory>
    ensures { IfOk result (λ all. names_joined joins.now all.items world.now (names_of scope.now world.now) ≡ names_joined joins.now joined.now world.now (names_of scope.now world.now)) }
{
    let mut all = copy_joined(alloc, joined)?;
    for (at, join) in joins.iter().enumerate() {
        if is_due(stages, &all, at) {
            let row = first_beside(alloc, join, &joins[..at], &all, world, scope)?;
            all = put_joined(all, at, row)?;
        }
    }
    Ok(all)
}

/// The outputs at the row with these rows of the joins.
#[cycle(eval)]
pub fn outputs_at<'d>(
    alloc: Global,
    outs: &'d OutList,
    joins: &'d [Join],
    stages: &[Stage],
    joined: &[Option<Made<'d>>],
    world: &Pinned<'d>,
    scope: &Scope<'_, 'd>,
) -> Result<Made<'d>, Memory>
    ensures { IfOk result (λ made. made_view made ≡ outputs_of (map out_view outs.now.items) (names_joined joins.now joined.now world.now (names_of scope.now world.now))) }
{
    if has_due(stages) {
        let all = with_due(alloc, joins, stages, joined, world, scope)?;
        return outputs_beside(alloc, outs, joins, &all, world, scope);
    }
    outputs_beside(alloc, outs, joins, joined, world, scope)
}

// The same where all joins are evaluated that are to be before the outputs.
#[cycle(eval)]
fn outputs_beside<'d>(
    alloc: Global,
    outs: &'d OutList,
    joins: &'d [Join],
    joined: &[Option<Made<'d>>],
    world: &Pinned<'d>,
    scope: &Scope<'_, 'd>,
) -> Result<Made<'d>, Memory>
    ensures { IfOk result (λ made. made_view made ≡ outputs_of (map out_view outs.now.items) (names_joined joins.now joined.now world.now (names_of scope.now world.now))) }
{
    let at = Scope::Joined {
        joins,
        rows: joined,
        outer: &*scope,
    };
    outputs(alloc, outs, world, &at)
}

#[cycle(eval)]
fn outputs<'d>(
    alloc: Global,
    outs: &'d OutList,
    world: &Pinned<'d>,
    scope: &Scope<'_, 'd>,
) -> Result<Made<'d>, Memory>
    ensures { IfOk result (λ made. made_view made ≡ outputs_of (map out_view outs.now.items) (names_of scope.now world.now)) }
{
    let mut cells = Vec::with_capacity(alloc, outs.len())?;
    for out in outs {
        let cell = value(alloc, &out.value, world, Group::Alone, scope)?;
        cells.push(Named {
            name: &out.name,
            cell,
        })?;
    }
    Ok(Made { cells })
}
