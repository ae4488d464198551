//! When the joins of a select are evaluated. Any choice gives the same rows.
ghost use Rattle.std.specs.Prelude.{◌≡◌, true, None, map, option_map};
ghost use Rattle.hq_sql_tree.specs.View.{select_view};
ghost use Rattle.hq_sql_access.specs.Joined.{joined_at};
ghost use Rattle.hq_sql_access.specs.Single.{is_single};
ghost use Rattle.hq_sql_access.specs.View.{made_view};

use crate::mentions::{in_exprs, in_filter, in_orders, in_outs, in_select};
use crate::place::joined_at;
use crate::row::Made;
use crate::single::is_single;
use hq_base::{Memory, Txt};
use hq_sql_tree::{ExprList, Join, OrderList, OutList, Pred, Select};
use std::alloc::Global;

/// When a join that gives one row at most is evaluated.
#[derive(Clone, Copy, PartialEq)]
pub enum Stage {
    /// Before WHERE, once a row.
    Filter,
    /// Behind WHERE, once a row that is kept.
    Keys,
    /// Behind LIMIT, once a row.
    Outputs,
    /// Where its column is asked for, which is once at most.
    Later,
}

/// The parts of a select that can name the aliases of its joins.
#[derive(Clone, Copy)]
pub struct Parts<'d> {
    pub distinct: &'d ExprList,
    pub outs: &'d OutList,
    pub filter: &'d Option<Pred>,
    pub order: &'d OrderList,
}

// How often the joins name an alias.
fn in_later_joins(joins: &[Join], alias: &Txt) -> usize {
    let mut number = 0usize;
    for join in joins {
        number = number.saturating_add(in_select(&join.select, alias));
    }
    number
}

fn stage_of(parts: Parts<'_>, alias: &Txt, later: &[Join]) -> Stage {
    let others = in_later_joins(later, alias);
    let keys = in_orders(parts.order, alias).saturating_add(in_exprs(parts.distinct, alias));
    let outs = in_outs(parts.outs, alias);
    if in_filter(parts.filter, alias) > 0 {
        Stage::Filter
    } else if keys == 0 && others.saturating_add(outs) < 2 {
        Stage::Later
    } else if others > 0 {
        Stage::Filter
    } else if keys > 0 {
        Stage::Keys
    } else {
        Stage::Outputs
    }
}

/// The stage of each join, in order.
pub fn stages(alloc: Global, parts: Parts<'_>, joins: &[Join]) -> Result<Vec<Stage>, Memory> {
    let mut stages = Vec::with_capacity(alloc, joins.len())?;
    for (at, join) in joins.iter().enumerate() {
        stages.push(stage_of(parts, &join.alias, &joins[at..]))?;
    }
    Ok(stages)
}

/// Whether a join is put off until WHERE has kept its row: it gives one row at most, and WHERE does not need it.
pub fn is_put_off(stage: Stage, select: &Select) -> bool
    ensures { result ≡ true → is_single (select_view select.now) ≡ true }
{
    stage != Stage::Filter && is_single(select)
}

/// Whether the join of this number, counted from 0, is put off so far and evaluated behind LIMIT.
pub fn is_due(stages: &[Stage], joined: &[Option<Made<'_>>], at: usize) -> bool
    ensures { result ≡ true → joined_at (map (option_map made_view) joined.now) at ≡ None }
{
    stages.get(at) == Some(&Stage::Outputs) && joined_at(joined, at).is_none()
}

/// Whether one of the joins is evaluated behind LIMIT.
pub fn has_due(stages: &[Stage]) -> bool {
    stages.contains(&Stage::Outputs)
}

/// The first stage, and the rest.
pub fn first_stage(stages: &[Stage]) -> (Stage, &[Stage]) {
    match stages.split_first() {
        Some((stage, rest)) => (*stage, rest),
        None => (Stage::Filter, stages),
    }
}
