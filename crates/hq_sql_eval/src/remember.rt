//! What is worth knowing before a statement is walked: the keys of the rows of each EXISTS, the inner ones first, and where these can't
//! be had, what its WHERE is at each row, if another EXISTS stands in it. Whatever is learned, the answer is the meaning.
ghost use Rattle.std.specs.Prelude.{◌≡◌};

use crate::learn_keys::learned_keys;
use crate::learn_rows::learned;
use hq_base::Memory;
use hq_sql_access::pinned::Pinned;
use hq_sql_tree::{From, JoinList, Pred, PredList, Select};
use std::alloc::Global;

// Whether an EXISTS stands in a condition.
fn has_exists(pred: &Pred) -> bool {
    match pred {
        Pred::Not(inner) => has_exists(inner),
        Pred::And(preds) | Pred::Or(preds) => {
            for pred in preds {
                if has_exists(pred) {
                    return true;
                }
            }
            false
        }
        Pred::Exists(_) => true,
        Pred::True | Pred::False | Pred::Test { .. } => false,
    }
}

/// Learns what is worth knowing of the parts of a select.
#[cycle(remember)]
pub fn remember<'d>(alloc: Global, select: &'d Select, world: &mut Pinned<'d>) -> Result<(), Memory>
    ensures { world.new.tables ≡ world.old.tables }
{
    match select {
        Select::Fold { rows, .. } => remember(alloc, rows, world),
        Select::Rows {
            from,
            joins,
            filter,
            ..
        } => {
            remember_from(alloc, from, world)?;
            remember_joins(alloc, joins, world)?;
            remember_filter(alloc, filter, world)
        }
    }
}

#[cycle(remember)]
fn remember_from<'d>(alloc: Global, from: &'d From, world: &mut Pinned<'d>) -> Result<(), Memory>
    ensures { world.new.tables ≡ world.old.tables }
{
    match from {
        From::Sub { select, .. } => remember(alloc, select, world),
        From::Table { .. } | From::One { .. } => Ok(()),
    }
}

#[cycle(remember)]
fn remember_joins<'d>(
    alloc: Global,
    joins: &'d JoinList,
    world: &mut Pinned<'d>,
) -> Result<(), Memory>
    ensures { world.new.tables ≡ world.old.tables }
{
    for join in joins {
        remember(alloc, &join.select, world)?;
    }
    Ok(())
}

#[cycle(remember)]
fn remember_filter<'d>(
    alloc: Global,
    filter: &'d Option<Pred>,
    world: &mut Pinned<'d>,
) -> Result<(), Memory>
    ensures { world.new.tables ≡ world.old.tables }
{
    match filter {
        Some(pred) => remember_pred(alloc, pred, world),
        None => Ok(()),
    }
}

#[cycle(remember)]
fn remember_pred<'d>(alloc: Global, pred: &'d Pred, world: &mut Pinned<'d>) -> Result<(), Memory>
    ensures { world.new.tables ≡ world.old.tables }
{
    match pred {
        Pred::Not(inner) => remember_pred(alloc, inner, world),
        Pred::And(preds) | Pred::Or(preds) => remember_preds(alloc, preds, world),
        Pred::Exists(select) => {
            remember(alloc, select, world)?;
            learn(alloc, pred, select, world)
        }
        Pred::True | Pred::False | Pred::Test { .. } => Ok(()),
    }
}

#[cycle(remember)]
fn remember_preds<'d>(
    alloc: Global,
    preds: &'d PredList,
    world: &mut Pinned<'d>,
) -> Result<(), Memory>
    ensures { world.new.tables ≡ world.old.tables }
{
    for pred in preds {
        remember_pred(alloc, pred, world)?;
    }
    Ok(())
}

// Learns the keys of an EXISTS, or of its WHERE.
fn learn<'d>(
    alloc: Global,
    pred: &'d Pred,
    select: &'d Select,
    world: &mut Pinned<'d>,
) -> Result<(), Memory>
    ensures { world.new.tables ≡ world.old.tables }
{
    match learned_keys(alloc, pred, &*world)? {
        Some(set) => world.add_set(set),
        None => learn_filter(alloc, select, world),
    }
}

// Learns of the WHERE of an EXISTS, where another one stands in it.
fn learn_filter<'d>(alloc: Global, select: &'d Select, world: &mut Pinned<'d>) -> Result<(), Memory>
    ensures { world.new.tables ≡ world.old.tables }
{
    let Select::Rows {
        from,
        filter: Some(pred),
        ..
    } = select
    else {
        return Ok(());
    };
    if !has_exists(pred) {
        return Ok(());
    }
    match learned(alloc, from, pred, &*world)? {
        Some(known) => world.add(known),
        None => Ok(()),
    }
}
