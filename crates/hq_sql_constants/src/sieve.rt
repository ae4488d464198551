//! Rows of a scan of which tests tell whether WHERE keeps them, without a scope.
ghost use Rattle.std.specs.Prelude.{◌≡◌, [], true, map, IfOk, IfSome};
ghost use Rattle.hq_sql_conjuncts.specs.Conjuncts.{all_kept, lent_views};
ghost use Rattle.hq_sql_conjuncts.specs.Split.{kept_one};
ghost use Rattle.hq_sql_access.specs.View.{row_in, world_of};
ghost use Rattle.hq_sql_tree.specs.Meaning.{kept};
ghost use Rattle.hq_sql_tree.specs.Tree.{joins_of};
ghost use Rattle.hq_sql_tree.specs.View.{filter_view, join_view, pred_view};
ghost use Rattle.hq_sql_constants.specs.Sieves.{IsSieve, SievesOver, Tells, all_hold};

use crate::row_test::{RowTest, one_holds, tests_of};
use hq_base::{Memory, Txt, Val};
use hq_model::Column;
use hq_sql_access::equations::is_joined;
use hq_sql_access::pinned::Pinned;
use hq_sql_access::scope::Source;
use hq_sql_conjuncts::{Names, split};
use hq_sql_tree::{Join, Pred};
use std::alloc::Global;
use std::cell::Cell;

/// Tests of the rows of a table that a WHERE asks for, of each list one to be true, and whether it asks for nothing else.
#[derive(Drop)]
pub struct Sieve<'m, 'd> {
    pub tests: Vec<Vec<RowTest<'m, 'd>>>,
    pub whole: bool,
}

/// What tests tell of a row of FROM.
#[derive(Clone, Copy)]
pub enum Verdict {
    /// WHERE keeps each row of the joins at it.
    Kept,
    /// WHERE keeps nothing of it.
    Dropped,
    /// They don't tell.
    Open,
}

// Of fewer rows each is tried as it is.
const FEW: usize = 3;

// The tests of conditions that are all to be true.
fn tests_of_all<'m, 'd>(
    alloc: Global,
    preds: &[&'d Pred],
    columns: &[Column],
    alias: &Txt,
    world: &'m Pinned<'d>,
) -> Result<Sieve<'m, 'd>, Memory>
    ensures { IfOk result (λ s. IsSieve (world_of world.now) columns.now alias.now (all_kept (lent_views preds.now)) s) }
{
    let mut tests = Vec::new(alloc);
    let mut whole = true;
    for pred in preds {
        match tests_of(alloc, pred, columns, alias, world)? {
            Some(found) => tests.push(found)?,
            None => whole = false,
        }
    }
    Ok(Sieve { tests, whole })
}

fn has_none(preds: &[&Pred]) -> bool
    ensures { result ≡ true → preds.now ≡ [] }
{
    preds.is_empty()
}

// The tests of a condition.
fn tests_in<'m, 'd>(
    alloc: Global,
    pred: &'d Pred,
    columns: &[Column],
    alias: &Txt,
    world: &'m Pinned<'d>,
) -> Result<Sieve<'m, 'd>, Memory>
    ensures { IfOk result (λ s. IsSieve (world_of world.now) columns.now alias.now (kept_one (pred_view pred.now)) s) }
{
    let outer = Names::Nothing;
    let names = Names::Named {
        alias,
        outer: &outer,
    };
    let mut closed = Vec::new(alloc);
    let mut rest = Vec::new(alloc);
    split(pred, &names, &mut closed, &mut rest)?;
    let found = tests_of_all(alloc, &closed, columns, alias, world)?;
    let alone = has_none(&rest);
    Ok(Sieve {
        tests: found.tests,
        whole: found.whole && alone,
    })
}

// The tests of a WHERE.
fn tests_under<'m, 'd>(
    alloc: Global,
    filter: &'d Option<Pred>,
    columns: &[Column],
    alias: &Txt,
    world: &'m Pinned<'d>,
) -> Result<Sieve<'m, 'd>, Memory>
    ensures { IfOk result (λ s. IsSieve (world_of world.now) columns.now alias.now (kept (filter_view filter.now)) s) }
{
    match filter {
        Some(pred) => tests_in(alloc, pred, columns, alias, world),
        None => Ok(Sieve {
            tests: Vec::new(alloc),
            whole: true,
        }),
    }
}

/// The tests of a WHERE over so many rows of a source; None where they are few, or no table's.
pub fn sieve_of<'s, 'm, 'd>(
    alloc: Global,
    source: Source<'s, 'd>,
    alias: &Txt,
    joins: &[Join],
    filter: &'d Option<Pred>,
    number: usize,
    world: &'m Pinned<'d>,
) -> Result<Option<Sieve<'m, 'd>>, Memory>
    ensures { IfOk result (λ found. IfSome found (SievesOver (world_of world.now) source.entry alias.now (joins_of (map join_view joins.now)) (filter_view filter.now))) }
{
    let Source::Stored(stored) = source else {
        return Ok(None);
    };
    if number < FEW || is_joined(joins, alias) {
        return Ok(None);
    }
    let columns = stored.table.columns.as_slice();
    let sieve = tests_under(alloc, filter, columns, alias, world)?;
    Ok(Some(sieve))
}

// Whether of each list one test is true of a row.
fn all_hold(
    alloc: Global,
    tests: &[Vec<RowTest<'_, '_>>],
    row: &[Val],
    looked: &Cell<u64>,
) -> Result<bool, Memory>
    ensures { IfOk result (λ b. b ≡ all_hold tests.now row.now) }
{
    for any in tests {
        if !one_holds(alloc, any, row, looked)? {
            return Ok(false);
        }
    }
    Ok(true)
}

/// What the tests tell of the row at a place of a source.
pub fn verdict_at<'s, 'd>(
    alloc: Global,
    source: Source<'s, 'd>,
    alias: &Txt,
    joins: &[Join],
    filter: &Option<Pred>,
    sieve: &Option<Sieve<'_, 'd>>,
    position: usize,
    world: &Pinned<'d>,
) -> Result<Verdict, Memory>
    requires { IfSome sieve.now (SievesOver (world_of world.now) source alias.now (joins_of (map join_view joins.now)) (filter_view filter.now)) }
    ensures { IfOk result (Tells (world_of world.now) (joins_of (map join_view joins.now)) (filter_view filter.now) alias.now (row_in source.entry position)) }
{
    let (Source::Stored(stored), Some(sieve)) = (source, sieve) else {
        return Ok(Verdict::Open);
    };
    let Some(rows) = stored.rows else {
        return Ok(Verdict::Open);
    };
    if !all_hold(alloc, &sieve.tests, rows.row(position), &world.work.looked)? {
        return Ok(Verdict::Dropped);
    }
    if sieve.whole {
        return Ok(Verdict::Kept);
    }
    Ok(Verdict::Open)
}
