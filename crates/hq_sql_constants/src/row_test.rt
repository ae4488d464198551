//! Tests of the rows of a table: the conditions that are tried at the values of a row, without a scope.
ghost use Rattle.std.specs.Prelude.{◌≡◌, cond, map, IfOk, IfSome};
ghost use Rattle.hq_sql_access.specs.View.{world_of};
ghost use Rattle.hq_sql_constants.specs.RowTests.{AreTests, IsAtom, IsTest, one_holds, told, told_by};
ghost use Rattle.hq_sql_tree.specs.Tree.{any_of, negation, preds_of};
ghost use Rattle.hq_sql_tree.specs.View.{pred_view};

use crate::key_test::{KeyTest, key_test, row_has};
use crate::like_test::{LikeTest, like_test, told as told_like};
use crate::plain::{ColumnTest, test_of, told as told_column};
use hq_base::{Memory, Txt, Val};
use hq_model::{Column, Truth};
use hq_sql_access::pinned::Pinned;
use hq_sql_tree::{Pred, PredList};
use std::alloc::Global;
use std::cell::Cell;

/// What is asked of a row.
#[derive(Drop)]
pub enum Atom<'m, 'd> {
    /// Something of one of its columns.
    Column(ColumnTest<'d>),
    /// That one of them is like a pattern.
    Like(LikeTest<'d>),
    /// That keys which are known have its key.
    Keys(KeyTest<'m, 'd>),
}

/// What is asked of a row, or what NOT makes of it.
#[derive(Drop)]
pub struct RowTest<'m, 'd> {
    pub negated: bool,
    pub atom: Atom<'m, 'd>,
}

// The test of a column that a condition is, beside constants or by a pattern.
#[tactic(auto, using(crate::proofs::RowTests::column_is, crate::proofs::RowTests::like_is))]
fn column_atom<'m, 'd>(
    alloc: Global,
    pred: &'d Pred,
    columns: &[Column],
    alias: &Txt,
    world: &'m Pinned<'d>,
) -> Result<Option<Atom<'m, 'd>>, Memory>
    ensures { IfOk result (λ found. IfSome found (IsAtom (world_of world.now) columns.now alias.now (pred_view pred.now))) }
{
    if let Some(test) = test_of(alloc, pred, columns, alias)? {
        return Ok(Some(Atom::Column(test)));
    }
    match like_test(pred, columns, alias, world.matchers) {
        Some(test) => Ok(Some(Atom::Like(test))),
        None => Ok(None),
    }
}

// What a condition asks of a row: a test of a column, or an EXISTS of which keys are known.
#[tactic(auto, using(crate::proofs::RowTests::keys_are))]
fn atom_of<'m, 'd>(
    alloc: Global,
    pred: &'d Pred,
    columns: &[Column],
    alias: &Txt,
    world: &'m Pinned<'d>,
) -> Result<Option<Atom<'m, 'd>>, Memory>
    ensures { IfOk result (λ found. IfSome found (IsAtom (world_of world.now) columns.now alias.now (pred_view pred.now))) }
{
    match pred {
        Pred::Test { .. } => column_atom(alloc, pred, columns, alias, world),
        Pred::Exists(_) => match key_test(alloc, pred, columns, alias, world)? {
            Some(test) => Ok(Some(Atom::Keys(test))),
            None => Ok(None),
        },
        Pred::True | Pred::False | Pred::Not(_) | Pred::And(_) | Pred::Or(_) => Ok(None),
    }
}

// The test that a condition is, or that its NOT is.
#[tactic(auto, using(crate::proofs::RowTests::signed_is))]
fn signed_test<'m, 'd>(
    alloc: Global,
    negated: bool,
    pred: &'d Pred,
    columns: &[Column],
    alias: &Txt,
    world: &'m Pinned<'d>,
) -> Result<Option<RowTest<'m, 'd>>, Memory>
    ensures { IfOk result (λ found. IfSome found (IsTest (world_of world.now) columns.now alias.now (cond negated (negation (pred_view pred.now)) (pred_view pred.now)))) }
{
    match atom_of(alloc, pred, columns, alias, world)? {
        Some(atom) => Ok(Some(RowTest { negated, atom })),
        None => Ok(None),
    }
}

// The test that a condition is, NOT included.
fn row_test<'m, 'd>(
    alloc: Global,
    pred: &'d Pred,
    columns: &[Column],
    alias: &Txt,
    world: &'m Pinned<'d>,
) -> Result<Option<RowTest<'m, 'd>>, Memory>
    ensures { IfOk result (λ found. IfSome found (IsTest (world_of world.now) columns.now alias.now (pred_view pred.now))) }
{
    match pred {
        Pred::Not(inner) => signed_test(alloc, true, inner, columns, alias, world),
        Pred::Test { .. }
        | Pred::True
        | Pred::False
        | Pred::And(_)
        | Pred::Or(_)
        | Pred::Exists(_) => signed_test(alloc, false, pred, columns, alias, world),
    }
}

// The tests of which an OR asks one to be true; None where a member is none.
#[tactic(auto, using(crate::proofs::RowTests::tests_none, crate::proofs::RowTests::tests_more))]
fn tests_of_any<'m, 'd>(
    alloc: Global,
    preds: &'d PredList,
    columns: &[Column],
    alias: &Txt,
    world: &'m Pinned<'d>,
) -> Result<Option<Vec<RowTest<'m, 'd>>>, Memory>
    ensures { IfOk result (λ found. IfSome found (λ ts. AreTests (world_of world.now) columns.now alias.now (any_of (preds_of (map pred_view preds.now.items))) ts.items)) }
{
    let mut tests = Vec::with_capacity(alloc, preds.len())?;
    for pred in preds {
        match row_test(alloc, pred, columns, alias, world)? {
            Some(test) => tests.push(test)?,
            None => return Ok(None),
        }
    }
    Ok(Some(tests))
}

// The one test that a condition is.
#[tactic(auto, using(crate::proofs::RowTests::one_is))]
fn tests_of_one<'m, 'd>(
    alloc: Global,
    pred: &'d Pred,
    columns: &[Column],
    alias: &Txt,
    world: &'m Pinned<'d>,
) -> Result<Option<Vec<RowTest<'m, 'd>>>, Memory>
    ensures { IfOk result (λ found. IfSome found (λ ts. AreTests (world_of world.now) columns.now alias.now (pred_view pred.now) ts.items)) }
{
    let Some(test) = row_test(alloc, pred, columns, alias, world)? else {
        return Ok(None);
    };
    let mut tests = Vec::new(alloc);
    tests.push(test)?;
    Ok(Some(tests))
}

/// The tests of the rows of a table of which a condition asks one to be true; None where it asks for another thing.
pub fn tests_of<'m, 'd>(
    alloc: Global,
    pred: &'d Pred,
    columns: &[Column],
    alias: &Txt,
    world: &'m Pinned<'d>,
) -> Result<Option<Vec<RowTest<'m, 'd>>>, Memory>
    ensures { IfOk result (λ found. IfSome found (λ ts. AreTests (world_of world.now) columns.now alias.now (pred_view pred.now) ts.items)) }
{
    match pred {
        Pred::Or(preds) => tests_of_any(alloc, preds, columns, alias, world),
        Pred::Test { .. }
        | Pred::True
        | Pred::False
        | Pred::Not(_)
        | Pred::And(_)
        | Pred::Exists(_) => tests_of_one(alloc, pred, columns, alias, world),
    }
}

// What is told of a row.
fn told_by(
    alloc: Global,
    atom: &Atom<'_, '_>,
    row: &[Val],
    looked: &Cell<u64>,
) -> Result<Truth, Memory>
    ensures { IfOk result (λ t. t ≡ told_by atom.now row.now) }
{
    match atom {
        Atom::Column(test) => told_column(alloc, test, row),
        Atom::Like(test) => Ok(told_like(test, row)),
        Atom::Keys(test) => Ok(Truth::of(row_has(alloc, test, row, looked)?)),
    }
}

// What a test says of a row.
fn told(
    alloc: Global,
    test: &RowTest<'_, '_>,
    row: &[Val],
    looked: &Cell<u64>,
) -> Result<Truth, Memory>
    ensures { IfOk result (λ t. t ≡ told test.now row.now) }
{
    let truth = told_by(alloc, &test.atom, row, looked)?;
    if test.negated {
        return Ok(truth.negated());
    }
    Ok(truth)
}

/// Whether one of the tests is true of a row. Adds the comparisons of its look-ups.
#[tactic(auto, using(crate::proofs::RowTests::holds_step, crate::proofs::RowTests::holds_end))]
pub fn one_holds(
    alloc: Global,
    tests: &[RowTest<'_, '_>],
    row: &[Val],
    looked: &Cell<u64>,
) -> Result<bool, Memory>
    ensures { IfOk result (λ b. b ≡ one_holds tests.now row.now) }
{
    for test in tests {
        if told(alloc, test, row, looked)?.is_yes() {
            return Ok(true);
        }
    }
    Ok(false)
}
