//! Conditions of which keys are known, where they ask for the key of a row of a table: its columns are found once, and the key is read
//! of the values of the rows, without a scope.
ghost use Rattle.std.proofs.Props.{props};
ghost use Rattle.std.specs.Prelude.{◌≡◌, map, IfOk, IfSome};
ghost use Rattle.hq_load_index.specs.Grids.{rows_in};
ghost use Rattle.hq_load_index.specs.Indexes.{IsOver};
ghost use Rattle.hq_load_index.specs.Keys.{cell_in, cell_view as key_view, key_in};
ghost use Rattle.hq_sql_access.specs.View.{world_of};
ghost use Rattle.hq_sql_constants.specs.KeyTests.{AreOwn, IsKeyTest, row_has};
ghost use Rattle.hq_sql_tree.specs.View.{pred_view};

use hq_base::{Memory, Txt, Val};
use hq_load_index::KeyCell;
use hq_model::{ColId, Column};
use hq_sql_access::pinned::{KeySet, Pinned};
use hq_sql_scans::key_set::{has_key, key_set_of};
use hq_sql_scans::links::own_column;
use hq_sql_tree::{Expr, Pred};
use std::alloc::Global;
use std::cell::Cell;
use std::slice;

/// The keys that are known of a condition, and the columns of a table in which it asks for one of them.
#[derive(Drop)]
pub struct KeyTest<'m, 'd> {
    pub set: &'m KeySet<'d>,
    pub columns: Vec<ColId>,
    ghost over: { IsOver (rows_in set.now.grid) set.now.index } by { Prim.hlevel props },
}

// The columns of the alias that expressions are; None where one is none.
#[tactic(auto, using(crate::proofs::KeyTests::own_none, crate::proofs::KeyTests::own_more))]
fn own_columns(
    alloc: Global,
    links: &[&Expr],
    columns: &[Column],
    alias: &Txt,
) -> Result<Option<Vec<ColId>>, Memory>
    ensures { IfOk result (λ found. IfSome found (λ own. AreOwn columns.now alias.now links.now own.items)) }
{
    let mut own = Vec::with_capacity(alloc, links.len())?;
    for link in links {
        match own_column(link, columns, alias) {
            Some(column) => own.push(column)?,
            None => return Ok(None),
        }
    }
    Ok(Some(own))
}

/// The test of the key of a row that a condition is, where keys are known of it.
pub(crate) fn key_test<'m, 'd>(
    alloc: Global,
    pred: &Pred,
    columns: &[Column],
    alias: &Txt,
    world: &'m Pinned<'d>,
) -> Result<Option<KeyTest<'m, 'd>>, Memory>
    ensures { IfOk result (λ found. IfSome found (λ t. IsKeyTest (world_of world.now) columns.now alias.now (pred_view pred.now) t.set.now t.columns.items)) }
{
    let Some(set) = key_set_of(world, pred) else {
        return Ok(None);
    };
    match own_columns(alloc, &set.links, columns, alias)? {
        Some(columns) => Ok(Some(KeyTest { set, columns })),
        None => Ok(None),
    }
}

fn key_cell(row: &[Val], column: ColId) -> KeyCell<'_>
    ensures { key_view result ≡ cell_in row.now column }
{
    match row.get(column.at()) {
        Some(value) => KeyCell::of(value),
        None => KeyCell::Null,
    }
}

// The key of a row in columns.
#[tactic(auto, using(crate::proofs::KeyTests::key_more))]
fn row_key<'r>(alloc: Global, row: &'r [Val], columns: &[ColId]) -> Result<Vec<KeyCell<'r>>, Memory>
    ensures { IfOk result (λ key. map key_view key.items ≡ key_in columns.now row.now) }
{
    let mut key = Vec::with_capacity(alloc, columns.len())?;
    for column in columns {
        key.push(key_cell(row, *column))?;
    }
    Ok(key)
}

/// Whether one of the keys is that of a row. A key of one cell is put into no list.
pub(crate) fn row_has(
    alloc: Global,
    test: &KeyTest<'_, '_>,
    row: &[Val],
    looked: &Cell<u64>,
) -> Result<bool, Memory>
    ensures { IfOk result (λ b. b ≡ row_has test.now.set.now test.now.columns.items row.now) }
{
    if let [column] = test.columns.as_slice() {
        let cell = key_cell(row, *column);
        return Ok(has_key(test.set, slice::from_ref(&cell), looked));
    }
    let key = row_key(alloc, row, &test.columns)?;
    Ok(has_key(test.set, &key, looked))
}
