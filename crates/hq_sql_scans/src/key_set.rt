//! EXISTS by the keys of the rows that its WHERE keeps.
ghost use Rattle.std.specs.Prelude.{◌≡◌, ◌++◌, ◌+◌, ◌<◌, ◌^◌, map, length, false, IfOk, IfSome, OnOk, slice_index_or};
ghost use Rattle.hq_base.specs.declared.value.Val.TheVariants as val;
ghost use Rattle.hq_load_index.specs.Grids.{rows_in};
ghost use Rattle.hq_load_index.specs.Indexes.{IsOver, counted};
ghost use Rattle.hq_load_index.specs.Keys.{cell_view as key_view};
ghost use Rattle.hq_model.specs.Logic.{truth_of};
ghost use Rattle.hq_sql_tree.specs.Meaning.{World, truth_at};
ghost use Rattle.hq_sql_tree.specs.View.{pred_view};
ghost use Rattle.hq_sql_access.specs.KeySets.{IsKeySet, IsOwnSet, keeps_key, link_keys};
ghost use Rattle.hq_sql_scans.specs.ChosenKeys.{Gathers, KeepsKeys, chosen, is_key, picked};
ghost use Rattle.hq_sql_access.specs.View.{names_of, scope_of, world_of};

use hq_base::{Memory, Val};
use hq_load_index::{Grid, Index, KeyCell};
use hq_load_tables::Rows;
use hq_model::ColId;
use hq_sql_access::equations::outer_cell;
use hq_sql_access::pinned::{KeySet, Pinned};
use hq_sql_access::scope::Scope;
use hq_sql_conjuncts::same_pred;
use hq_sql_tree::{Expr, Pred};
use std::alloc::Global;
use std::cell::Cell;

/// The keys that are known of a condition.
#[tactic(auto, using(crate::proofs::KeySets::same_set))]
pub fn key_set_of<'m, 'd>(world: &'m Pinned<'d>, pred: &Pred) -> Option<&'m KeySet<'d>>
    ensures { IfSome result (λ s. IsKeySet (world_of world.now) (pred_view pred.now) s.now) }
{
    for set in &world.sets {
        if same_pred(set.pred, pred) {
            return Some(set);
        }
    }
    None
}

// The key that expressions have in a scope; None where one is not known without evaluating a join.
#[tactic(auto, using(crate::proofs::KeySets::no_key, crate::proofs::KeySets::more_key))]
fn key_at<'d>(
    alloc: Global,
    links: &[&'d Expr],
    scope: &Scope<'_, 'd>,
) -> Result<Option<Vec<KeyCell<'d>>>, Memory>
    ensures { IfOk result (λ found. IfSome found (λ key. (w : World) → map key_view key.items ≡ link_keys links.now (scope_of scope.now w))) }
{
    let mut key = Vec::with_capacity(alloc, links.len())?;
    for link in links {
        match outer_cell(alloc, link, scope)? {
            Some(cell) => key.push(cell)?,
            None => return Ok(None),
        }
    }
    Ok(Some(key))
}

/// Whether this is one of the keys. Adds the comparisons of its look-up.
#[tactic(auto, using(crate::proofs::KeySets::told_has))]
pub fn has_key<'d>(set: &KeySet<'d>, key: &[KeyCell<'_>], looked: &Cell<u64>) -> bool
    requires { IsOver (rows_in set.now.grid) set.now.index }
    ensures { result ≡ is_key set.now (map key_view key.now) }
{
    let found = set.index.found(&set.grid, key);
    looked.set(looked.get().saturating_add(found.compared));
    !found.rows.is_empty()
}

/// Whether one of the keys is that of a scope; None where that is not known without evaluating a join.
pub fn has_row<'d>(
    alloc: Global,
    set: &KeySet<'d>,
    looked: &Cell<u64>,
    scope: &Scope<'_, 'd>,
) -> Result<Option<bool>, Memory>
    requires { IsOver (rows_in set.now.grid) set.now.index }
    ensures { IfOk result (λ found. IfSome found (λ b. (w : World) → b ≡ keeps_key set.now (scope_of scope.now w))) }
{
    let Some(key) = key_at(alloc, &set.links, scope)? else {
        return Ok(None);
    };
    Ok(Some(has_key(set, &key, looked)))
}

/// Whether a condition is true, where keys are known of it; None where none are, or that of the scope is not known without evaluating
/// a join.
pub fn known_row<'d>(
    alloc: Global,
    pred: &Pred,
    world: &Pinned<'d>,
    scope: &Scope<'_, 'd>,
) -> Result<Option<bool>, Memory>
    ensures { IfOk result (λ found. IfSome found (λ b. truth_of b ≡ truth_at (pred_view pred.now) (world_of world.now) (names_of scope.now world.now))) }
{
    match key_set_of(world, pred) {
        Some(set) => has_row(alloc, set, &world.work.looked, scope),
        None => Ok(None),
    }
}

/// The value of a row in a column, NULL where the row has none.
pub fn cell_copy(alloc: Global, row: &[Val], column: ColId) -> Result<Val, Memory>
    ensures { IfOk result (λ value. value ≡ slice_index_or row.now column val.Null) }
{
    match row.get(column.at()) {
        Some(value) => value.copy(alloc),
        None => Ok(Val::Null),
    }
}

// Adds copies of the cells of a row in columns.
#[tactic(auto, using(crate::proofs::KeySets::picked_more))]
fn push_cells(
    alloc: Global,
    row: &[Val],
    columns: &[ColId],
    values: &mut Vec<Val>,
) -> Result<(), Memory>
    ensures { OnOk result (values.new.items ≡ values.old.items ++ picked columns.now row.now) }
{
    for column in columns {
        values.push(cell_copy(alloc, row, *column)?)?;
    }
    Ok(())
}

// The values of rows one after the other, and how many rows these are.
#[derive(Drop)]
struct Values {
    values: Vec<Val>,
    count: usize,
}

// Gathers the row of this number too, where it is chosen.
fn gather_row(
    alloc: Global,
    rows: &Rows,
    truths: &[bool],
    at: usize,
    truth: bool,
    columns: &[ColId],
    all: Values,
) -> Result<Values, Memory>
    requires within { at < length truths.now }
    requires whole { length truths.now ≡ length rows.now }
    requires truth { slice_index_or truths.now at false ≡ truth }
    requires so_far { Gathers columns.now truths.now rows.now at all.values.items all.count }
    ensures { IfOk result (λ more. Gathers columns.now truths.now rows.now (at + 1) more.values.items more.count) }
{
    if !truth {
        return Ok(all);
    }
    let mut values = all.values;
    push_cells(alloc, rows.row(at), columns, &mut values)?;
    Ok(Values {
        values,
        count: all.count + 1,
    })
}

// The cells in columns of the rows that are chosen.
#[tactic(auto, using(crate::proofs::KeySets::gathers_none))]
fn chosen_values(
    alloc: Global,
    rows: &Rows,
    truths: &[bool],
    columns: &[ColId],
) -> Result<Values, Memory>
    requires { length truths.now ≡ length rows.now }
    ensures { IfOk result (λ all. Gathers columns.now truths.now rows.now (length truths.now) all.values.items all.count) }
{
    let mut all = Values {
        values: Vec::new(alloc),
        count: 0,
    };
    for at in 0..truths.len() {
        all = gather_row(alloc, rows, truths, at, truths[at], columns, all)?;
    }
    Ok(all)
}

// The keys in columns of the rows that are chosen.
#[tactic(auto, using(crate::proofs::KeySets::grid_whole, crate::proofs::KeySets::grid_rows, crate::proofs::KeySets::grid_few))]
fn key_grid(alloc: Global, rows: &Rows, truths: &[bool], columns: &[ColId]) -> Result<Grid, Memory>
    requires whole { length truths.now ≡ length rows.now }
    requires few { length truths.now < 2 ^ 31 }
    ensures rows { IfOk result (λ grid. rows_in grid ≡ map (picked columns.now) (chosen truths.now rows.now)) }
    ensures few { IfOk result (λ grid. length (rows_in grid) < 2 ^ 32) }
{
    let width = columns.len();
    let all = chosen_values(alloc, rows, truths, columns)?;
    Ok(Grid::of(width, all.count, all.values))
}

// The numbers of so many columns.
#[tactic(auto, using(hq_load_index::proofs::Counted::counted_more))]
fn first_columns(alloc: Global, width: usize) -> Result<Vec<ColId>, Memory>
    ensures { IfOk result (λ all. all.items ≡ counted 0 width) }
{
    let mut all = Vec::with_capacity(alloc, width)?;
    for at in 0..width {
        all.push(ColId::new(at))?;
    }
    Ok(all)
}

/// The keys of a condition that is true exactly where one of these rows of a table is chosen and has the key of the links.
pub fn key_set<'d>(
    alloc: Global,
    pred: &'d Pred,
    rows: &Rows,
    truths: &[bool],
    columns: &[ColId],
    links: Vec<&'d Expr>,
    world: &Pinned<'d>,
) -> Result<KeySet<'d>, Memory>
    requires keeps { KeepsKeys (world_of world.now) (pred_view pred.now) rows.now truths.now columns.now links.items }
    requires few { length truths.now < 2 ^ 31 }
    ensures { IfOk result (λ s. IsOwnSet (world_of world.now) s) }
{
    let grid = key_grid(alloc, rows, truths, columns)?;
    let width = columns.len();
    let own = first_columns(alloc, width)?;
    let index = Index::build(alloc, &grid, own)?;
    Ok(KeySet {
        pred,
        links,
        grid,
        index,
    })
}
