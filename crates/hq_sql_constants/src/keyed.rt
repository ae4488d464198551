//! The values that an EXISTS whose keys are known asks a column to be one of.
ghost use Rattle.std.specs.Prelude.{◌≡◌, ◌∷◌, [], IfOk, IfSome};
ghost use Rattle.hq_load_index.specs.Grids.{rows_in};
ghost use Rattle.hq_load_index.specs.Indexes.{columns_of};
ghost use Rattle.hq_sql_access.specs.View.{world_of};
ghost use Rattle.hq_sql_constants.specs.Listed.{AreKeys, AsksOneOf, values_in};
ghost use Rattle.hq_sql_tree.specs.View.{pred_view};

use hq_base::{Memory, Txt, Val};
use hq_load_index::{Grid, Index};
use hq_model::ColId;
use hq_sql_access::equations::is_column;
use hq_sql_access::pinned::{KeySet, Pinned};
use hq_sql_scans::key_set::{cell_copy, key_set_of};
use hq_sql_tree::{Expr, Pred};
use std::alloc::Global;

// More keys are not worth to be looked up before WHERE is tried.
const MOST: usize = 4096;

// The values of rows in a column.
fn values_in(alloc: Global, rows: &Grid, column: ColId) -> Result<Vec<Val>, Memory>
    ensures { IfOk result (λ values. values.items ≡ values_in column (rows_in rows.now)) }
{
    let mut values = Vec::with_capacity(alloc, rows.len())?;
    for at in 0..rows.len() {
        values.push(cell_copy(alloc, rows.row(at), column)?)?;
    }
    Ok(values)
}

fn one_column(index: &Index) -> Option<ColId>
    ensures { IfSome result (λ column. columns_of index.now ≡ column ∷ []) }
{
    match index.columns() {
        [column] => Some(*column),
        _ => None,
    }
}

fn one_link<'d>(set: &KeySet<'d>) -> Option<&'d Expr>
    ensures { IfSome result (λ link. set.now.links.items ≡ link ∷ []) }
{
    match set.links.as_slice() {
        [link] => Some(*link),
        _ => None,
    }
}

// The keys of one column, where that is asked to equal the column of this name of the alias.
#[tactic(auto, using(crate::proofs::KeyValues::keys_are))]
fn keys_of(
    alloc: Global,
    set: &KeySet<'_>,
    alias: &Txt,
    name: &Txt,
) -> Result<Option<Vec<Val>>, Memory>
    ensures { IfOk result (λ found. IfSome found (λ values. AreKeys set.now alias.now name.now values.items)) }
{
    let (Some(link), Some(column)) = (one_link(set), one_column(&set.index)) else {
        return Ok(None);
    };
    if set.grid.len() > MOST || !is_column(link, alias, name) {
        return Ok(None);
    }
    let values = values_in(alloc, &set.grid, column)?;
    Ok(Some(values))
}

/// The values of which an EXISTS asks the column to be one, where they are known.
#[tactic(auto, using(crate::proofs::KeyValues::set_asks))]
pub(crate) fn known_keys(
    alloc: Global,
    pred: &Pred,
    alias: &Txt,
    name: &Txt,
    world: &Pinned<'_>,
) -> Result<Option<Vec<Val>>, Memory>
    ensures { IfOk result (λ found. IfSome found (λ values. AsksOneOf (world_of world.now) (pred_view pred.now) alias.now name.now values.items)) }
{
    match key_set_of(world, pred) {
        Some(set) => keys_of(alloc, set, alias, name),
        None => Ok(None),
    }
}

/// The expression that an EXISTS whose keys are known asks one of them to equal, where they are of one column.
pub(crate) fn linked_by<'m>(pred: &Pred, world: &'m Pinned<'_>) -> Option<&'m Expr> {
    let set = key_set_of(world, pred)?;
    if set.grid.len() > MOST {
        return None;
    }
    one_link(set)
}
