//! Rows that WHERE keeps, as places.
ghost use Rattle.std.specs.Prelude.{◌≡◌, ◌∷◌, ◌++◌, ◌<◌, map, Some, IfOk, OnOk, option_map, vec_len};
ghost use Rattle.hq_sql_tree.specs.Meaning.{NamedRow};
ghost use Rattle.hq_sql_access.specs.View.{made_view, joined_view, place_of};
ghost use Rattle.hq_sql_access.specs.Joined.{put_off, put_joined, joined_at};

use crate::row::Made;
use hq_base::Memory;
use std::alloc::Global;

/// Of each join, from the first on, the row that was evaluated, or None where it is put off. Those behind the last entry
/// are put off.
pub type Joined<'d> = Vec<Option<Made<'d>>>;

/// A row of FROM and its joins: where the row stands in FROM, and the rows of the joins.
#[derive(Drop)]
pub struct JoinedRow<'d> {
    pub position: usize,
    pub joined: Joined<'d>,
}

/// Adds a place for each row of the joins.
pub fn add_places<'d>(
    places: &mut Vec<JoinedRow<'d>>,
    position: usize,
    lists: Vec<Joined<'d>>,
) -> Result<(), Memory>
    ensures { OnOk result (places.new.items ≡ places.old.items ++ map (place_of position) lists.entry.items) }
{
    for joined in lists {
        places.push(JoinedRow { position, joined })?;
    }
    Ok(())
}

/// The places, and more behind them.
pub fn with_more<'d>(
    places: Vec<JoinedRow<'d>>,
    more: Vec<JoinedRow<'d>>,
) -> Result<Vec<JoinedRow<'d>>, Memory>
    ensures { IfOk result (λ all. all.items ≡ places.entry.items ++ more.entry.items) }
{
    let mut all = places;
    let mut more = more;
    all.append(&mut more)?;
    Ok(all)
}

/// Adds lists behind those that are there.
pub fn add_lists<'d>(all: &mut Vec<Joined<'d>>, lists: Vec<Joined<'d>>) -> Result<(), Memory>
    ensures { OnOk result (all.new.items ≡ all.old.items ++ lists.entry.items) }
{
    for joined in lists {
        all.push(joined)?;
    }
    Ok(())
}

// A copy of the row, in front of the others.
fn in_front<'d>(alloc: Global, row: &Made<'d>, joined: Joined<'d>) -> Result<Joined<'d>, Memory>
    ensures { IfOk result (λ all. joined_view all ≡ Some (made_view row.now) ∷ joined_view joined.entry) }
{
    let mut all = joined;
    let copy = row.copy(alloc)?;
    all.insert(0, Some(copy))?;
    Ok(all)
}

/// Puts a row in front of each list.
pub fn with_row<'d>(
    alloc: Global,
    row: Made<'d>,
    lists: Vec<Joined<'d>>,
) -> Result<Vec<Joined<'d>>, Memory>
    ensures { IfOk result (λ all. map joined_view all.items ≡ map (λ rows. Some (made_view row.entry) ∷ rows) (map joined_view lists.entry.items)) }
{
    let mut all = Vec::with_capacity(alloc, lists.len())?;
    for joined in lists {
        all.push(in_front(alloc, &row, joined)?)?;
    }
    Ok(all)
}

fn put_off<'d>(joined: Joined<'d>) -> Result<Joined<'d>, Memory>
    ensures { IfOk result (λ all. joined_view all ≡ put_off (joined_view joined.entry)) }
{
    if joined.is_empty() {
        return Ok(joined);
    }
    let mut all = joined;
    all.insert(0, None)?;
    Ok(all)
}

/// Puts in front of each list that the join is put off.
pub fn with_none<'d>(alloc: Global, lists: Vec<Joined<'d>>) -> Result<Vec<Joined<'d>>, Memory>
    ensures { IfOk result (λ all. map joined_view all.items ≡ map put_off (map joined_view lists.entry.items)) }
{
    let mut all = Vec::with_capacity(alloc, lists.len())?;
    for joined in lists {
        all.push(put_off(joined)?)?;
    }
    Ok(all)
}

/// The row of the join of this number, counted from 0, where it has one.
pub fn joined_at<'s, 'd>(joined: &'s [Option<Made<'d>>], at: usize) -> Option<&'s Made<'d>>
    ensures { option_map (λ row. made_view row.now) result ≡ joined_at (map (option_map made_view) joined.now) at }
{
    match joined.get(at) {
        Some(Some(row)) => Some(row),
        Some(None) => None,
        None => None,
    }
}

fn copy_row<'d>(alloc: Global, row: &Option<Made<'d>>) -> Result<Option<Made<'d>>, Memory>
    ensures { IfOk result (λ copy. option_map made_view copy ≡ option_map made_view row.now) }
{
    match row {
        Some(row) => Ok(Some(row.copy(alloc)?)),
        None => Ok(None),
    }
}

/// Copies of rows of joins.
pub fn copy_joined<'d>(alloc: Global, joined: &[Option<Made<'d>>]) -> Result<Joined<'d>, Memory>
    ensures { IfOk result (λ copies. joined_view copies ≡ map (option_map made_view) joined.now) }
{
    let mut copies = Vec::with_capacity(alloc, joined.len())?;
    for row in joined {
        copies.push(copy_row(alloc, row)?)?;
    }
    Ok(copies)
}

// With a place for the join of this number: those that are added are put off.
#[tactic(auto, using(crate::proofs::Besides::put_longer))]
fn with_place<'d>(joined: Joined<'d>, at: usize) -> Result<Joined<'d>, Memory>
    ensures long { IfOk result (λ all. at < vec_len all) }
    ensures same { IfOk result (λ all. (row : NamedRow) → put_joined (joined_view all) at row ≡ put_joined (joined_view joined.entry) at row) }
{
    let mut all = joined;
    while all.len() <= at {
        all.push(None)?;
    }
    Ok(all)
}

/// Gives the join of this number, counted from 0, its row.
#[tactic(auto, using(crate::proofs::Besides::put_set))]
pub fn put_joined<'d>(joined: Joined<'d>, at: usize, row: Made<'d>) -> Result<Joined<'d>, Memory>
    ensures { IfOk result (λ all. joined_view all ≡ put_joined (joined_view joined.entry) at (made_view row.entry)) }
{
    let mut all = with_place(joined, at)?;
    all[at] = Some(row);
    Ok(all)
}
