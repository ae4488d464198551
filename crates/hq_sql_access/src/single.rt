//! Selects that give one row at most.
ghost use Rattle.std.specs.Prelude.{◌≡◌, true, None, map};
ghost use Rattle.hq_sql_tree.specs.Tree.{joins_of};
ghost use Rattle.hq_sql_tree.specs.View.{select_view, join_view};
ghost use Rattle.hq_sql_access.specs.Single.{is_single, are_single, is_one_at_most};

use hq_sql_tree::{JoinList, Select};

// Whether the number of LIMIT is 0 or 1.
fn is_one_at_most(limit: Option<u64>) -> bool
    ensures { result ≡ is_one_at_most limit }
{
    match limit {
        Some(n) => n < 2,
        None => false,
    }
}

/// Whether OFFSET and LIMIT are absent.
pub fn is_whole(limit: Option<u64>, offset: Option<u64>) -> bool
    ensures limit { result ≡ true → limit ≡ None }
    ensures offset { result ≡ true → offset ≡ None }
{
    match (limit, offset) {
        (None, None) => true,
        _ => false,
    }
}

/// Whether a select gives one row at most, as seen by its form: a fold, rows under LIMIT 1 or 0, or rows over One whose
/// joins give one row at most.
#[cycle(single)]
pub fn is_single(select: &Select) -> bool
    ensures { result ≡ is_single (select_view select.now) }
{
    match select {
        Select::Fold { .. } => true,
        Select::Rows {
            from,
            joins,
            limit,
            ..
        } => is_one_at_most(*limit) || (from.is_one() && are_single(joins)),
    }
}

#[cycle(single)]
fn are_single(joins: &JoinList) -> bool
    ensures { result ≡ are_single (joins_of (map join_view joins.now.items)) }
{
    for join in joins {
        if !is_single(&join.select) {
            return false;
        }
    }
    true
}
