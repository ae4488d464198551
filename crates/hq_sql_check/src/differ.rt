//! Names that all differ.
ghost use Rattle.std.specs.Prelude.{◌≡◌, IfOk, map, bytes_eq};
ghost use Rattle.hq_base.specs.Lists.{all_differ};
ghost use Rattle.hq_sql_tree.specs.Tree.{pairs_of};
ghost use Rattle.hq_sql_tree.specs.View.{out_view, pair_view};
ghost use Rattle.hq_sql_tree.specs.WellFormed.{pair_names};
ghost use Rattle.hq_sql_check.specs.Scopes.{texts, neighbours_differ};

use hq_base::{Memory, sort};
use hq_sql_tree::{ExprPairList, OutList};
use std::alloc::Global;

// Whether each name differs from the next one.
fn neighbours_differ(names: &[&str]) -> bool
    ensures { result ≡ neighbours_differ bytes_eq (texts names.now) }
{
    let mut rest = names;
    while let [first, others @ ..] = rest {
        if let [second, ..] = others {
            if *first == *second {
                return false;
            }
        }
        rest = others;
    }
    true
}

// Sorts the names, and gives whether all differ.
fn sorted_differ(alloc: Global, names: &mut [&str]) -> Result<bool, Memory>
    ensures { IfOk result (λ differ. differ ≡ all_differ bytes_eq (texts names.old)) }
{
    sort(alloc, names)?;
    Ok(neighbours_differ(names))
}

/// Whether all names differ, in n log n comparisons.
pub(crate) fn all_differ(alloc: Global, mut names: Vec<&str>) -> Result<bool, Memory>
    ensures { IfOk result (λ differ. differ ≡ all_differ bytes_eq (texts names.entry.items)) }
{
    sorted_differ(alloc, &mut names)
}

/// Whether the names of an object's members differ.
pub(crate) fn pairs_differ(alloc: Global, pairs: &ExprPairList) -> Result<bool, Memory>
    ensures { IfOk result (λ differ. differ ≡ all_differ bytes_eq (pair_names (pairs_of (map pair_view pairs.now.items)))) }
{
    let mut names = Vec::with_capacity(alloc, pairs.len())?;
    for pair in pairs {
        names.push(pair.name.as_str())?;
    }
    all_differ(alloc, names)
}

/// Whether the names of a select's outputs differ.
pub(crate) fn outs_differ(alloc: Global, outs: &OutList) -> Result<bool, Memory>
    ensures { IfOk result (λ differ. differ ≡ all_differ bytes_eq (map (λ o. o.name) (map out_view outs.now.items))) }
{
    let mut names = Vec::with_capacity(alloc, outs.len())?;
    for out in outs {
        names.push(out.name.as_str())?;
    }
    all_differ(alloc, names)
}
