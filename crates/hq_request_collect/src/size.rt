//! The size of an operation.
ghost use Rattle.std.specs.Prelude.{◌≡◌, map, is_some};
ghost use Rattle.hq_gql_tree.specs.Selections.{selection_view};
ghost use Rattle.hq_request_collect.specs.Fragments.{inside};
ghost use Rattle.hq_request_collect.specs.Seen.{document_of};
ghost use Rattle.hq_request_collect.specs.Size.{own_fields, less, left_where_empty, left_after, left_in, left_of, is_small};

use crate::fragments::Fragments;
use crate::selections::inside;
use hq_gql_tree::Selection;

// How many more fields there may be, behind the selection itself.
fn behind_own(selection: &Selection, left: u32) -> Option<u32>
    ensures { result ≡ less (own_fields (selection_view selection.now)) left }
{
    match selection {
        Selection::Field(_) => left.checked_sub(1),
        Selection::Spread(_) | Selection::Inline(_) => Some(left),
    }
}

fn left_where_empty(selections: &[Selection], left: u32) -> Option<u32>
    ensures { result ≡ left_where_empty (map selection_view selections.now) left }
{
    match selections {
        [] => Some(left),
        _ => None,
    }
}

// The same behind all of it.
#[cycle(size)]
fn left_behind<'a>(
    fragments: &Fragments<'a>,
    levels: u32,
    selection: &'a Selection,
    left: u32,
) -> Option<u32>
    ensures { result ≡ left_in (left_after levels (document_of fragments.now)) (document_of fragments.now) (selection_view selection.now) left }
{
    let left = behind_own(selection, left)?;
    left_after(fragments, levels, inside(fragments, selection), left)
}

// The same behind several.
#[cycle(size)]
fn left_of<'a>(
    fragments: &Fragments<'a>,
    levels: u32,
    selections: &'a [Selection],
    left: u32,
) -> Option<u32>
    ensures { result ≡ left_of (left_after levels (document_of fragments.now)) (document_of fragments.now) (map selection_view selections.now) left }
{
    let mut left = left;
    for selection in selections {
        left = left_behind(fragments, levels, selection, left)?;
    }
    Some(left)
}

#[cycle(size)]
fn left_after<'a>(
    fragments: &Fragments<'a>,
    levels: u32,
    selections: &'a [Selection],
    left: u32,
) -> Option<u32>
    ensures { result ≡ left_after levels (document_of fragments.now) (map selection_view selections.now) left }
{
    if levels == 0 {
        return left_where_empty(selections, left);
    }
    left_of(fragments, levels - 1, selections, left)
}

/// Whether at most 5,000 fields stand in these selections after fragments are put in, at most 50 deep. It stops at the first
/// field or level beyond a limit.
pub fn is_small<'a>(fragments: &Fragments<'a>, selections: &'a [Selection]) -> bool
    ensures { result ≡ is_small (document_of fragments.now) (map selection_view selections.now) }
{
    left_after(fragments, 50, selections, 5000).is_some()
}
