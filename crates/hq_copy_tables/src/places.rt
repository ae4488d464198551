//! Places in lists.
ghost use Rattle.std.specs.Prelude.{◌≡◌, ◌==◌, ◌≤◌, length, map};
ghost use Rattle.std.specs.List.{position_or_len};
ghost use Rattle.hq_copy_definition.specs.Extras.{is_from_end, is_to_end};
ghost use Rattle.hq_copy_definition.specs.Sources.{place_in, table_place};
ghost use Rattle.hq_copy_tables.specs.Views.{extra_view, link_view, source_view};

use crate::linked::same_link;
use crate::{Extra, Link, Source};
use hq_model::{ColId, TableId};

/// The place of a column among these, behind the last one where it is not among them.
pub(crate) fn place_in(columns: &[ColId], column: ColId) -> usize
    ensures { result ≡ place_in columns.now column }
{
    match columns.iter().position(|c| c.at() == column.at()) {
        Some(at) => at,
        None => columns.len(),
    }
}

/// The place of a table in the copy, behind the last one where it is not copied.
pub fn table_place(sources: &[Source<'_>], t: TableId) -> usize
    ensures { result ≡ table_place (map source_view sources.now) t }
{
    match sources
        .iter()
        .position(|source| source.entry.table.at() == t.at())
    {
        Some(at) => at,
        None => sources.len(),
    }
}

// Whether an added column is the own end of a link.
fn is_from_end(link: Link, extra: Extra) -> bool
    ensures { result ≡ is_from_end (link_view link) (extra_view extra) }
{
    match extra {
        Extra::From { link: other, .. } => same_link(other, link),
        Extra::To { .. } | Extra::Position => false,
    }
}

// Whether it is the remote end of a link.
fn is_to_end(link: Link, extra: Extra) -> bool
    ensures { result ≡ is_to_end (link_view link) (extra_view extra) }
{
    match extra {
        Extra::To { link: other, .. } => same_link(other, link),
        Extra::From { .. } | Extra::Position => false,
    }
}

/// The place of the own end of a link among added columns.
pub(crate) fn from_end_place(extras: &[Extra], link: Link) -> usize
    ensures place { result ≡ position_or_len (is_from_end (link_view link)) (map extra_view extras.now) }
    ensures within { result ≤ length extras.now }
{
    match extras.iter().position(|extra| is_from_end(link, *extra)) {
        Some(at) => at,
        None => extras.len(),
    }
}

/// The place of the remote end of a link among added columns.
pub(crate) fn to_end_place(extras: &[Extra], link: Link) -> usize
    ensures place { result ≡ position_or_len (is_to_end (link_view link)) (map extra_view extras.now) }
    ensures within { result ≤ length extras.now }
{
    match extras.iter().position(|extra| is_to_end(link, *extra)) {
        Some(at) => at,
        None => extras.len(),
    }
}
