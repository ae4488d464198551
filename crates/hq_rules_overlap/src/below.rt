//! The selection sets below the fields of each key of a group.
ghost use Rattle.std.specs.Prelude.{◌≡◌, ℕ, true, length, map, IfOk, IfSome, OnOk};
ghost use Rattle.std.specs.List.{All, Contains};
ghost use Rattle.hq_overlap_sets.specs.Sets.{field_in, arena_view};
ghost use Rattle.hq_overlap_sets.specs.Rows.{row_at};
ghost use Rattle.hq_gql_nodes.specs.Reach.{graph_view};
ghost use Rattle.hq_rules_overlap.specs.Groups.{AreMet, AreTogether, HaveBelow, AreBelow, HasRow, IsKeyAt};

use hq_base::Memory;
use hq_gql_nodes::NamePlaces;
use hq_overlap_sets::{Arena, Entry, empty_rows, entry_at, place_of, push_row};
use std::alloc::Global;

// Whether two fields have one key.
fn have_one_key(arena: &Arena<'_>, first: &Entry<'_>, entry: &Entry<'_>) -> bool
    ensures { result ≡ true → (field_in arena.now first.now).key ≡ (field_in arena.now entry.now).key }
{
    if first.key() != entry.key() {
        return false;
    }
    true
}

// Whether the field at a place of a list has the key of another one.
fn is_key_at(arena: &Arena<'_>, entries: &[Entry<'_>], at: usize, entry: &Entry<'_>) -> bool
    ensures { result ≡ true → IsKeyAt (map (field_in arena.now) entries.now) at (field_in arena.now entry.now) }
{
    match entry_at(entries, at) {
        Some(first) => have_one_key(arena, &first, entry),
        None => false,
    }
}

// Adds the set below a field to the row of its key.
fn push_below(
    rows: &mut Vec<Vec<usize>>,
    arena: &Arena<'_>,
    entries: &[Entry<'_>],
    at: usize,
    entry: &Entry<'_>,
) -> Result<(), Memory>
    requires below { AreBelow (map (field_in arena.now) entries.now) rows.old.items }
    requires stands { Contains (map (field_in arena.now) entries.now) (field_in arena.now entry.now) }
    requires key { IsKeyAt (map (field_in arena.now) entries.now) at (field_in arena.now entry.now) }
    requires length { length rows.old.items ≡ length entries.now }
    ensures below { OnOk result (AreBelow (map (field_in arena.now) entries.now) rows.new.items) }
    ensures length { OnOk result (length rows.new.items ≡ length entries.now) }
    ensures kept { OnOk result ((c s : ℕ) → Contains (row_at rows.old.items c) s → Contains (row_at rows.new.items c) s) }
    ensures added { OnOk result (Contains (row_at rows.new.items at) entry.now.below) }
{
    push_row(rows, at, entry.below)
}

// The same, where its key is that of the field whose place is noted of it; else nothing is done.
fn add_below(
    rows: &mut Vec<Vec<usize>>,
    arena: &Arena<'_>,
    entries: &[Entry<'_>],
    keys: &NamePlaces<'_>,
    entry: &Entry<'_>,
) -> Result<bool, Memory>
    requires below { AreBelow (map (field_in arena.now) entries.now) rows.old.items }
    requires stands { Contains (map (field_in arena.now) entries.now) (field_in arena.now entry.now) }
    requires length { length rows.old.items ≡ length entries.now }
    ensures below { OnOk result (AreBelow (map (field_in arena.now) entries.now) rows.new.items) }
    ensures length { OnOk result (length rows.new.items ≡ length entries.now) }
    ensures kept { OnOk result ((c s : ℕ) → Contains (row_at rows.old.items c) s → Contains (row_at rows.new.items c) s) }
    ensures added { IfOk result (λ added. added ≡ true → HasRow keys.now rows.new.items (field_in arena.now entry.now)) }
{
    let at = place_of(keys, entry.key());
    if !is_key_at(arena, entries, at, entry) {
        return Ok(false);
    }
    push_below(rows, arena, entries, at, entry)?;
    Ok(true)
}

// Adds the sets below all fields to the rows of their keys.
fn add_all(
    rows: &mut Vec<Vec<usize>>,
    arena: &Arena<'_>,
    entries: &[Entry<'_>],
    keys: &NamePlaces<'_>,
) -> Result<bool, Memory>
    requires below { AreBelow (map (field_in arena.now) entries.now) rows.old.items }
    requires length { length rows.old.items ≡ length entries.now }
    ensures below { OnOk result (AreBelow (map (field_in arena.now) entries.now) rows.new.items) }
    ensures length { OnOk result (length rows.new.items ≡ length entries.now) }
    ensures added { IfOk result (λ added. added ≡ true → All (HasRow keys.now rows.new.items) (map (field_in arena.now) entries.now)) }
{
    for entry in entries {
        let added = add_below(&mut *rows, arena, entries, keys, entry)?;
        if !added {
            return Ok(false);
        }
    }
    Ok(true)
}

/// For each field that is the first of its key the sets below all fields of that key, and an empty row for each other one. None where
/// `keys` has not the first place of each key.
pub fn rows_of(
    alloc: Global,
    arena: &Arena<'_>,
    entries: &[Entry<'_>],
    keys: &NamePlaces<'_>,
) -> Result<Option<Vec<Vec<usize>>>, Memory>
    requires { AreMet (arena_view arena.now) (map (field_in arena.now) entries.now) }
    ensures below { IfOk result (λ found. IfSome found (λ rows. HaveBelow (graph_view rows.items) (map (field_in arena.now) entries.now))) }
    ensures together { IfOk result (λ found. IfSome found (λ rows. All (AreTogether (arena_view arena.now)) (graph_view rows.items))) }
{
    let mut rows = empty_rows(alloc, entries.len())?;
    let added = add_all(&mut rows, arena, entries, keys)?;
    if !added {
        return Ok(None);
    }
    Ok(Some(rows))
}
