//! The fields of a document, and where each response key stands first among some.
ghost use Rattle.std.specs.Prelude.{◌≡◌, ◌++◌, map, IfOk, OnOk};
ghost use Rattle.std.specs.List.{flat_map};
ghost use Rattle.hq_schema.specs.Schema.{schema_view};
ghost use Rattle.hq_overlap_sets.specs.Sets.{entry_view, place_in, arena_view};

use crate::sets::{Arena, Entry};
use hq_base::Memory;
use hq_gql_nodes::{NamePlaces, note_first};
use std::alloc::Global;
use std::collections::HashMap;

/// Where each key stands first among some fields.
pub fn first_places<'a>(alloc: Global, entries: &[Entry<'a>]) -> Result<NamePlaces<'a>, Memory> {
    let mut places = HashMap::new(alloc);
    for (at, entry) in entries.iter().enumerate() {
        note_first(&mut places, entry.key(), at)?;
    }
    Ok(places)
}

/// The place of a key, one beyond each list where it has none.
pub fn place_of(places: &NamePlaces<'_>, key: &str) -> usize
    ensures { result ≡ place_in places.now key.now }
{
    match places.get(key).copied() {
        Some(at) => at,
        None => usize::MAX,
    }
}

/// The fields of all sets.
pub fn all_entries<'a>(alloc: Global, arena: &Arena<'a>) -> Result<Vec<Entry<'a>>, Memory>
    ensures { IfOk result (λ entries. map (entry_view (schema_view arena.now.schema.now)) entries.items ≡ flat_map (λ x. x.fields) (arena_view arena.now)) }
{
    let mut entries = Vec::new(alloc);
    for set in &arena.sets {
        push_entries(&mut entries, &set.entries)?;
    }
    Ok(entries)
}

/// Adds fields to a list.
pub fn push_entries<'a>(entries: &mut Vec<Entry<'a>>, more: &[Entry<'a>]) -> Result<(), Memory>
    ensures { OnOk result (entries.new.items ≡ entries.old.items ++ more.now) }
{
    for entry in more {
        entries.push(*entry)?;
    }
    Ok(())
}
