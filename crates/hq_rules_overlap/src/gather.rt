//! The fields of a group of selection sets, and the first of them of each key.
ghost use Rattle.std.specs.Prelude.{◌≡◌, ◌++◌, map, IfOk, OnOk};
ghost use Rattle.hq_gql_tree.specs.Selections.{field_view};
ghost use Rattle.hq_overlap_sets.specs.Pairs.{fields_at};
ghost use Rattle.hq_overlap_sets.specs.Sets.{response_key, field_in, arena_view};
ghost use Rattle.hq_rules_overlap.specs.Groups.{AreOf};
ghost use Rattle.hq_rules_overlap.specs.Heads.{label_place};

use hq_base::Memory;
use hq_gql_nodes::NamePlaces;
use hq_overlap_sets::{Arena, Entry, first_places, place_of, push_entries};
use std::alloc::Global;
use std::collections::HashMap;

// Adds the fields of a set.
fn push_fields<'a>(
    entries: &mut Vec<Entry<'a>>,
    arena: &Arena<'a>,
    set: usize,
) -> Result<(), Memory>
    ensures { OnOk result (map (field_in arena.now) entries.new.items ≡ map (field_in arena.now) entries.old.items ++ fields_at (arena_view arena.now) set) }
{
    match arena.set(set) {
        Some(found) => push_entries(entries, &found.entries),
        None => Ok(()),
    }
}

// The fields of a group.
fn entries_of<'a>(
    alloc: Global,
    arena: &Arena<'a>,
    group: &[usize],
) -> Result<Vec<Entry<'a>>, Memory>
    ensures { IfOk result (λ entries. AreOf (arena_view arena.now) group.now (map (field_in arena.now) entries.items)) }
{
    let mut entries = Vec::new(alloc);
    for set in group {
        push_fields(&mut entries, arena, *set)?;
    }
    Ok(entries)
}

/// The fields of a group in the order of the text.
pub fn sorted_entries<'a>(
    alloc: Global,
    arena: &Arena<'a>,
    group: &[usize],
) -> Result<Vec<Entry<'a>>, Memory>
    ensures { IfOk result (λ entries. AreOf (arena_view arena.now) group.now (map (field_in arena.now) entries.items)) }
{
    let mut entries = entries_of(alloc, arena, group)?;
    entries.sort_by_key(|entry| entry.field.at)?;
    Ok(entries)
}

/// Where the first field of each key stands among some fields, and the first of each key and parent type.
#[derive(Drop)]
pub struct Heads<'a> {
    pub keys: NamePlaces<'a>,
    pub labels: HashMap<(usize, usize), usize>,
}

impl Heads<'_> {
    /// The place that is noted of a field's key and parent type, one beyond each list where none is.
    pub fn label_place(&self, entry: &Entry<'_>) -> usize
        ensures { result ≡ label_place self.now (response_key (field_view entry.now.field.now).0) entry.now.parent }
    {
        let key = place_of(&self.keys, entry.key());
        match self.labels.get(&(key, entry.parent)).copied() {
            Some(at) => at,
            None => usize::MAX,
        }
    }
}

// Notes a place of a key and a parent type, where none is noted yet.
fn note_label(heads: &mut Heads<'_>, entry: &Entry<'_>, at: usize) -> Result<(), Memory> {
    let key = place_of(&heads.keys, entry.key());
    if !heads.labels.contains_key(&(key, entry.parent)) {
        heads.labels.insert((key, entry.parent), at)?;
    }
    Ok(())
}

/// The first of some fields, by keys and parent types. What is noted may be any places: callers test them.
pub fn heads_of<'a>(alloc: Global, entries: &[Entry<'a>]) -> Result<Heads<'a>, Memory> {
    let mut heads = Heads {
        keys: first_places(alloc, entries)?,
        labels: HashMap::new(alloc),
    };
    for (at, entry) in entries.iter().enumerate() {
        note_label(&mut heads, entry, at)?;
    }
    Ok(heads)
}
