//! Selection sets in classes of those that may be put together.
ghost use Rattle.std.specs.Prelude.{◌≡◌, map, IfOk, OnOk};
ghost use Rattle.hq_schema.specs.Schema.{schema_view};
ghost use Rattle.hq_gql_tree.specs.Selections.{field_view};
ghost use Rattle.hq_overlap_classes.specs.Classes.{Joined, IsOfClass};
ghost use Rattle.hq_overlap_classes.specs.Disputes.{class_of, first_of};
ghost use Rattle.hq_overlap_classes.specs.Noting.{AreToJoin, AreNoted};
ghost use Rattle.hq_overlap_sets.specs.Pairs.{fields_at, spreads_at};
ghost use Rattle.hq_overlap_sets.specs.Sets.{response_key, place_in, field_in, arena_view};

use crate::partition::Partition;
use hq_base::Memory;
use hq_gql_nodes::NamePlaces;
use hq_overlap_sets::{Arena, Entry, Pair, all_entries, first_places, place_of};
use std::alloc::Global;
use std::collections::HashMap;

/// The classes of selection sets, and the field of each class and key that was seen first. A key goes by the number of the first field
/// of the document that has it.
#[derive(Drop)]
pub struct Classes<'a> {
    pub sets: Partition,
    pub keys: NamePlaces<'a>,
    pub firsts: HashMap<(usize, usize), Entry<'a>>,
}

impl<'a> Classes<'a> {
    /// The class of a set.
    pub fn class_of(&self, set: usize) -> usize
        ensures { result ≡ class_of self.now.sets set }
    {
        self.sets.class_of(set)
    }

    /// The number of a field's key.
    pub fn key_of(&self, entry: &Entry<'_>) -> usize
        ensures { result ≡ place_in self.now.keys (response_key (field_view entry.now.field.now).0) }
    {
        place_of(&self.keys, entry.key())
    }

    /// The first field of a class and a key.
    pub fn first(&self, class: usize, key: usize) -> Option<Entry<'a>>
        ensures { result ≡ first_of self.now class key }
    {
        self.firsts.get(&(class, key)).copied()
    }

    // Notes the first field of a class and a key.
    fn note_first(
        &mut self,
        arena: &Arena<'a>,
        class: usize,
        key: usize,
        entry: &Entry<'a>,
    ) -> Result<(), Memory>
        requires sound { AreNoted (schema_view arena.now.schema.now) (arena_view arena.now) self.old }
        requires stands { IsOfClass (arena_view arena.now) class (field_in arena.now entry.now) }
        ensures { OnOk result (AreNoted (schema_view arena.now.schema.now) (arena_view arena.now) self.new) }
    {
        self.firsts.insert((class, key), *entry)?;
        Ok(())
    }

    // Notes a field of a class. The sets below it and below the first one of its key are to be joined.
    fn note(
        &mut self,
        arena: &Arena<'a>,
        pending: &mut Vec<Pair>,
        class: usize,
        entry: &Entry<'a>,
    ) -> Result<(), Memory>
        requires sound { AreNoted (schema_view arena.now.schema.now) (arena_view arena.now) self.old }
        requires pending { AreToJoin (arena_view arena.now) pending.old.items }
        requires stands { IsOfClass (arena_view arena.now) class (field_in arena.now entry.now) }
        ensures sound { OnOk result (AreNoted (schema_view arena.now.schema.now) (arena_view arena.now) self.new) }
        ensures pending { OnOk result (AreToJoin (arena_view arena.now) pending.new.items) }
    {
        let key = self.key_of(entry);
        match self.first(class, key) {
            Some(first) => push_below(&mut *pending, arena, class, &first, entry),
            None => self.note_first(arena, class, key, entry),
        }
    }

    // Notes the fields of a set.
    fn note_fields(
        &mut self,
        arena: &Arena<'a>,
        pending: &mut Vec<Pair>,
        set: usize,
        entries: &[Entry<'a>],
    ) -> Result<(), Memory>
        requires sound { AreNoted (schema_view arena.now.schema.now) (arena_view arena.now) self.old }
        requires pending { AreToJoin (arena_view arena.now) pending.old.items }
        requires entries { map (field_in arena.now) entries.now ≡ fields_at (arena_view arena.now) set }
        ensures sound { OnOk result (AreNoted (schema_view arena.now.schema.now) (arena_view arena.now) self.new) }
        ensures pending { OnOk result (AreToJoin (arena_view arena.now) pending.new.items) }
    {
        let class = self.class_of(set);
        for entry in entries {
            self.note(arena, &mut *pending, class, entry)?;
        }
        Ok(())
    }

    // Notes the fields of a set of a number.
    fn note_set(
        &mut self,
        arena: &Arena<'a>,
        pending: &mut Vec<Pair>,
        set: usize,
    ) -> Result<(), Memory>
        requires sound { AreNoted (schema_view arena.now.schema.now) (arena_view arena.now) self.old }
        requires pending { AreToJoin (arena_view arena.now) pending.old.items }
        ensures sound { OnOk result (AreNoted (schema_view arena.now.schema.now) (arena_view arena.now) self.new) }
        ensures pending { OnOk result (AreToJoin (arena_view arena.now) pending.new.items) }
    {
        match arena.set(set) {
            Some(found) => self.note_fields(arena, pending, set, &found.entries),
            None => Ok(()),
        }
    }

    // Notes the fields of each set of a list.
    fn note_sets(
        &mut self,
        arena: &Arena<'a>,
        pending: &mut Vec<Pair>,
        sets: &[usize],
    ) -> Result<(), Memory>
        requires sound { AreNoted (schema_view arena.now.schema.now) (arena_view arena.now) self.old }
        requires pending { AreToJoin (arena_view arena.now) pending.old.items }
        ensures sound { OnOk result (AreNoted (schema_view arena.now.schema.now) (arena_view arena.now) self.new) }
        ensures pending { OnOk result (AreToJoin (arena_view arena.now) pending.new.items) }
    {
        for set in sets {
            self.note_set(arena, &mut *pending, *set)?;
        }
        Ok(())
    }

    // Joins the sets of a pair, and notes the fields of those whose class is now another.
    fn join_pair(
        &mut self,
        alloc: Global,
        arena: &Arena<'a>,
        pending: &mut Vec<Pair>,
        pair: Pair,
    ) -> Result<(), Memory>
        requires sound { AreNoted (schema_view arena.now.schema.now) (arena_view arena.now) self.old }
        requires pending { AreToJoin (arena_view arena.now) pending.old.items }
        requires joined { Joined (arena_view arena.now) pair.left pair.right }
        ensures sound { OnOk result (AreNoted (schema_view arena.now.schema.now) (arena_view arena.now) self.new) }
        ensures pending { OnOk result (AreToJoin (arena_view arena.now) pending.new.items) }
    {
        let moved = self.sets.join(alloc, arena, pair.left, pair.right)?;
        self.note_sets(arena, &mut *pending, &moved)
    }

    // Joins the sets of pairs one after the other, also those that are found meanwhile.
    fn join_all(
        &mut self,
        alloc: Global,
        arena: &Arena<'a>,
        mut pending: Vec<Pair>,
    ) -> Result<(), Memory>
        requires sound { AreNoted (schema_view arena.now.schema.now) (arena_view arena.now) self.old }
        requires pending { AreToJoin (arena_view arena.now) pending.items }
        ensures { OnOk result (AreNoted (schema_view arena.now.schema.now) (arena_view arena.now) self.new) }
    {
        for _ in 0..u64::MAX {
            let Some(pair) = pending.pop() else {
                return Ok(());
            };
            self.join_pair(alloc, arena, &mut pending, pair)?;
        }
        Ok(())
    }

    // Notes the fields of each set, and the sets that it spreads.
    fn note_all(&mut self, arena: &Arena<'a>, pending: &mut Vec<Pair>) -> Result<(), Memory>
        requires sound { AreNoted (schema_view arena.now.schema.now) (arena_view arena.now) self.old }
        requires pending { AreToJoin (arena_view arena.now) pending.old.items }
        ensures sound { OnOk result (AreNoted (schema_view arena.now.schema.now) (arena_view arena.now) self.new) }
        ensures pending { OnOk result (AreToJoin (arena_view arena.now) pending.new.items) }
    {
        for number in 0..arena.sets.len() {
            self.note_set(arena, &mut *pending, number)?;
            push_spreads(&mut *pending, arena, number)?;
        }
        Ok(())
    }
}

// Notes the sets below two fields of one class as to be joined, if they have one key.
fn push_below(
    pending: &mut Vec<Pair>,
    arena: &Arena<'_>,
    class: usize,
    first: &Entry<'_>,
    entry: &Entry<'_>,
) -> Result<(), Memory>
    requires pending { AreToJoin (arena_view arena.now) pending.old.items }
    requires first { IsOfClass (arena_view arena.now) class (field_in arena.now first.now) }
    requires second { IsOfClass (arena_view arena.now) class (field_in arena.now entry.now) }
    ensures { OnOk result (AreToJoin (arena_view arena.now) pending.new.items) }
{
    if first.key() != entry.key() {
        return Ok(());
    }
    push_pair(pending, arena, first.below, entry.below)
}

// Notes two sets as to be joined.
fn push_pair(
    pending: &mut Vec<Pair>,
    arena: &Arena<'_>,
    left: usize,
    right: usize,
) -> Result<(), Memory>
    requires pending { AreToJoin (arena_view arena.now) pending.old.items }
    requires joined { Joined (arena_view arena.now) left right }
    ensures { OnOk result (AreToJoin (arena_view arena.now) pending.new.items) }
{
    pending.push(Pair { left, right })?;
    Ok(())
}

// Notes the sets that a set spreads as to be joined with it.
fn push_each(
    pending: &mut Vec<Pair>,
    arena: &Arena<'_>,
    set: usize,
    spreads: &[usize],
) -> Result<(), Memory>
    requires pending { AreToJoin (arena_view arena.now) pending.old.items }
    requires spreads { spreads.now ≡ spreads_at (arena_view arena.now) set }
    ensures { OnOk result (AreToJoin (arena_view arena.now) pending.new.items) }
{
    for spread in spreads {
        push_pair(&mut *pending, arena, set, *spread)?;
    }
    Ok(())
}

// The same of a set of a number.
fn push_spreads(pending: &mut Vec<Pair>, arena: &Arena<'_>, set: usize) -> Result<(), Memory>
    requires pending { AreToJoin (arena_view arena.now) pending.old.items }
    ensures { OnOk result (AreToJoin (arena_view arena.now) pending.new.items) }
{
    match arena.set(set) {
        Some(found) => push_each(pending, arena, set, &found.spreads),
        None => Ok(()),
    }
}

// Classes of which nothing is noted but their sets.
fn start<'a>(alloc: Global, arena: &Arena<'a>) -> Result<Classes<'a>, Memory>
    ensures { IfOk result (AreNoted (schema_view arena.now.schema.now) (arena_view arena.now)) }
{
    let entries = all_entries(alloc, arena)?;
    let keys = first_places(alloc, &entries)?;
    let sets = Partition::new(alloc, arena)?;
    Ok(Classes {
        sets,
        keys,
        firsts: HashMap::new(alloc),
    })
}

/// The classes of a document's selection sets. Sets that share a class there are of one class.
pub fn classes_of<'a>(alloc: Global, arena: &Arena<'a>) -> Result<Classes<'a>, Memory>
    ensures { IfOk result (AreNoted (schema_view arena.now.schema.now) (arena_view arena.now)) }
{
    let mut classes = start(alloc, arena)?;
    let mut pending = Vec::new(alloc);
    classes.note_all(arena, &mut pending)?;
    classes.join_all(alloc, arena, pending)?;
    Ok(classes)
}
