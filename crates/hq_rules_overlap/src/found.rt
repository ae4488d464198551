//! The conflicts between the fields of a group.
ghost use Rattle.std.specs.Prelude.{◌≡◌, ◌⊎◌, ℕ, Some, true, map, IfOk, OnOk};
ghost use Rattle.std.specs.List.{All, Contains};
ghost use Rattle.hq_gql_nodes.specs.Least.{earlier};
ghost use Rattle.hq_overlap_sets.specs.Pairs.{AtMost};
ghost use Rattle.hq_overlap_sets.specs.Sets.{field_in, arena_view};
ghost use Rattle.hq_overlap_sets.specs.Together.{AreConflicts};
ghost use Rattle.hq_rules_overlap.specs.Groups.{IsSettled, IsMet, AreMet, AreCounted, is_at_most};
ghost use Rattle.hq_rules_overlap.specs.Heads.{first_in, label_in};

use crate::gather::Heads;
use hq_base::Memory;
use hq_gql_nodes::{at_if, earlier};
use hq_overlap_sets::{Arena, Entry, are_alike, cannot_merge, entry_at, later, place_of};
use std::alloc::Global;

/// The least place of a field that is not seen to merge with those before it, and the least one of a conflict that was found.
#[derive(Clone, Copy)]
pub struct Found {
    pub least: Option<u64>,
    pub best: Option<u64>,
}

/// Whether a place is known that is at most another one.
pub fn is_at_most(known: Option<u64>, at: u64) -> bool
    ensures { result ≡ is_at_most known at }
{
    match known {
        Some(place) => place <= at,
        None => false,
    }
}

// Whether a field agrees with the first ones of its key.
fn is_settled(
    alloc: Global,
    arena: &Arena<'_>,
    entries: &[Entry<'_>],
    heads: &Heads<'_>,
    entry: &Entry<'_>,
) -> Result<bool, Memory>
    ensures { IfOk result
        (λ settled. settled ≡ true
        → IsSettled (first_in heads.now (map (field_in arena.now) entries.now))
        (label_in heads.now (map (field_in arena.now) entries.now)) (field_in arena.now entry.now)) }
{
    let Some(first) = entry_at(entries, place_of(&heads.keys, entry.key())) else {
        return Ok(false);
    };
    let Some(label) = entry_at(entries, heads.label_place(entry)) else {
        return Ok(false);
    };
    are_alike(alloc, arena.schema, &first, &label, entry)
}

// The place at which a field is in conflict with another one of its key, if it is.
fn conflict_of_key(
    alloc: Global,
    arena: &Arena<'_>,
    first: &Entry<'_>,
    entry: &Entry<'_>,
) -> Result<Option<u64>, Memory>
    requires met { IsMet (arena_view arena.now) (field_in arena.now first.now) (field_in arena.now entry.now) }
    requires key { (field_in arena.now first.now).key ≡ (field_in arena.now entry.now).key }
    ensures { IfOk result (AreConflicts (arena_view arena.now)) }
{
    let apart = cannot_merge(alloc, arena.schema, first, entry)?;
    Ok(at_if(apart, later(first, entry)))
}

// The place at which a field is in conflict with another one, if it is.
fn conflict_of(
    alloc: Global,
    arena: &Arena<'_>,
    first: &Entry<'_>,
    entry: &Entry<'_>,
) -> Result<Option<u64>, Memory>
    requires { IsMet (arena_view arena.now) (field_in arena.now first.now) (field_in arena.now entry.now) }
    ensures { IfOk result (AreConflicts (arena_view arena.now)) }
{
    if first.key() != entry.key() {
        return Ok(None);
    }
    conflict_of_key(alloc, arena, first, entry)
}

// The place at which a field is in conflict with the one at a place of a list, if it is.
fn conflict_with(
    alloc: Global,
    arena: &Arena<'_>,
    entries: &[Entry<'_>],
    at: usize,
    entry: &Entry<'_>,
) -> Result<Option<u64>, Memory>
    requires met { AreMet (arena_view arena.now) (map (field_in arena.now) entries.now) }
    requires stands { Contains (map (field_in arena.now) entries.now) (field_in arena.now entry.now) }
    ensures { IfOk result (AreConflicts (arena_view arena.now)) }
{
    match entry_at(entries, at) {
        Some(first) => conflict_of(alloc, arena, &first, entry),
        None => Ok(None),
    }
}

impl Found {
    // Takes note of the place of a field that is not seen to merge.
    fn count(&mut self, at: u64)
        ensures least { self.new.least ≡ earlier self.old.least (Some at) }
        ensures best { self.new.best ≡ self.old.best }
    {
        self.least = earlier(self.least, Some(at));
    }

    // Takes note of the place of a conflict, if there is one.
    fn add(&mut self, conflict: Option<u64>)
        ensures least { self.new.least ≡ self.old.least }
        ensures best { self.new.best ≡ earlier self.old.best conflict }
    {
        self.best = earlier(self.best, conflict);
    }

    // Takes note of the conflict of a field with the one at a place of a list, if it is in conflict.
    fn add_conflict(
        &mut self,
        alloc: Global,
        arena: &Arena<'_>,
        entries: &[Entry<'_>],
        at: usize,
        entry: &Entry<'_>,
    ) -> Result<(), Memory>
        requires best { AreConflicts (arena_view arena.now) self.old.best }
        requires met { AreMet (arena_view arena.now) (map (field_in arena.now) entries.now) }
        requires stands { Contains (map (field_in arena.now) entries.now) (field_in arena.now entry.now) }
        ensures least { OnOk result (self.new.least ≡ self.old.least) }
        ensures best { OnOk result (AreConflicts (arena_view arena.now) self.new.best) }
    {
        let conflict = conflict_with(alloc, arena, entries, at, entry)?;
        self.add(conflict);
        Ok(())
    }

    // Takes note of a field that does not agree with the first ones of its key.
    fn note_unsettled(
        &mut self,
        alloc: Global,
        arena: &Arena<'_>,
        entries: &[Entry<'_>],
        heads: &Heads<'_>,
        entry: &Entry<'_>,
    ) -> Result<(), Memory>
        requires best { AreConflicts (arena_view arena.now) self.old.best }
        requires met { AreMet (arena_view arena.now) (map (field_in arena.now) entries.now) }
        requires stands { Contains (map (field_in arena.now) entries.now) (field_in arena.now entry.now) }
        ensures least { OnOk result (self.new.least ≡ earlier self.old.least (Some entry.now.field.now.at)) }
        ensures best { OnOk result (AreConflicts (arena_view arena.now) self.new.best) }
    {
        self.count(entry.field.at);
        let first = place_of(&heads.keys, entry.key());
        self.add_conflict(alloc, arena, entries, first, entry)?;
        self.add_conflict(alloc, arena, entries, heads.label_place(entry), entry)
    }

    // Takes note of a field, if it does not agree with the first ones of its key. Behind a conflict that is known nothing is compared.
    fn note(
        &mut self,
        alloc: Global,
        arena: &Arena<'_>,
        entries: &[Entry<'_>],
        heads: &Heads<'_>,
        entry: &Entry<'_>,
    ) -> Result<(), Memory>
        requires best { AreConflicts (arena_view arena.now) self.old.best }
        requires met { AreMet (arena_view arena.now) (map (field_in arena.now) entries.now) }
        requires stands { Contains (map (field_in arena.now) entries.now) (field_in arena.now entry.now) }
        ensures lower { OnOk result ((n : ℕ) → AtMost self.old.least n → AtMost self.new.least n) }
        ensures noted { OnOk result
            (IsSettled (first_in heads.now (map (field_in arena.now) entries.now))
            (label_in heads.now (map (field_in arena.now) entries.now)) (field_in arena.now entry.now)
            ⊎ AtMost self.new.least (field_in arena.now entry.now).at) }
        ensures best { OnOk result (AreConflicts (arena_view arena.now) self.new.best) }
    {
        if is_at_most(self.best, entry.field.at) {
            self.count(entry.field.at);
            return Ok(());
        }
        let settled = is_settled(alloc, arena, entries, heads, entry)?;
        if settled {
            return Ok(());
        }
        self.note_unsettled(alloc, arena, entries, heads, entry)
    }

    // Takes note of each field.
    fn note_all(
        &mut self,
        alloc: Global,
        arena: &Arena<'_>,
        entries: &[Entry<'_>],
        heads: &Heads<'_>,
    ) -> Result<(), Memory>
        requires best { AreConflicts (arena_view arena.now) self.old.best }
        requires met { AreMet (arena_view arena.now) (map (field_in arena.now) entries.now) }
        ensures lower { OnOk result ((n : ℕ) → AtMost self.old.least n → AtMost self.new.least n) }
        ensures noted { OnOk result
            (All
            (λ f. IsSettled (first_in heads.now (map (field_in arena.now) entries.now))
            (label_in heads.now (map (field_in arena.now) entries.now)) f
            ⊎ AtMost self.new.least f.at)
            (map (field_in arena.now) entries.now)) }
        ensures best { OnOk result (AreConflicts (arena_view arena.now) self.new.best) }
    {
        for entry in entries {
            self.note(alloc, arena, entries, heads, entry)?;
        }
        Ok(())
    }

    /// Takes note of the conflicts between some fields, each two of which stand in sets that are put together.
    pub fn look(
        &mut self,
        alloc: Global,
        arena: &Arena<'_>,
        entries: &[Entry<'_>],
        heads: &Heads<'_>,
    ) -> Result<(), Memory>
        requires best { AreConflicts (arena_view arena.now) self.old.best }
        requires met { AreMet (arena_view arena.now) (map (field_in arena.now) entries.now) }
        ensures lower { OnOk result ((n : ℕ) → AtMost self.old.least n → AtMost self.new.least n) }
        ensures counted { OnOk result (AreCounted (map (field_in arena.now) entries.now) self.new.least) }
        ensures best { OnOk result (AreConflicts (arena_view arena.now) self.new.best) }
    {
        self.note_all(alloc, arena, entries, heads)
    }
}
