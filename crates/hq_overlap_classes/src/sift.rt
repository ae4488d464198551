//! The part of a document's selection sets in which fields can be in conflict at all.
ghost use Rattle.std.specs.Prelude.{◌≡◌, ◌||◌, ◌<◌, ◌≤◌, ◌++◌, ◌∷◌, [], ℕ, Some, map, length, filter, slice_get, option_map, true, not, IfOk, OnOk, if◌then◌else◌};
ghost use Rattle.std.specs.List.{All};
ghost use Rattle.hq_schema.specs.Schema.{schema_view};
ghost use Rattle.hq_overlap_classes.specs.Classes.{size_at};
ghost use Rattle.hq_overlap_classes.specs.Disputes.{IsSettled, IsTrueOf, IsTrueAt, IsTrueOfAll, keeps_entry, kept_set, AreKept, class_of, first_of, is_disputed, is_concerned, key_number, noted_in};
ghost use Rattle.hq_overlap_sets.specs.Sets.{entry_view, set_in, arena_view};

use crate::disputes::Disputes;
use hq_base::Memory;
use hq_overlap_sets::{Arena, Entry, Set, are_alike, empty_set};
use hq_schema::Schema;
use std::alloc::Global;

// Adds a field, if it is kept.
fn push_if<'a>(kept: &mut Vec<Entry<'a>>, is_kept: bool, entry: &Entry<'a>) -> Result<(), Memory>
    ensures { OnOk result (kept.new.items ≡ kept.old.items ++ (if is_kept then (entry.now ∷ []) else [])) }
{
    if is_kept {
        kept.push(*entry)?;
    }
    Ok(())
}

impl<'a> Disputes<'a> {
    // Whether a field of a key that is in no dispute agrees with the first ones of it.
    fn is_settled(
        &self,
        alloc: Global,
        schema: &Schema,
        class: usize,
        key: usize,
        first: &Entry<'_>,
        entry: &Entry<'_>,
    ) -> Result<bool, Memory>
        requires { key ≡ key_number self.now (entry_view (schema_view schema.now) entry.now).key }
        ensures { IfOk result
            (λ settled. settled ≡ true
            → IsSettled (noted_in (schema_view schema.now) self.now) class (entry_view (schema_view schema.now) first.now)
            (entry_view (schema_view schema.now) entry.now)) }
    {
        let Some(label) = self.label(class, key, entry.parent) else {
            return Ok(false);
        };
        are_alike(alloc, schema, first, &label, entry)
    }

    // Whether the class of a field and the one below it are concerned as they have to be.
    fn is_told(&self, class: usize, key: usize, entry: &Entry<'_>) -> bool
        ensures { result ≡ (is_concerned self.now class || not (is_disputed self.now class key || is_concerned self.now (class_of self.now.classes.sets entry.now.below))) }
    {
        self.is_concerned(class)
            || !(self.is_disputed(class, key)
                || self.is_concerned(self.classes.class_of(entry.below)))
    }

    // Whether what is noted is true of a field of a class and a key, of which the first one is given.
    fn fits_first(
        &self,
        alloc: Global,
        schema: &Schema,
        class: usize,
        key: usize,
        first: &Entry<'_>,
        entry: &Entry<'_>,
    ) -> Result<bool, Memory>
        requires key { key ≡ key_number self.now (entry_view (schema_view schema.now) entry.now).key }
        requires first { first_of self.now.classes class key ≡ Some first.now }
        ensures { IfOk result (λ fits. fits ≡ true → IsTrueOf (noted_in (schema_view schema.now) self.now) class (entry_view (schema_view schema.now) entry.now)) }
    {
        if self.classes.class_of(first.below) != self.classes.class_of(entry.below) {
            return Ok(false);
        }
        if !self.is_told(class, key, entry) {
            return Ok(false);
        }
        if self.is_disputed(class, key) {
            return Ok(true);
        }
        self.is_settled(alloc, schema, class, key, first, entry)
    }

    // Whether what is noted is true of a field of a class.
    fn fits(
        &self,
        alloc: Global,
        schema: &Schema,
        class: usize,
        entry: &Entry<'_>,
    ) -> Result<bool, Memory>
        ensures { IfOk result (λ fits. fits ≡ true → IsTrueOf (noted_in (schema_view schema.now) self.now) class (entry_view (schema_view schema.now) entry.now)) }
    {
        let key = self.classes.key_of(entry);
        match self.classes.first(class, key) {
            Some(first) => self.fits_first(alloc, schema, class, key, &first, entry),
            None => Ok(false),
        }
    }

    // Whether it is true of the fields of a set.
    fn fits_fields(
        &self,
        alloc: Global,
        schema: &Schema,
        class: usize,
        entries: &[Entry<'_>],
    ) -> Result<bool, Memory>
        ensures { IfOk result (λ fits. fits ≡ true → All (λ a. IsTrueOf (noted_in (schema_view schema.now) self.now) class a) (map (entry_view (schema_view schema.now)) entries.now)) }
    {
        for entry in entries {
            let fits = self.fits(alloc, schema, class, entry)?;
            if !fits {
                return Ok(false);
            }
        }
        Ok(true)
    }

    // Whether sets are of a class.
    fn fits_spreads(&self, class: usize, spreads: &[usize]) -> bool
        ensures { result ≡ true → All (λ u. class_of self.now.classes.sets u ≡ class) spreads.now }
    {
        for spread in spreads {
            if self.classes.class_of(*spread) != class {
                return false;
            }
        }
        true
    }

    // Whether it is true of a set.
    fn fits_set(
        &self,
        alloc: Global,
        arena: &Arena<'_>,
        number: usize,
        set: &Set<'_>,
    ) -> Result<bool, Memory>
        requires { slice_get (arena_view arena.now) number ≡ Some (set_in arena.now set.now) }
        ensures { IfOk result (λ fits. fits ≡ true → IsTrueAt (noted_in (schema_view arena.now.schema.now) self.now) (arena_view arena.now) number) }
    {
        let class = self.classes.class_of(number);
        if !self.fits_spreads(class, &set.spreads) {
            return Ok(false);
        }
        self.fits_fields(alloc, arena.schema, class, &set.entries)
    }

    /// Whether what is noted is true of a document's sets.
    pub fn fits_sets(&self, alloc: Global, arena: &Arena<'_>) -> Result<bool, Memory>
        ensures { IfOk result (λ fits. fits ≡ true → IsTrueOfAll (noted_in (schema_view arena.now.schema.now) self.now) (arena_view arena.now)) }
    {
        for number in 0..arena.sets.len() {
            let fits = self.fits_at(alloc, arena, number)?;
            if !fits {
                return Ok(false);
            }
        }
        Ok(true)
    }

    // Whether it is true of the set of a number.
    fn fits_at(&self, alloc: Global, arena: &Arena<'_>, number: usize) -> Result<bool, Memory>
        ensures { IfOk result (λ fits. fits ≡ true → IsTrueAt (noted_in (schema_view arena.now.schema.now) self.now) (arena_view arena.now) number) }
    {
        match arena.set(number) {
            Some(set) => self.fits_set(alloc, arena, number, set),
            None => Ok(false),
        }
    }

    // Whether a field of a class is in dispute there, or leads to a class that is concerned.
    fn keeps(&self, class: usize, entry: &Entry<'_>) -> bool
        ensures { result ≡ keeps_entry self.now class entry.now }
    {
        self.is_disputed(class, self.classes.key_of(entry))
            || self.is_concerned(self.classes.class_of(entry.below))
    }

    // The fields of a class that are in dispute or lead to such fields.
    fn kept_fields(
        &self,
        alloc: Global,
        class: usize,
        entries: &[Entry<'a>],
    ) -> Result<Vec<Entry<'a>>, Memory>
        ensures { IfOk result (λ kept. kept.items ≡ filter (keeps_entry self.now class) entries.now) }
    {
        let mut kept = Vec::new(alloc);
        for entry in entries {
            push_if(&mut kept, self.keeps(class, entry), entry)?;
        }
        Ok(kept)
    }

    // What is kept of a set.
    fn kept_set(&self, alloc: Global, number: usize, set: &Set<'a>) -> Result<Set<'a>, Memory>
        ensures entries { IfOk result
            (λ kept. kept.entries.items
            ≡ if is_concerned self.now (class_of self.now.classes.sets number) then filter
            (keeps_entry self.now (class_of self.now.classes.sets number)) set.now.entries.items else []) }
        ensures spreads { IfOk result (λ kept. kept.spreads.items ≡ if is_concerned self.now (class_of self.now.classes.sets number) then set.now.spreads.items else []) }
    {
        let class = self.classes.class_of(number);
        if !self.is_concerned(class) {
            return Ok(empty_set(alloc));
        }
        Ok(Set {
            entries: self.kept_fields(alloc, class, &set.entries)?,
            spreads: Vec::from_slice(alloc, &set.spreads)?,
        })
    }

    // What is kept of the set of a number.
    fn kept_at(&self, alloc: Global, arena: &Arena<'a>, number: usize) -> Result<Set<'a>, Memory>
        requires { number < length (arena_view arena.now) }
        ensures { IfOk result (λ kept. option_map (kept_set (noted_in (schema_view arena.now.schema.now) self.now) number) (slice_get (arena_view arena.now) number) ≡ Some (set_in arena.now kept)) }
    {
        match arena.set(number) {
            Some(set) => self.kept_set(alloc, number, set),
            None => Ok(empty_set(alloc)),
        }
    }

    /// What is kept of a document's sets.
    pub fn kept_sets(&self, alloc: Global, arena: &Arena<'a>) -> Result<Vec<Set<'a>>, Memory>
        ensures kept { IfOk result (λ kept. AreKept (noted_in (schema_view arena.now.schema.now) self.now) (arena_view arena.now) (map (set_in arena.now) kept.items)) }
        ensures smaller { IfOk result (λ kept. (s : ℕ) → size_at (map (set_in arena.now) kept.items) s ≤ size_at (arena_view arena.now) s) }
    {
        let mut sets = Vec::with_capacity(alloc, arena.sets.len())?;
        for number in 0..arena.sets.len() {
            let kept = self.kept_at(alloc, arena, number)?;
            sets.push(kept)?;
        }
        Ok(sets)
    }
}
