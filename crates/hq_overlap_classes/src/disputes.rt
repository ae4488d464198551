//! The fields of a class that differ from the first ones of their key, and the classes that lead to such fields.
ghost use Rattle.std.specs.Prelude.{◌≡◌, true, map, IfOk, OnOk};
ghost use Rattle.hq_schema.specs.Schema.{schema_view};
ghost use Rattle.hq_overlap_classes.specs.Classes.{IsOfClass};
ghost use Rattle.hq_overlap_classes.specs.Disputes.{label_of, is_disputed, is_concerned};
ghost use Rattle.hq_overlap_classes.specs.Noting.{AreDisputed, IsSo};
ghost use Rattle.hq_overlap_sets.specs.Pairs.{fields_at, Violates};
ghost use Rattle.hq_overlap_sets.specs.Sets.{entry_view, field_in, arena_view};

use crate::classes::{Classes, classes_of};
use crate::leading::concerned;
use hq_base::Memory;
use hq_overlap_sets::{Arena, Entry, cannot_merge, same_shape};
use hq_schema::Schema;
use std::alloc::Global;
use std::collections::HashMap;

/// The classes of a document's sets, a field of each class, key and parent type that has the fewest arguments, the keys that are in
/// dispute in a class, and the classes that have such a key or lead to one that has.
#[derive(Drop)]
pub struct Disputes<'a> {
    pub classes: Classes<'a>,
    pub labels: HashMap<(usize, usize, usize), Entry<'a>>,
    pub disputed: HashMap<(usize, usize), bool>,
    pub concerned: Vec<bool>,
}

// Whether two fields are of one key and their types differ in shape.
fn differs_in_shape(schema: &Schema, first: &Entry<'_>, entry: &Entry<'_>) -> bool
    ensures { result ≡ true → Violates (entry_view (schema_view schema.now) first.now) (entry_view (schema_view schema.now) entry.now) }
{
    if first.key() != entry.key() {
        return false;
    }
    !same_shape(schema, &first.def.ty, &entry.def.ty)
}

// Whether two fields are of one key and cannot merge.
fn differs(
    alloc: Global,
    schema: &Schema,
    first: &Entry<'_>,
    entry: &Entry<'_>,
) -> Result<bool, Memory>
    ensures { IfOk result (λ differs. differs ≡ true → Violates (entry_view (schema_view schema.now) first.now) (entry_view (schema_view schema.now) entry.now)) }
{
    if first.key() != entry.key() {
        return Ok(false);
    }
    cannot_merge(alloc, schema, first, entry)
}

// Whether a field has fewer arguments than one that is noted, if one is.
fn has_fewer(noted: Option<Entry<'_>>, entry: &Entry<'_>) -> bool {
    match noted {
        Some(noted) => entry.field.args.len() < noted.field.args.len(),
        None => true,
    }
}

impl<'a> Disputes<'a> {
    /// Whether fields of a key differ in a class.
    pub fn is_disputed(&self, class: usize, key: usize) -> bool
        ensures { result ≡ is_disputed self.now class key }
    {
        self.disputed.contains_key(&(class, key))
    }

    /// Whether a class has a key in dispute, or leads to one that has.
    pub fn is_concerned(&self, class: usize) -> bool
        ensures { result ≡ is_concerned self.now class }
    {
        match self.concerned.get(class) {
            Some(is_concerned) => *is_concerned,
            None => true,
        }
    }

    /// The field that is noted of a class, a key and a parent type.
    pub fn label(&self, class: usize, key: usize, parent: usize) -> Option<Entry<'a>>
        ensures { result ≡ label_of self.now class key parent }
    {
        self.labels.get(&(class, key, parent)).copied()
    }

    // Notes a field of a class, a key and a parent type.
    fn insert_label(
        &mut self,
        arena: &Arena<'a>,
        class: usize,
        key: usize,
        entry: &Entry<'a>,
    ) -> Result<(), Memory>
        requires sound { AreDisputed (schema_view arena.now.schema.now) (arena_view arena.now) self.old }
        requires stands { IsOfClass (arena_view arena.now) class (field_in arena.now entry.now) }
        ensures { OnOk result (AreDisputed (schema_view arena.now.schema.now) (arena_view arena.now) self.new) }
    {
        self.labels.insert((class, key, entry.parent), *entry)?;
        Ok(())
    }

    // Notes a field of a class, where none of its key and parent type with as few arguments is noted yet.
    fn note_label(
        &mut self,
        arena: &Arena<'a>,
        class: usize,
        entry: &Entry<'a>,
    ) -> Result<(), Memory>
        requires sound { AreDisputed (schema_view arena.now.schema.now) (arena_view arena.now) self.old }
        requires stands { IsOfClass (arena_view arena.now) class (field_in arena.now entry.now) }
        ensures { OnOk result (AreDisputed (schema_view arena.now.schema.now) (arena_view arena.now) self.new) }
    {
        let key = self.classes.key_of(entry);
        if !has_fewer(self.label(class, key, entry.parent), entry) {
            return Ok(());
        }
        self.insert_label(arena, class, key, entry)
    }

    // Notes each field of a set.
    fn note_labels(
        &mut self,
        arena: &Arena<'a>,
        set: usize,
        entries: &[Entry<'a>],
    ) -> Result<(), Memory>
        requires sound { AreDisputed (schema_view arena.now.schema.now) (arena_view arena.now) self.old }
        requires entries { map (field_in arena.now) entries.now ≡ fields_at (arena_view arena.now) set }
        ensures { OnOk result (AreDisputed (schema_view arena.now.schema.now) (arena_view arena.now) self.new) }
    {
        let class = self.classes.class_of(set);
        for entry in entries {
            self.note_label(arena, class, entry)?;
        }
        Ok(())
    }

    // Notes each field of the sets.
    fn label_sets(&mut self, arena: &Arena<'a>) -> Result<(), Memory>
        requires { AreDisputed (schema_view arena.now.schema.now) (arena_view arena.now) self.old }
        ensures { OnOk result (AreDisputed (schema_view arena.now.schema.now) (arena_view arena.now) self.new) }
    {
        for (number, set) in arena.sets.iter().enumerate() {
            self.note_labels(arena, number, &set.entries)?;
        }
        Ok(())
    }

    // Notes that a key is in dispute in a class: of two fields there that cannot merge.
    fn dispute(
        &mut self,
        arena: &Arena<'a>,
        class: usize,
        key: usize,
        first: &Entry<'a>,
        entry: &Entry<'a>,
    ) -> Result<(), Memory>
        requires sound { AreDisputed (schema_view arena.now.schema.now) (arena_view arena.now) self.old }
        requires first { IsOfClass (arena_view arena.now) class (field_in arena.now first.now) }
        requires second { IsOfClass (arena_view arena.now) class (field_in arena.now entry.now) }
        requires differ { Violates (field_in arena.now first.now) (field_in arena.now entry.now) }
        ensures { OnOk result (AreDisputed (schema_view arena.now.schema.now) (arena_view arena.now) self.new) }
    {
        self.disputed.insert((class, key), true)?;
        Ok(())
    }

    // Notes whether a field differs in shape from the first one of its class and key.
    fn note_shape(
        &mut self,
        arena: &Arena<'a>,
        class: usize,
        key: usize,
        entry: &Entry<'a>,
    ) -> Result<(), Memory>
        requires sound { AreDisputed (schema_view arena.now.schema.now) (arena_view arena.now) self.old }
        requires stands { IsOfClass (arena_view arena.now) class (field_in arena.now entry.now) }
        ensures { OnOk result (AreDisputed (schema_view arena.now.schema.now) (arena_view arena.now) self.new) }
    {
        let Some(first) = self.classes.first(class, key) else {
            return Ok(());
        };
        if !differs_in_shape(arena.schema, &first, entry) {
            return Ok(());
        }
        self.dispute(arena, class, key, &first, entry)
    }

    // Notes whether a field cannot merge with the one that is noted of its class, key and parent type.
    fn note_name(
        &mut self,
        alloc: Global,
        arena: &Arena<'a>,
        class: usize,
        key: usize,
        entry: &Entry<'a>,
    ) -> Result<(), Memory>
        requires sound { AreDisputed (schema_view arena.now.schema.now) (arena_view arena.now) self.old }
        requires stands { IsOfClass (arena_view arena.now) class (field_in arena.now entry.now) }
        ensures { OnOk result (AreDisputed (schema_view arena.now.schema.now) (arena_view arena.now) self.new) }
    {
        let Some(label) = self.label(class, key, entry.parent) else {
            return Ok(());
        };
        let differs = differs(alloc, arena.schema, &label, entry)?;
        if !differs {
            return Ok(());
        }
        self.dispute(arena, class, key, &label, entry)
    }

    // Notes whether a field differs from those that are noted of its class and key, unless the key is in dispute already.
    fn note(
        &mut self,
        alloc: Global,
        arena: &Arena<'a>,
        class: usize,
        entry: &Entry<'a>,
    ) -> Result<(), Memory>
        requires sound { AreDisputed (schema_view arena.now.schema.now) (arena_view arena.now) self.old }
        requires stands { IsOfClass (arena_view arena.now) class (field_in arena.now entry.now) }
        ensures { OnOk result (AreDisputed (schema_view arena.now.schema.now) (arena_view arena.now) self.new) }
    {
        let key = self.classes.key_of(entry);
        if self.is_disputed(class, key) {
            return Ok(());
        }
        self.note_shape(arena, class, key, entry)?;
        self.note_name(alloc, arena, class, key, entry)
    }

    // Notes each field of a set.
    fn note_fields(
        &mut self,
        alloc: Global,
        arena: &Arena<'a>,
        set: usize,
        entries: &[Entry<'a>],
    ) -> Result<(), Memory>
        requires sound { AreDisputed (schema_view arena.now.schema.now) (arena_view arena.now) self.old }
        requires entries { map (field_in arena.now) entries.now ≡ fields_at (arena_view arena.now) set }
        ensures { OnOk result (AreDisputed (schema_view arena.now.schema.now) (arena_view arena.now) self.new) }
    {
        let class = self.classes.class_of(set);
        for entry in entries {
            self.note(alloc, arena, class, entry)?;
        }
        Ok(())
    }

    // Notes each field of the sets.
    fn note_sets(&mut self, alloc: Global, arena: &Arena<'a>) -> Result<(), Memory>
        requires { AreDisputed (schema_view arena.now.schema.now) (arena_view arena.now) self.old }
        ensures { OnOk result (AreDisputed (schema_view arena.now.schema.now) (arena_view arena.now) self.new) }
    {
        for (number, set) in arena.sets.iter().enumerate() {
            self.note_fields(alloc, arena, number, &set.entries)?;
        }
        Ok(())
    }
}

// The classes of a document's sets, of which nothing is in dispute yet.
fn start<'a>(alloc: Global, arena: &Arena<'a>) -> Result<Disputes<'a>, Memory>
    ensures { IfOk result (AreDisputed (schema_view arena.now.schema.now) (arena_view arena.now)) }
{
    let classes = classes_of(alloc, arena)?;
    Ok(Disputes {
        classes,
        labels: HashMap::new(alloc),
        disputed: HashMap::new(alloc),
        concerned: Vec::new(alloc),
    })
}

/// What is in dispute in the classes of a document's sets. A class that is said to be concerned is at fault: two fields of one key that
/// cannot merge stand in it or in one to which it leads.
pub fn disputes_of<'a>(alloc: Global, arena: &Arena<'a>) -> Result<Disputes<'a>, Memory>
    ensures { IfOk result (IsSo (schema_view arena.now.schema.now) (arena_view arena.now)) }
{
    let mut disputes = start(alloc, arena)?;
    disputes.label_sets(arena)?;
    disputes.note_sets(alloc, arena)?;
    disputes.concerned = concerned(alloc, arena, &disputes)?;
    Ok(disputes)
}
