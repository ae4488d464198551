//! How much is at fault.
ghost use Rattle.std.specs.Prelude.{◌≡◌, ◌≤◌, ◌+◌, ℕ, Some, true, slice_get};
ghost use Rattle.hq_schema.specs.Schema.{schema_view};
ghost use Rattle.hq_overlap_classes.specs.Classes.{AtFault, MoreAtFault, size_at};
ghost use Rattle.hq_overlap_classes.specs.Noting.{IsSo, AreFound};
ghost use Rattle.hq_overlap_sets.specs.Sets.{set_in, arena_view};

use crate::disputes::Disputes;
use hq_overlap_sets::{Arena, Set};

// What a set counts, or less.
fn size_of(arena: &Arena<'_>, number: usize, set: &Set<'_>) -> usize
    requires { slice_get (arena_view arena.now) number ≡ Some (set_in arena.now set.now) }
    ensures { result ≤ size_at (arena_view arena.now) number }
{
    set.entries
        .len()
        .saturating_add(set.spreads.len())
        .saturating_add(1)
}

// The mark of a number.
fn mark_at(marks: &[bool], number: usize) -> Option<bool>
    ensures { result ≡ slice_get marks.now number }
{
    marks.get(number).copied()
}

impl Disputes<'_> {
    // Whether the class of a set is marked.
    fn is_at_fault(&self, arena: &Arena<'_>, number: usize) -> bool
        requires { IsSo (schema_view arena.now.schema.now) (arena_view arena.now) self.now }
        ensures { result ≡ true → AtFault (arena_view arena.now) number }
    {
        match mark_at(&self.concerned, self.classes.class_of(number)) {
            Some(is_set) => is_set,
            None => false,
        }
    }

    // A sum with what is kept of a set, if the set is at fault.
    fn with_set(&self, sum: usize, arena: &Arena<'_>, kept: &Arena<'_>, number: usize) -> usize
        requires so { IsSo (schema_view arena.now.schema.now) (arena_view arena.now) self.now }
        requires smaller { (s : ℕ) → size_at (arena_view kept.now) s ≤ size_at (arena_view arena.now) s }
        requires found { AreFound (arena_view arena.now) number sum }
        ensures { AreFound (arena_view arena.now) (number + 1) result }
    {
        let Some(set) = kept.set(number) else {
            return sum;
        };
        if set.is_empty() {
            return sum;
        }
        if self.is_at_fault(arena, number) {
            return sum.saturating_add(size_of(kept, number, set));
        }
        sum
    }

    /// Whether the sets at fault of which something is kept count more than so many, each with what is kept of it.
    pub fn are_more_at_fault(&self, arena: &Arena<'_>, kept: &Arena<'_>, most: usize) -> bool
        requires so { IsSo (schema_view arena.now.schema.now) (arena_view arena.now) self.now }
        requires smaller { (s : ℕ) → size_at (arena_view kept.now) s ≤ size_at (arena_view arena.now) s }
        ensures { result ≡ true → MoreAtFault (arena_view arena.now) most }
    {
        let mut sum = 0;
        for number in 0..kept.sets.len() {
            sum = self.with_set(sum, arena, kept, number);
        }
        most < sum
    }
}
