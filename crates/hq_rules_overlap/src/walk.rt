//! The walk over pairs of selection sets whose fields are reached together.
ghost use Rattle.std.specs.Prelude.{◌≡◌, ◌++◌, ◌∷◌, [], ◌&&◌, ◌||◌, nat_eq, ℕ, Some, true, false, length, map, slice_get, IfOk, OnOk};
ghost use Rattle.std.specs.List.{Contains, All};
ghost use Rattle.hq_gql_nodes.specs.Least.{earlier, at_if};
ghost use Rattle.hq_overlap_sets.specs.Pairs.{fields_at, spreads_at, Violates, later, AtMost, IsFirst};
ghost use Rattle.hq_overlap_sets.specs.Sets.{field_in, set_in, arena_view};
ghost use Rattle.hq_overlap_sets.specs.Together.{Together, AreConflicts};
ghost use Rattle.hq_rules_overlap.specs.Walk.{IsEmpty, is_marked, Known, IsSound, Step, Compared, ComparedWith, IsDone, HasRoots};

use crate::found::is_at_most;
use hq_base::Memory;
use hq_gql_nodes::{at_if, earlier};
use hq_overlap_sets::{Arena, Entry, Pair, Set, cannot_merge, later};
use std::alloc::Global;
use std::collections::HashMap;

/// The pairs of sets that were met, those that have a mark, and the least place of a conflict so far.
#[derive(Drop)]
pub struct Walk {
    pub pairs: Vec<Pair>,
    pub marks: HashMap<(usize, usize), bool>,
    pub best: Option<u64>,
}

/// Whether a set has neither fields nor spreads.
pub fn is_empty(arena: &Arena<'_>, set: usize) -> bool
    ensures { result ≡ true → IsEmpty (arena_view arena.now) set }
{
    let Some(found) = arena.set(set) else {
        return true;
    };
    found.is_empty()
}

impl Walk {
    // Takes note of a place, if it is that of a conflict.
    fn count(&mut self, apart: bool, at: u64)
        ensures pairs { self.new.pairs ≡ self.old.pairs }
        ensures marks { self.new.marks ≡ self.old.marks }
        ensures best { self.new.best ≡ earlier self.old.best (at_if apart at) }
    {
        self.best = earlier(self.best, at_if(apart, at));
    }

    // The pair at a place of the list.
    fn pair_at(&self, at: usize) -> Option<Pair>
        ensures { result ≡ slice_get self.now.pairs.items at }
    {
        self.pairs.get(at).copied()
    }

    // Whether a pair is marked.
    fn has_mark(&self, left: usize, right: usize) -> bool
        ensures { result ≡ is_marked self.now left right }
    {
        self.marks.contains_key(&(left, right))
    }

    // Adds a pair, and marks it.
    fn push(&mut self, left: usize, right: usize) -> Result<(), Memory>
        ensures pairs { OnOk result (self.new.pairs.items ≡ self.old.pairs.items ++ (record { left = left; right = right } ∷ [])) }
        ensures marks { OnOk result ((s t : ℕ) → is_marked self.new s t ≡ ((nat_eq left s && nat_eq right t) || is_marked self.old s t)) }
        ensures best { OnOk result (self.new.best ≡ self.old.best) }
    {
        self.pairs.push(Pair { left, right })?;
        self.marks.insert((left, right), true)?;
        Ok(())
    }

    // Meets a pair of sets that are put together.
    fn meet(&mut self, arena: &Arena<'_>, left: usize, right: usize) -> Result<(), Memory>
        requires sound { IsSound (arena_view arena.now) self.old }
        requires together { Together (arena_view arena.now) left right }
        ensures step { OnOk result (Step (arena_view arena.now) self.old self.new) }
        ensures known { OnOk result (Known (arena_view arena.now) self.new left right) }
    {
        if is_empty(arena, left) {
            return Ok(());
        }
        if is_empty(arena, right) {
            return Ok(());
        }
        if self.has_mark(left, right) {
            return Ok(());
        }
        if self.has_mark(right, left) {
            return Ok(());
        }
        self.push(left, right)
    }

    // Counts two fields of one key where they cannot merge; behind a conflict that is known nothing is compared.
    fn count_conflict(
        &mut self,
        alloc: Global,
        arena: &Arena<'_>,
        left: usize,
        right: usize,
        a: &Entry<'_>,
        b: &Entry<'_>,
    ) -> Result<(), Memory>
        requires together { Together (arena_view arena.now) left right }
        requires first { Contains (fields_at (arena_view arena.now) left) (field_in arena.now a.now) }
        requires second { Contains (fields_at (arena_view arena.now) right) (field_in arena.now b.now) }
        requires key { (field_in arena.now a.now).key ≡ (field_in arena.now b.now).key }
        ensures step { OnOk result (Step (arena_view arena.now) self.old self.new) }
        ensures counted { OnOk result (Violates (field_in arena.now a.now) (field_in arena.now b.now) → AtMost self.new.best (later (field_in arena.now a.now) (field_in arena.now b.now))) }
    {
        let at = later(a, b);
        if is_at_most(self.best, at) {
            return Ok(());
        }
        let apart = cannot_merge(alloc, arena.schema, a, b)?;
        self.count(apart, at);
        Ok(())
    }

    // Counts two fields of one key, and meets the sets below them.
    fn compare_alike(
        &mut self,
        alloc: Global,
        arena: &Arena<'_>,
        left: usize,
        right: usize,
        a: &Entry<'_>,
        b: &Entry<'_>,
    ) -> Result<(), Memory>
        requires sound { IsSound (arena_view arena.now) self.old }
        requires together { Together (arena_view arena.now) left right }
        requires first { Contains (fields_at (arena_view arena.now) left) (field_in arena.now a.now) }
        requires second { Contains (fields_at (arena_view arena.now) right) (field_in arena.now b.now) }
        requires key { (field_in arena.now a.now).key ≡ (field_in arena.now b.now).key }
        ensures step { OnOk result (Step (arena_view arena.now) self.old self.new) }
        ensures compared { OnOk result (Compared (arena_view arena.now) self.new (field_in arena.now a.now) (field_in arena.now b.now)) }
    {
        self.count_conflict(alloc, arena, left, right, a, b)?;
        self.meet(arena, a.below, b.below)
    }

    // Compares two fields of sets that are put together.
    fn compare(
        &mut self,
        alloc: Global,
        arena: &Arena<'_>,
        left: usize,
        right: usize,
        a: &Entry<'_>,
        b: &Entry<'_>,
    ) -> Result<(), Memory>
        requires sound { IsSound (arena_view arena.now) self.old }
        requires together { Together (arena_view arena.now) left right }
        requires first { Contains (fields_at (arena_view arena.now) left) (field_in arena.now a.now) }
        requires second { Contains (fields_at (arena_view arena.now) right) (field_in arena.now b.now) }
        ensures step { OnOk result (Step (arena_view arena.now) self.old self.new) }
        ensures compared { OnOk result (Compared (arena_view arena.now) self.new (field_in arena.now a.now) (field_in arena.now b.now)) }
    {
        if a.key() != b.key() {
            return Ok(());
        }
        self.compare_alike(alloc, arena, left, right, a, b)
    }

    // Compares a field of one set with each of another.
    fn compare_with(
        &mut self,
        alloc: Global,
        arena: &Arena<'_>,
        left: usize,
        right: usize,
        a: &Entry<'_>,
        theirs: &[Entry<'_>],
    ) -> Result<(), Memory>
        requires sound { IsSound (arena_view arena.now) self.old }
        requires together { Together (arena_view arena.now) left right }
        requires first { Contains (fields_at (arena_view arena.now) left) (field_in arena.now a.now) }
        requires theirs { map (field_in arena.now) theirs.now ≡ fields_at (arena_view arena.now) right }
        ensures step { OnOk result (Step (arena_view arena.now) self.old self.new) }
        ensures compared { OnOk result (ComparedWith (arena_view arena.now) self.new (field_in arena.now a.now) (fields_at (arena_view arena.now) right)) }
    {
        for b in theirs {
            self.compare(alloc, arena, left, right, a, b)?;
        }
        Ok(())
    }

    // Compares each field of one set with each of another.
    fn compare_sets(
        &mut self,
        alloc: Global,
        arena: &Arena<'_>,
        left: usize,
        right: usize,
        ours: &[Entry<'_>],
        theirs: &[Entry<'_>],
    ) -> Result<(), Memory>
        requires sound { IsSound (arena_view arena.now) self.old }
        requires together { Together (arena_view arena.now) left right }
        requires ours { map (field_in arena.now) ours.now ≡ fields_at (arena_view arena.now) left }
        requires theirs { map (field_in arena.now) theirs.now ≡ fields_at (arena_view arena.now) right }
        ensures step { OnOk result (Step (arena_view arena.now) self.old self.new) }
        ensures compared { OnOk result (All (λ a. ComparedWith (arena_view arena.now) self.new a (fields_at (arena_view arena.now) right)) (fields_at (arena_view arena.now) left)) }
    {
        for a in ours {
            self.compare_with(alloc, arena, left, right, a, theirs)?;
        }
        Ok(())
    }

    // Puts what the left set spreads together with the right one.
    fn spread_left(
        &mut self,
        arena: &Arena<'_>,
        left: usize,
        right: usize,
        spreads: &[usize],
    ) -> Result<(), Memory>
        requires sound { IsSound (arena_view arena.now) self.old }
        requires together { Together (arena_view arena.now) left right }
        requires spreads { spreads.now ≡ spreads_at (arena_view arena.now) left }
        ensures step { OnOk result (Step (arena_view arena.now) self.old self.new) }
        ensures known { OnOk result (All (λ u. Known (arena_view arena.now) self.new u right) (spreads_at (arena_view arena.now) left)) }
    {
        for spread in spreads {
            self.meet(arena, *spread, right)?;
        }
        Ok(())
    }

    // Puts the left set together with what the right one spreads.
    fn spread_right(
        &mut self,
        arena: &Arena<'_>,
        left: usize,
        right: usize,
        spreads: &[usize],
    ) -> Result<(), Memory>
        requires sound { IsSound (arena_view arena.now) self.old }
        requires together { Together (arena_view arena.now) left right }
        requires spreads { spreads.now ≡ spreads_at (arena_view arena.now) right }
        ensures step { OnOk result (Step (arena_view arena.now) self.old self.new) }
        ensures known { OnOk result (All (λ u. Known (arena_view arena.now) self.new left u) (spreads_at (arena_view arena.now) right)) }
    {
        for spread in spreads {
            self.meet(arena, left, *spread)?;
        }
        Ok(())
    }

    // Does a pair of sets that are given.
    fn finish_sets(
        &mut self,
        alloc: Global,
        arena: &Arena<'_>,
        left: usize,
        right: usize,
        ours: &Set<'_>,
        theirs: &Set<'_>,
    ) -> Result<(), Memory>
        requires sound { IsSound (arena_view arena.now) self.old }
        requires together { Together (arena_view arena.now) left right }
        requires ours { slice_get (arena_view arena.now) left ≡ Some (set_in arena.now ours.now) }
        requires theirs { slice_get (arena_view arena.now) right ≡ Some (set_in arena.now theirs.now) }
        ensures step { OnOk result (Step (arena_view arena.now) self.old self.new) }
        ensures done { OnOk result (IsDone (arena_view arena.now) self.new left right) }
    {
        self.compare_sets(alloc, arena, left, right, &ours.entries, &theirs.entries)?;
        self.spread_left(arena, left, right, &ours.spreads)?;
        self.spread_right(arena, left, right, &theirs.spreads)
    }

    // Does a pair of sets of which the left one is given.
    fn finish_left(
        &mut self,
        alloc: Global,
        arena: &Arena<'_>,
        left: usize,
        right: usize,
        ours: &Set<'_>,
    ) -> Result<(), Memory>
        requires sound { IsSound (arena_view arena.now) self.old }
        requires together { Together (arena_view arena.now) left right }
        requires ours { slice_get (arena_view arena.now) left ≡ Some (set_in arena.now ours.now) }
        ensures step { OnOk result (Step (arena_view arena.now) self.old self.new) }
        ensures done { OnOk result (IsDone (arena_view arena.now) self.new left right) }
    {
        let Some(theirs) = arena.set(right) else {
            return Ok(());
        };
        self.finish_sets(alloc, arena, left, right, ours, theirs)
    }

    // Does a pair of sets.
    fn finish(
        &mut self,
        alloc: Global,
        arena: &Arena<'_>,
        left: usize,
        right: usize,
    ) -> Result<(), Memory>
        requires sound { IsSound (arena_view arena.now) self.old }
        requires together { Together (arena_view arena.now) left right }
        ensures step { OnOk result (Step (arena_view arena.now) self.old self.new) }
        ensures done { OnOk result (IsDone (arena_view arena.now) self.new left right) }
    {
        let Some(ours) = arena.set(left) else {
            return Ok(());
        };
        self.finish_left(alloc, arena, left, right, ours)
    }

    // Puts each set together with itself.
    fn meet_each(&mut self, arena: &Arena<'_>) -> Result<(), Memory>
        requires { IsSound (arena_view arena.now) self.old }
        ensures sound { OnOk result (IsSound (arena_view arena.now) self.new) }
        ensures roots { OnOk result (HasRoots (arena_view arena.now) self.new (length (arena_view arena.now))) }
    {
        for set in 0..arena.sets.len() {
            self.meet(arena, set, set)?;
        }
        Ok(())
    }

    // Does the pairs one after the other, also those that are met meanwhile.
    fn run(&mut self, alloc: Global, arena: &Arena<'_>) -> Result<(), Memory>
        requires sound { IsSound (arena_view arena.now) self.old }
        requires roots { HasRoots (arena_view arena.now) self.old (length (arena_view arena.now)) }
        ensures { OnOk result (IsFirst (arena_view arena.now) self.new.best) }
    {
        for at in 0..usize::MAX {
            let Some(pair) = self.pair_at(at) else {
                return Ok(());
            };
            self.finish(alloc, arena, pair.left, pair.right)?;
        }
        Err(Memory)
    }
}

// A walk that has met no pair.
fn start(alloc: Global, known: Option<u64>) -> Walk
    ensures pairs { result.pairs.items ≡ [] }
    ensures marks { (s t : ℕ) → is_marked result s t ≡ false }
    ensures best { result.best ≡ known }
{
    Walk {
        pairs: Vec::new(alloc),
        marks: HashMap::new(alloc),
        best: known,
    }
}

/// The least place of a later field of two that are reached together and cannot merge. It may be told a conflict that is known.
pub fn first_by_walk(
    alloc: Global,
    arena: &Arena<'_>,
    known: Option<u64>,
) -> Result<Option<u64>, Memory>
    requires { AreConflicts (arena_view arena.now) known }
    ensures { IfOk result (IsFirst (arena_view arena.now)) }
{
    let mut walk = start(alloc, known);
    walk.meet_each(arena)?;
    walk.run(alloc, arena)?;
    Ok(walk.best)
}
