//! The search by groups of selection sets that are put together.
ghost use Rattle.std.specs.Prelude.{◌≡◌, ◌<◌, ◌≤◌, ◌⊎◌, ℕ, map, true, false, length, IfOk, OnOk};
ghost use Rattle.std.specs.List.{Contains};
ghost use Rattle.hq_overlap_sets.specs.Sets.{field_in, arena_view};
ghost use Rattle.hq_overlap_sets.specs.Together.{AreConflicts};
ghost use Rattle.hq_rules_overlap.specs.Exploring.{is_marked, lists_of, Goes, IsSound, IsAtEnd, LookedAt, Explored, Tells};
ghost use Rattle.hq_rules_overlap.specs.Groups.{HasAll, AreTogether, IsClosed, AreOf, AreExplored, IsCovered};

use crate::below::rows_of;
use crate::closure::closure;
use crate::found::Found;
use crate::gather::{heads_of, sorted_entries};
use crate::lists::Lists;
use crate::walk::is_empty;
use hq_base::Memory;
use hq_overlap_sets::{Arena, Entry};
use std::alloc::Global;

/// The most sets and fields of groups that are looked at, each as often as it stands in one.
const MOST_STEPS: usize = 16_777_216;

/// The lists of sets that are put together, of which the first are explored; a place for each set; a mark for each set that stands in
/// a group which was looked at; the conflicts that were found; and how many steps are left.
#[derive(Drop)]
pub struct Groups {
    pub lists: Lists,
    pub spots: Vec<usize>,
    pub covered: Vec<bool>,
    pub found: Found,
    pub done: usize,
    pub left: usize,
}

/// What a search tells: the first place at which the rule is violated, or that of some conflict, if one was found.
#[derive(Clone, Copy)]
pub enum Search {
    First(Option<u64>),
    Known(Option<u64>),
}

// Whether a mark is set.
fn is_marked(marks: &[bool], number: usize) -> bool
    ensures { result ≡ is_marked marks.now number }
{
    match marks.get(number) {
        Some(is_set) => *is_set,
        None => false,
    }
}

// Sets a mark, if there is one of that number.
fn mark(marks: &mut Vec<bool>, number: usize)
    ensures { (s : ℕ) → is_marked marks.new.items s ≡ true → (is_marked marks.old.items s ≡ true) ⊎ (number ≡ s) }
{
    if number < marks.len() {
        marks[number] = true;
    }
}

// Sets the marks of some numbers.
fn mark_all(marks: &mut Vec<bool>, numbers: &[usize])
    ensures { (s : ℕ) → is_marked marks.new.items s ≡ true → (is_marked marks.old.items s ≡ true) ⊎ Contains numbers.now s }
{
    for number in numbers {
        mark(&mut *marks, *number);
    }
}

impl Groups {
    // Takes a step for each set and field of a group.
    fn spend(&mut self, sets: usize, fields: usize) -> bool
        ensures lists { self.new.lists ≡ self.old.lists }
        ensures covered { self.new.covered ≡ self.old.covered }
        ensures found { self.new.found ≡ self.old.found }
    {
        match self.left.checked_sub(sets.saturating_add(fields)) {
            Some(left) => {
                self.left = left;
                true
            }
            None => false,
        }
    }

    // Looks at the fields of a group, and lists the sets below those of each key.
    fn look_at_fields<'a>(
        &mut self,
        alloc: Global,
        arena: &Arena<'a>,
        group: &[usize],
        entries: &[Entry<'a>],
    ) -> Result<bool, Memory>
        requires sound { IsSound (arena_view arena.now) self.old }
        requires closed { IsClosed (arena_view arena.now) group.now }
        requires together { AreTogether (arena_view arena.now) group.now }
        requires fields { AreOf (arena_view arena.now) group.now (map (field_in arena.now) entries.now) }
        ensures best { OnOk result (AreConflicts (arena_view arena.now) self.new.found.best) }
        ensures looked { IfOk result (λ going. going ≡ true → LookedAt (arena_view arena.now) self.old self.new group.now) }
    {
        let heads = heads_of(alloc, entries)?;
        self.found.look(alloc, arena, entries, &heads)?;
        let found = rows_of(alloc, arena, entries, &heads.keys)?;
        let Some(rows) = found else {
            return Ok(false);
        };
        self.lists.add_all(alloc, arena, &rows)?;
        Ok(true)
    }

    // Looks at a group, unless it has more sets and fields than steps are left.
    fn look_at(&mut self, alloc: Global, arena: &Arena<'_>, group: &[usize]) -> Result<bool, Memory>
        requires sound { IsSound (arena_view arena.now) self.old }
        requires closed { IsClosed (arena_view arena.now) group.now }
        requires together { AreTogether (arena_view arena.now) group.now }
        ensures best { OnOk result (AreConflicts (arena_view arena.now) self.new.found.best) }
        ensures looked { IfOk result (λ going. going ≡ true → LookedAt (arena_view arena.now) self.old self.new group.now) }
    {
        let entries = sorted_entries(alloc, arena, group)?;
        if !self.spend(group.len(), entries.len()) {
            return Ok(false);
        }
        self.look_at_fields(alloc, arena, group, &entries)
    }

    // Marks the sets of a group that was looked at.
    fn mark_group(&mut self, group: &[usize])
        ensures lists { self.new.lists ≡ self.old.lists }
        ensures found { self.new.found ≡ self.old.found }
        ensures marks { (s : ℕ) → is_marked self.new.covered.items s ≡ true → (is_marked self.old.covered.items s ≡ true) ⊎ Contains group.now s }
    {
        mark_all(&mut self.covered, group);
    }

    // Looks at a group to which a list belongs, and marks its sets.
    fn explore_group(
        &mut self,
        alloc: Global,
        arena: &Arena<'_>,
        list: &[usize],
        group: &[usize],
    ) -> Result<bool, Memory>
        requires sound { IsSound (arena_view arena.now) self.old }
        requires has { HasAll group.now list.now }
        requires closed { IsClosed (arena_view arena.now) group.now }
        requires together { AreTogether (arena_view arena.now) group.now }
        ensures best { OnOk result (AreConflicts (arena_view arena.now) self.new.found.best) }
        ensures explored { IfOk result (λ going. going ≡ true → Explored (arena_view arena.now) self.old self.new list.now) }
    {
        let going = self.look_at(alloc, arena, group)?;
        if !going {
            return Ok(false);
        }
        self.mark_group(group);
        Ok(true)
    }

    // Looks at the group of a list, and marks its sets.
    fn explore(&mut self, alloc: Global, arena: &Arena<'_>, list: &[usize]) -> Result<bool, Memory>
        requires sound { IsSound (arena_view arena.now) self.old }
        requires list { AreTogether (arena_view arena.now) list.now }
        ensures best { OnOk result (AreConflicts (arena_view arena.now) self.new.found.best) }
        ensures explored { IfOk result (λ going. going ≡ true → Explored (arena_view arena.now) self.old self.new list.now) }
    {
        let group = closure(alloc, arena, &mut self.spots, list)?;
        self.explore_group(alloc, arena, list, &group)
    }

    // Explores the lists one after the other, also those that are added meanwhile.
    fn run(&mut self, alloc: Global, arena: &Arena<'_>) -> Result<bool, Memory>
        requires sound { IsSound (arena_view arena.now) self.old }
        requires explored { AreExplored (arena_view arena.now) (lists_of self.old) self.old.found.least self.old.done }
        requires inside { self.old.done ≤ length (lists_of self.old) }
        ensures best { OnOk result (AreConflicts (arena_view arena.now) self.new.found.best) }
        ensures goes { IfOk result (λ going. going ≡ true → Goes self.old self.new) }
        ensures end { IfOk result (λ going. going ≡ true → IsAtEnd (arena_view arena.now) self.new) }
    {
        for at in self.done..usize::MAX {
            let found = self.lists.list_at(alloc, at)?;
            let Some(list) = found else {
                self.done = at;
                return Ok(true);
            };
            let going = self.explore(alloc, arena, &list)?;
            if !going {
                return Ok(false);
            }
        }
        Ok(false)
    }

    // Explores what is put together with a set.
    fn start_at(&mut self, alloc: Global, arena: &Arena<'_>, set: usize) -> Result<bool, Memory>
        requires end { IsAtEnd (arena_view arena.now) self.old }
        requires inside { set < length (arena_view arena.now) }
        ensures best { OnOk result (AreConflicts (arena_view arena.now) self.new.found.best) }
        ensures goes { IfOk result (λ going. going ≡ true → Goes self.old self.new) }
        ensures end { IfOk result (λ going. going ≡ true → IsAtEnd (arena_view arena.now) self.new) }
        ensures covered { IfOk result (λ going. going ≡ true → IsCovered (arena_view arena.now) (lists_of self.new) self.new.found.least set) }
    {
        self.lists.add(alloc, arena, &[set])?;
        self.run(alloc, arena)
    }

    // The same, unless the set is passed over, is in a group that was looked at, or has nothing.
    fn cover(
        &mut self,
        alloc: Global,
        arena: &Arena<'_>,
        passed: &[bool],
        set: usize,
    ) -> Result<bool, Memory>
        requires end { IsAtEnd (arena_view arena.now) self.old }
        requires inside { set < length (arena_view arena.now) }
        ensures best { OnOk result (AreConflicts (arena_view arena.now) self.new.found.best) }
        ensures goes { IfOk result (λ going. going ≡ true → Goes self.old self.new) }
        ensures end { IfOk result (λ going. going ≡ true → IsAtEnd (arena_view arena.now) self.new) }
        ensures covered { IfOk result (λ going. going ≡ true → is_marked passed.now set ≡ false → IsCovered (arena_view arena.now) (lists_of self.new) self.new.found.least set) }
    {
        if is_marked(passed, set) {
            return Ok(true);
        }
        if is_marked(&self.covered, set) {
            return Ok(true);
        }
        if is_empty(arena, set) {
            return Ok(true);
        }
        self.start_at(alloc, arena, set)
    }

    // The same of all sets.
    fn cover_all(
        &mut self,
        alloc: Global,
        arena: &Arena<'_>,
        passed: &[bool],
    ) -> Result<bool, Memory>
        requires { IsAtEnd (arena_view arena.now) self.old }
        ensures best { OnOk result (AreConflicts (arena_view arena.now) self.new.found.best) }
        ensures end { IfOk result (λ going. going ≡ true → IsAtEnd (arena_view arena.now) self.new) }
        ensures covered { IfOk result
            (λ going. going ≡ true → (s : ℕ) → s < length (arena_view arena.now) → is_marked passed.now s ≡ false
            → IsCovered (arena_view arena.now) (lists_of self.new) self.new.found.least s) }
    {
        for set in 0..arena.sets.len() {
            let going = self.cover(alloc, arena, passed, set)?;
            if !going {
                return Ok(false);
            }
        }
        Ok(true)
    }

    // The first place, where the least conflict that was found is the least that there can be.
    fn told(&self, arena: &Arena<'_>) -> Search
        requires end { IsAtEnd (arena_view arena.now) self.now }
        requires covered { (s : ℕ) → s < length (arena_view arena.now) → IsCovered (arena_view arena.now) (lists_of self.now) self.now.found.least s }
        ensures { Tells (arena_view arena.now) result }
    {
        if is_same(self.found.best, self.found.least) {
            Search::First(self.found.best)
        } else {
            Search::Known(self.found.best)
        }
    }

    // The search from the sets that are not passed over, and then from all that are left.
    fn search(
        &mut self,
        alloc: Global,
        arena: &Arena<'_>,
        passed: &[bool],
    ) -> Result<Search, Memory>
        requires { IsAtEnd (arena_view arena.now) self.old }
        ensures { IfOk result (Tells (arena_view arena.now)) }
    {
        let going = self.cover_all(alloc, arena, passed)?;
        if !going {
            return Ok(Search::Known(self.found.best));
        }
        let going = self.cover_all(alloc, arena, &[])?;
        if !going {
            return Ok(Search::Known(self.found.best));
        }
        Ok(self.told(arena))
    }
}

// Whether two places are the same.
fn is_same(one: Option<u64>, other: Option<u64>) -> bool
    ensures { result ≡ true → one ≡ other }
{
    match (one, other) {
        (Some(place), Some(other)) => place == other,
        (None, None) => true,
        _ => false,
    }
}

// Marks the sets that some set spreads, and those below its fields.
fn mark_inner(marks: &mut Vec<bool>, entries: &[Entry<'_>], spreads: &[usize]) {
    for entry in entries {
        mark(&mut *marks, entry.below);
    }
    mark_all(marks, spreads);
}

// A mark for each set that stands below a field or is spread.
fn inner(alloc: Global, arena: &Arena<'_>) -> Result<Vec<bool>, Memory> {
    let mut marks = Vec::from_elem(alloc, false, arena.sets.len())?;
    for set in &arena.sets {
        mark_inner(&mut marks, &set.entries, &set.spreads);
    }
    Ok(marks)
}

// A search in which nothing was looked at.
fn start(alloc: Global, arena: &Arena<'_>) -> Result<Groups, Memory>
    ensures { IfOk result (IsAtEnd (arena_view arena.now)) }
{
    let spots = Vec::from_elem(alloc, 0, arena.sets.len())?;
    let covered = Vec::from_elem(alloc, false, arena.sets.len())?;
    Ok(Groups {
        lists: Lists::new(alloc),
        spots,
        covered,
        found: Found {
            least: None,
            best: None,
        },
        done: 0,
        left: MOST_STEPS,
    })
}

/// The least place of a later field of two that are reached together and cannot merge, found by groups of sets: near linear where
/// fragments are not put in again and again. Where there are too many groups, a conflict that was found, if one was.
pub fn first_by_groups(alloc: Global, arena: &Arena<'_>) -> Result<Search, Memory>
    ensures { IfOk result (Tells (arena_view arena.now)) }
{
    let inner = inner(alloc, arena)?;
    let mut groups = start(alloc, arena)?;
    groups.search(alloc, arena, &inner)
}
