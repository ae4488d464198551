//! A group of selection sets with those that they spread.
ghost use Rattle.std.specs.Prelude.{◌≡◌, ◌∷◌, [], true, slice_get, IfOk, OnOk};
ghost use Rattle.std.specs.List.{Contains};
ghost use Rattle.hq_overlap_sets.specs.Pairs.{spreads_at};
ghost use Rattle.hq_overlap_sets.specs.Sets.{arena_view};
ghost use Rattle.hq_rules_overlap.specs.Groups.{HasAll, AreTogether, IsClosed, Grows};

use hq_base::Memory;
use hq_overlap_sets::Arena;
use std::alloc::Global;

// The number at a place of a list.
fn number_at(list: &[usize], place: usize) -> Option<usize>
    ensures { result ≡ slice_get list.now place }
{
    list.get(place).copied()
}

// Whether a number stands at a place of a list.
fn stands_at(list: &[usize], place: usize, number: usize) -> bool
    ensures { result ≡ true → Contains list.now number }
{
    match number_at(list, place) {
        Some(found) => found == number,
        None => false,
    }
}

// Whether a number stands in a list, where it stands at the place that is noted if it does.
fn stands(list: &[usize], spots: &[usize], number: usize) -> bool
    ensures { result ≡ true → Contains list.now number }
{
    match number_at(spots, number) {
        Some(place) => stands_at(list, place, number),
        None => false,
    }
}

fn note_spot(spots: &mut Vec<usize>, number: usize, place: usize) {
    if number < spots.len() {
        spots[number] = place;
    }
}

// Adds a number to a list, unless it stands there.
fn add(list: &mut Vec<usize>, spots: &mut Vec<usize>, number: usize) -> Result<(), Memory>
    ensures { OnOk result (Grows (number ∷ []) list.old.items list.new.items) }
{
    if stands(list, spots, number) {
        return Ok(());
    }
    note_spot(spots, number, list.len());
    list.push(number)?;
    Ok(())
}

// Adds those of some numbers that do not stand in a list.
fn add_all(list: &mut Vec<usize>, spots: &mut Vec<usize>, numbers: &[usize]) -> Result<(), Memory>
    ensures { OnOk result (Grows numbers.now list.old.items list.new.items) }
{
    for number in numbers {
        add(&mut *list, &mut *spots, *number)?;
    }
    Ok(())
}

// Adds what a set spreads.
fn add_spreads(
    arena: &Arena<'_>,
    group: &mut Vec<usize>,
    spots: &mut Vec<usize>,
    set: usize,
) -> Result<(), Memory>
    ensures { OnOk result (Grows (spreads_at (arena_view arena.now) set) group.old.items group.new.items) }
{
    match arena.set(set) {
        Some(found) => add_all(group, spots, &found.spreads),
        None => Ok(()),
    }
}

// Adds what the sets of a group spread, also those that are found meanwhile.
fn close(arena: &Arena<'_>, group: &mut Vec<usize>, spots: &mut Vec<usize>) -> Result<(), Memory>
    requires { AreTogether (arena_view arena.now) group.old.items }
    ensures has { OnOk result (HasAll group.new.items group.old.items) }
    ensures closed { OnOk result (IsClosed (arena_view arena.now) group.new.items) }
    ensures together { OnOk result (AreTogether (arena_view arena.now) group.new.items) }
{
    for at in 0..usize::MAX {
        let Some(set) = number_at(group, at) else {
            return Ok(());
        };
        add_spreads(arena, &mut *group, &mut *spots, set)?;
    }
    Err(Memory)
}

/// Sets that are put together, with all that they spread. `spots` has a number for each set of the arena, whichever it is.
pub fn closure(
    alloc: Global,
    arena: &Arena<'_>,
    spots: &mut Vec<usize>,
    start: &[usize],
) -> Result<Vec<usize>, Memory>
    requires { AreTogether (arena_view arena.now) start.now }
    ensures has { IfOk result (λ group. HasAll group.items start.now) }
    ensures closed { IfOk result (λ group. IsClosed (arena_view arena.now) group.items) }
    ensures together { IfOk result (λ group. AreTogether (arena_view arena.now) group.items) }
{
    let mut group = Vec::from_slice(alloc, start)?;
    for (place, number) in start.iter().enumerate() {
        note_spot(spots, *number, place);
    }
    close(arena, &mut group, spots)?;
    Ok(group)
}
