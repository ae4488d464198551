ghost use Rattle.std.specs.Prelude.{◌≡◌, IfOk, map};
ghost use Rattle.hq_schema.specs.Sorted.{places_by_name, places_of, numbered};

use crate::Named;
use hq_base::{Memory, Txt, sort};
use std::alloc::Global;

/// A name and its place. Entries are compared by their names alone.
#[derive(Drop)]
#[derive_where(PartialEq, Eq, PartialOrd, Ord)]
pub struct Entry<'a> {
    name: &'a Txt,
    #[derive_where(skip)]
    at: usize,
}

fn entries<'a, T: Named>(alloc: Global, items: &'a [T]) -> Result<Vec<Entry<'a>>, Memory>
    ensures { IfOk result (λ es. map (λ e. (e.name.now, e.at)) es.items ≡ numbered 0 (map T.name_of items.now)) }
{
    let mut entries = Vec::new(alloc);
    for (at, item) in items.iter().enumerate() {
        entries.push(Entry {
            name: item.name(),
            at,
        })?;
    }
    Ok(entries)
}

fn places(alloc: Global, entries: &[Entry<'_>]) -> Result<Vec<usize>, Memory>
    ensures { IfOk result (λ places. places.items ≡ map (λ e. e.at) entries.now) }
{
    let mut places = Vec::new(alloc);
    for entry in entries {
        places.push(entry.at)?;
    }
    Ok(places)
}

// The places of entries in ascending order of their names, of equal names the first entry first.
fn sorted_places(alloc: Global, entries: &mut [Entry<'_>]) -> Result<Vec<usize>, Memory>
    ensures { IfOk result (λ places. places.items ≡ places_of (map (λ e. (e.name.now, e.at)) entries.old)) }
{
    sort(alloc, entries)?;
    let places = places(alloc, entries)?;
    Ok(places)
}

/// The places of items in ascending order of their names, of equal names the first place first.
pub fn places_by_name<T: Named>(alloc: Global, items: &[T]) -> Result<Vec<usize>, Memory>
    ensures { IfOk result (λ places. places.items ≡ places_by_name (map T.name_of items.now)) }
{
    let mut entries = entries(alloc, items)?;
    let places = sorted_places(alloc, &mut entries)?;
    Ok(places)
}
