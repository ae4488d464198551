ghost use Rattle.std.specs.Prelude.{◌≡◌, ℕ, List, [], map, find, position, length, bytes_eq, slice_get, option_copied, IfOk};

use crate::search::first_at;
use crate::sorted::places_by_name;
use hq_base::{Memory, Txt};
use std::alloc::Global;
use std::marker::Model;

/// What has a name by which it is looked up.
pub trait Named {
    ghost name_of: { Self → List ℕ };

    /// Its name.
    fn name(&self) -> &Txt
        ensures { result.now ≡ name_of self.now };
}

impl Named for Txt {
    ghost name_of = { λ t. t };

    fn name(&self) -> &Txt {
        self
    }
}

/// A list whose items are found by their names, each in as many steps as the list's length has binary digits. Contracts see
/// it as the list of its items.
#[derive(Drop)]
pub struct NamedList<T: Named> {
    items: Vec<T>,
    // The places of the items in ascending order of their names, of equal names the first place first.
    places: Vec<usize>,
}

impl<T: Named> Model for NamedList<T> {
    ghost use Rattle.std.specs.Prelude.{◌≡◌, List as Items, map};
    ghost use Rattle.hq_schema.specs.Sorted.{places_by_name};

    ghost Value = { Items T };

    ghost view = { λ l. l.items.items };

    ghost invariant = { λ l. l.places.items ≡ places_by_name (map T.name_of l.items.items) };
}

impl<T: Named> NamedList<T> {
    /// The list of these items.
    pub fn new(alloc: Global, items: Vec<T>) -> Result<Self, Memory>
    where
        T: Drop,
        ensures { IfOk result (λ l. l ≡ items.items) }
    {
        let places = places_by_name(alloc, &items)?;
        Ok(NamedList { items, places })
    }

    /// The empty list. Takes no memory.
    pub fn empty(alloc: Global) -> Self
        ensures { result ≡ [] }
    {
        NamedList {
            items: Vec::new(alloc),
            places: Vec::new(alloc),
        }
    }

    /// The items, in order.
    pub fn as_slice(&self) -> &[T]
        ensures { result.now ≡ self.now }
    {
        &self.items
    }

    /// How many items there are.
    pub fn len(&self) -> usize
        ensures { result ≡ length self.now }
    {
        self.items.len()
    }

    /// The item at this place, counted from 0.
    pub fn get(&self, at: usize) -> Option<&T>
        ensures { option_copied result ≡ slice_get self.now at }
    {
        self.items.get(at)
    }

    /// The place of the first item of this name.
    pub fn place(&self, name: &Txt) -> Option<usize>
        ensures { result ≡ position (λ x. bytes_eq (T.name_of x) name.now) self.now }
    {
        first_at(&self.items, &self.places, name)
    }

    /// The first item of this name.
    pub fn find(&self, name: &Txt) -> Option<&T>
        ensures { option_copied result ≡ find (λ x. bytes_eq (T.name_of x) name.now) self.now }
    {
        match self.place(name) {
            Some(at) => self.get(at),
            None => None,
        }
    }
}
