//! Lists of selection sets, each once.
ghost use Rattle.std.specs.Prelude.{◌≡◌, ◌++◌, ◌∷◌, [], true, slice_get, option_map, IfOk, OnOk};
ghost use Rattle.std.specs.List.{All, Contains};
ghost use Rattle.hq_gql_nodes.specs.Reach.{graph_view};
ghost use Rattle.hq_overlap_sets.specs.Sets.{arena_view};
ghost use Rattle.hq_rules_overlap.specs.Exploring.{IsKept, Continues};
ghost use Rattle.hq_rules_overlap.specs.Groups.{AreTogether};

use hq_base::Memory;
use hq_gql_nodes::row;
use hq_overlap_sets::Arena;
use std::alloc::Global;
use std::collections::HashMap;

/// Lists of sets, and where a list may stand by a number that is made of its sets.
#[derive(Drop)]
pub struct Lists {
    pub rows: Vec<Vec<usize>>,
    pub places: HashMap<u64, usize>,
}

// A number that is made of a list.
fn print_of(list: &[usize]) -> u64 {
    let mut print = 14_695_981_039_346_656_037u64;
    for number in list {
        print = (print ^ (*number as u64)).wrapping_mul(1_099_511_628_211);
    }
    print
}

// Whether two lists are the same.
fn are_same(found: &[usize], list: &[usize]) -> bool
    ensures { result ≡ true → found.now ≡ list.now }
{
    if found != list {
        return false;
    }
    true
}

impl Lists {
    /// No list.
    pub fn new(alloc: Global) -> Self
        ensures { result.rows.items ≡ [] }
    {
        Lists {
            rows: Vec::new(alloc),
            places: HashMap::new(alloc),
        }
    }

    // Whether a list stands at a place.
    fn is_at(&self, place: usize, list: &[usize]) -> bool
        ensures { result ≡ true → Contains (graph_view self.now.rows.items) list.now }
    {
        if place >= self.rows.len() {
            return false;
        }
        are_same(row(&self.rows, place), list)
    }

    // Whether a list stands at the place that is noted of its number.
    fn has(&self, print: u64, list: &[usize]) -> bool
        ensures { result ≡ true → Contains (graph_view self.now.rows.items) list.now }
    {
        match self.places.get(&print) {
            Some(place) => self.is_at(*place, list),
            None => false,
        }
    }

    // Adds a list at the end.
    fn push(&mut self, alloc: Global, print: u64, list: &[usize]) -> Result<(), Memory>
        ensures { OnOk result (graph_view self.new.rows.items ≡ graph_view self.old.rows.items ++ (list.now ∷ [])) }
    {
        let copy = Vec::from_slice(alloc, list)?;
        self.places.insert(print, self.rows.len())?;
        self.rows.push(copy)?;
        Ok(())
    }

    /// Adds a list of sets that are put together, unless it stands there.
    pub fn add(&mut self, alloc: Global, arena: &Arena<'_>, list: &[usize]) -> Result<(), Memory>
        requires lists { All (AreTogether (arena_view arena.now)) (graph_view self.old.rows.items) }
        requires list { AreTogether (arena_view arena.now) list.now }
        ensures lists { OnOk result (All (AreTogether (arena_view arena.now)) (graph_view self.new.rows.items)) }
        ensures grown { OnOk result (Continues (graph_view self.old.rows.items) (graph_view self.new.rows.items)) }
        ensures has { OnOk result (Contains (graph_view self.new.rows.items) list.now) }
    {
        let print = print_of(list);
        if self.has(print, list) {
            return Ok(());
        }
        self.push(alloc, print, list)
    }

    // The same of a list that has sets.
    fn add_some(&mut self, alloc: Global, arena: &Arena<'_>, list: &[usize]) -> Result<(), Memory>
        requires lists { All (AreTogether (arena_view arena.now)) (graph_view self.old.rows.items) }
        requires list { AreTogether (arena_view arena.now) list.now }
        ensures lists { OnOk result (All (AreTogether (arena_view arena.now)) (graph_view self.new.rows.items)) }
        ensures grown { OnOk result (Continues (graph_view self.old.rows.items) (graph_view self.new.rows.items)) }
        ensures kept { OnOk result (IsKept (graph_view self.new.rows.items) list.now) }
    {
        if list.is_empty() {
            return Ok(());
        }
        self.add(alloc, arena, list)
    }

    /// Adds each of some lists that has sets.
    pub fn add_all(
        &mut self,
        alloc: Global,
        arena: &Arena<'_>,
        rows: &[Vec<usize>],
    ) -> Result<(), Memory>
        requires lists { All (AreTogether (arena_view arena.now)) (graph_view self.old.rows.items) }
        requires rows { All (AreTogether (arena_view arena.now)) (graph_view rows.now) }
        ensures lists { OnOk result (All (AreTogether (arena_view arena.now)) (graph_view self.new.rows.items)) }
        ensures grown { OnOk result (Continues (graph_view self.old.rows.items) (graph_view self.new.rows.items)) }
        ensures kept { OnOk result (All (IsKept (graph_view self.new.rows.items)) (graph_view rows.now)) }
    {
        for row in rows {
            self.add_some(alloc, arena, row)?;
        }
        Ok(())
    }

    /// The list at a place.
    pub fn list_at(&self, alloc: Global, place: usize) -> Result<Option<Vec<usize>>, Memory>
        ensures { IfOk result (λ found. option_map (λ list. list.items) found ≡ slice_get (graph_view self.now.rows.items) place) }
    {
        match self.rows.get(place) {
            Some(row) => Ok(Some(Vec::from_slice(alloc, row)?)),
            None => Ok(None),
        }
    }
}
