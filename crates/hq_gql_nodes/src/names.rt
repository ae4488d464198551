//! Names that stand twice in a list.
ghost use Rattle.std.specs.Prelude.{◌≡◌, ◌||◌, ℕ, List, map, bytes_eq, IfOk, OnOk, Some, None, if◌then◌else◌};
ghost use Rattle.std.specs.Option.{option_or};
ghost use Rattle.hq_gql_nodes.specs.Names.{get_name, has_name, name_view, least_repeat};

use crate::least::{at_if, earlier};
use hq_base::Memory;
use std::alloc::Global;
use std::collections::HashMap;

/// The names of those so far.
pub type Names<'a> = HashMap<&'a str, bool>;

/// Notes a name. Whether it was noted before.
pub fn note<'a>(names: &mut Names<'a>, name: &'a str) -> Result<bool, Memory>
    ensures before { IfOk result (λ before. before ≡ has_name names.old name.now) }
    ensures noted { OnOk result ((q : List ℕ) → has_name names.new q ≡ (bytes_eq name.now q || has_name names.old q)) }
{
    let before = names.contains_key(name);
    names.insert(name, true)?;
    Ok(before)
}

/// Names, each with the place in a list at which it stands first.
pub type NamePlaces<'a> = HashMap<&'a str, usize>;

/// Notes the place of a name, where none is noted yet.
pub fn note_first<'a>(places: &mut NamePlaces<'a>, name: &'a str, at: usize) -> Result<(), Memory>
    ensures { OnOk result ((q : List ℕ) → get_name places.new q ≡ option_or (get_name places.old q) (if bytes_eq name.now q then Some at else None)) }
{
    if !places.contains_key(name) {
        places.insert(name, at)?;
    }
    Ok(())
}

/// A name, and where it stands.
#[derive(Drop)]
pub struct NameAt<'a> {
    pub name: &'a str,
    pub at: u64,
}

/// The least place of a name that an earlier one of the list has.
#[tactic(auto, using(crate::proofs::Lesser::earlier_none, crate::proofs::Lesser::earlier_assoc))]
pub fn least_repeat(alloc: Global, list: &[NameAt<'_>]) -> Result<Option<u64>, Memory>
    ensures { IfOk result (λ place. place ≡ least_repeat (map name_view list.now)) }
{
    let mut names = HashMap::new(alloc);
    let mut least = None;
    for entry in list {
        let before = note(&mut names, entry.name)?;
        least = earlier(least, at_if(before, entry.at));
    }
    Ok(least)
}
