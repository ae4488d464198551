//! Selection sets by their numbers.
ghost use Rattle.std.specs.Prelude.{◌≡◌, ◌&&◌, length, max, nat_eq, slice_get};
ghost use Rattle.std.specs.Option.{option_copied};
ghost use Rattle.hq_gql_tree.specs.Selections.{field_view};
ghost use Rattle.hq_overlap_sets.specs.Sets.{response_key};

use hq_gql_tree::Field;
use hq_schema::{FieldDef, Schema};

/// A field whose type is known, with its parent type and the number of the set below it.
#[derive(Clone, Copy)]
pub struct Entry<'a> {
    pub field: &'a Field,
    pub def: &'a FieldDef,
    pub parent: usize,
    pub below: usize,
}

impl<'a> Entry<'a> {
    /// Its response key.
    pub fn key(&self) -> &'a str
        ensures { result.now ≡ response_key (field_view self.now.field.now).0 }
    {
        match &self.field.alias {
            Some(alias) => alias.as_str(),
            None => self.field.name.as_str(),
        }
    }
}

/// A selection set: the fields that stand in it itself, and the numbers of the sets that its spreads put in.
#[derive(Drop)]
pub struct Set<'a> {
    pub entries: Vec<Entry<'a>>,
    pub spreads: Vec<usize>,
}

impl Set<'_> {
    /// Whether it has neither fields nor spreads.
    pub fn is_empty(&self) -> bool
        ensures { result ≡ (nat_eq (length self.now.entries.items) 0 && nat_eq (length self.now.spreads.items) 0) }
    {
        self.entries.is_empty() && self.spreads.is_empty()
    }
}

/// The selection sets of a document.
#[derive(Drop)]
pub struct Arena<'a> {
    pub schema: &'a Schema,
    pub sets: Vec<Set<'a>>,
}

impl<'a> Arena<'a> {
    /// The set of a number.
    pub fn set(&self, number: usize) -> Option<&Set<'a>>
        ensures { option_copied result ≡ slice_get self.now.sets.items number }
    {
        self.sets.get(number)
    }
}

/// The field at a place of a list.
pub fn entry_at<'a>(entries: &[Entry<'a>], at: usize) -> Option<Entry<'a>>
    ensures { result ≡ slice_get entries.now at }
{
    entries.get(at).copied()
}

/// The place of the later one of two fields.
pub fn later(a: &Entry<'_>, b: &Entry<'_>) -> u64
    ensures { result ≡ max a.now.field.now.at b.now.field.now.at }
{
    a.field.at.max(b.field.at)
}

/// Two selection sets.
#[derive(Clone, Copy)]
pub struct Pair {
    pub left: usize,
    pub right: usize,
}
