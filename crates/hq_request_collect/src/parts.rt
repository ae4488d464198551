//! The parts of a collected field.
ghost use Rattle.std.specs.Prelude.{◌≡◌, map};
ghost use Rattle.hq_gql_tree.specs.Selections.{field_view};
ghost use Rattle.hq_request_collect.specs.Tree.{is_empty};
ghost use Rattle.hq_request_collect.specs.TreeSeen.{collected_view, trees_of, parts_seen};

use crate::tree::CollectedField;
use hq_base::Txt;
use hq_gql_tree::Field;

fn are_none(fields: &[CollectedField<'_>]) -> bool
    ensures { result ≡ is_empty (trees_of (map collected_view fields.now)) }
{
    match fields {
        [] => true,
        [_, ..] => false,
    }
}

impl<'a> CollectedField<'a> {
    /// Its response key.
    pub fn key(&self) -> &Txt
        ensures { result.now ≡ (parts_seen self.now).key }
    {
        &self.key
    }

    /// Its first field, which has its arguments and its place.
    pub fn first(&self) -> &'a Field
        ensures { (field_view result.now).0 ≡ (parts_seen self.now).head }
    {
        self.first
    }

    /// Whether no field stands below it.
    pub fn is_leaf(&self) -> bool
        ensures { result ≡ is_empty (parts_seen self.now).below }
    {
        are_none(&self.below)
    }
}
