//! What stands in a selection, and in a fragment.
ghost use Rattle.std.specs.Prelude.{◌≡◌, map, option_copied, option_map, option_and_then, slice_get, Some};
ghost use Rattle.hq_gql_tree.specs.Documents.{definition_view};
ghost use Rattle.hq_gql_nodes.specs.Fragments.{fragment_named};
ghost use Rattle.hq_gql_tree.specs.Selections.{selection_view, field_view, inline_view, selections_in};
ghost use Rattle.hq_request_collect.specs.Fragments.{selections_at, fragment_selections, inside};
ghost use Rattle.hq_request_collect.specs.Seen.{document_of};

use crate::fragments::Fragments;
use hq_base::Txt;
use hq_gql_nodes::fragment_place;
use hq_gql_tree::{Definition, Field, Inline, Selection};

impl<'a> Fragments<'a> {
    // The definition of the fragment of this name.
    fn definition(&self, name: &Txt) -> Option<&'a Definition>
        ensures { option_map (λ d. definition_view d.now) result ≡ option_and_then (slice_get (document_of self.now)) (fragment_named (document_of self.now) name.now) }
    {
        match fragment_place(&self.places, name) {
            Some(place) => definition_at(&self.document.definitions, place),
            None => None,
        }
    }

    /// The selections of the fragment of this name, none where there is no such fragment.
    pub fn selections(&self, name: &Txt) -> &'a [Selection]
        ensures { map selection_view result.now ≡ fragment_selections (document_of self.now) name.now }
    {
        match self.definition(name) {
            Some(definition) => fragment_selections(definition),
            None => &[],
        }
    }
}

// The definition at a place.
fn definition_at(definitions: &[Definition], place: usize) -> Option<&Definition>
    ensures { option_copied result ≡ slice_get definitions.now place }
{
    definitions.get(place)
}

// The selections of a definition, where it is a fragment.
fn fragment_selections(definition: &Definition) -> &[Selection]
    ensures { map selection_view result.now ≡ selections_at (Some (definition_view definition.now)) }
{
    match definition {
        Definition::Operation(_) => &[],
        Definition::Fragment(fragment) => &fragment.selections,
    }
}

/// The selections of a field.
pub fn field_selections(field: &Field) -> &[Selection]
    ensures { map selection_view result.now ≡ selections_in (field_view field.now).1 }
{
    &field.selections
}

/// The selections of an inline fragment.
pub fn inline_selections(inline: &Inline) -> &[Selection]
    ensures { map selection_view result.now ≡ selections_in (inline_view inline.now).1 }
{
    &inline.selections
}

/// The selections that stand in a selection.
pub fn inside<'a>(fragments: &Fragments<'a>, selection: &'a Selection) -> &'a [Selection]
    ensures { map selection_view result.now ≡ inside (document_of fragments.now) (selection_view selection.now) }
{
    match selection {
        Selection::Field(field) => field_selections(field),
        Selection::Inline(inline) => inline_selections(inline),
        Selection::Spread(spread) => fragments.selections(&spread.name),
    }
}
