//! The keywords of a text that begin a subscription, written as `query`.
ghost use Rattle.std.specs.Prelude.{◌≡◌, map};
ghost use Rattle.std.specs.List.{list_any};
ghost use Rattle.hq_gql_tree.specs.Documents.{definition_view};
ghost use Rattle.hq_live_text.specs.LiveText.{keyword_place, begins_subscription, with_query_at, with_query, with_queries};

use hq_gql_tree::{Definition, OpKind};

// `query` and seven spaces: as many bytes as `subscription` has, so that places stay.
const QUERY: &[u8] = b"query       ";

// The place of the keyword `subscription` that begins a definition, if one does.
fn keyword_place(definition: &Definition) -> Option<u64>
    ensures { result ≡ keyword_place (definition_view definition.now) }
{
    match definition {
        Definition::Operation(operation) => match operation.kind {
            OpKind::Subscription => Some(operation.at),
            OpKind::Query | OpKind::Mutation => None,
        },
        Definition::Fragment(_) => None,
    }
}

/// Whether a definition is a subscription.
pub fn begins_subscription(definition: &Definition) -> bool
    ensures { result ≡ begins_subscription (definition_view definition.now) }
{
    keyword_place(definition).is_some()
}

/// Whether one of the definitions is a subscription.
pub fn has_subscription(definitions: &[Definition]) -> bool
    ensures { result ≡ list_any begins_subscription (map definition_view definitions.now) }
{
    'definitions: for definition in definitions {
        if begins_subscription(definition) {
            return true;
        }
    }
    false
}

// Writes `query` in place of the keyword that stands at this place.
fn put_query_at(text: &mut Vec<u8>, at: u64)
    ensures { text.new.items ≡ with_query_at at text.old.items }
{
    if text.len() < QUERY.len() || at > (text.len() - QUERY.len()) as u64 {
        return;
    }
    let from = at as usize;
    let to = from + QUERY.len();
    text[from..to].copy_from_slice(QUERY);
}

// Writes `query` in place of the keyword that begins a subscription.
fn put_query(text: &mut Vec<u8>, definition: &Definition)
    ensures { text.new.items ≡ with_query (definition_view definition.now) text.old.items }
{
    if let Some(at) = keyword_place(definition) {
        put_query_at(text, at);
    }
}

/// Writes `query` in place of each keyword that begins a subscription.
pub fn put_queries(text: &mut Vec<u8>, definitions: &[Definition])
    ensures { text.new.items ≡ with_queries (map definition_view definitions.now) text.old.items }
{
    'definitions: for definition in definitions {
        put_query(text, definition);
    }
}
