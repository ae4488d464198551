//! 5.2.3.1 Single Root Field: a subscription whose root fields are not of one key, or are of introspection.
ghost use Rattle.std.specs.Prelude.{◌≡◌, ◌++◌, map, IfOk, OnOk, not, bytes_eq, option_map, slice_get};
ghost use Rattle.std.specs.List.{flat_map, list_any};
ghost use Rattle.std.specs.Option.{option_to_list};
ghost use Rattle.hq_gql_tree.specs.Documents.{operation as operation_tree, operation_view, definition_view};
ghost use Rattle.hq_gql_tree.specs.Selections.{selection_view, selections_of, field_view};
ghost use Rattle.hq_gql_tree.specs.View.{document_view};
ghost use Rattle.hq_gql_nodes.specs.Names.{get_name};
ghost use Rattle.hq_gql_nodes.specs.Reach.{graph_view};
ghost use Rattle.hq_rules_doc.specs.RootFields.{root_field_view};
ghost use Rattle.hq_rules_doc.specs.Subscriptions.{response_key, root_fields_of, root_fields, root_spreads_of, root_spreads, selections_of_definition, root_graph, root_fields_at, root_fields_from, is_introspection, are_wrong_root_fields, is_subscription, subscription_at, single_field_subscriptions};

use hq_base::{Memory, Txt};
use hq_gql_nodes::{NamePlaces, at_if, earlier, fragment_place, reached};
use hq_gql_tree::{Definition, Document, Field, OpKind, Operation, Selection};
use std::alloc::Global;

/// A field, by its response key and its name.
#[derive(Drop)]
pub struct RootField<'a> {
    pub key: &'a str,
    pub name: &'a str,
}

fn response_key(field: &Field) -> &Txt
    ensures { result.now ≡ response_key (field_view field.now).0 }
{
    match &field.alias {
        Some(alias) => alias,
        None => &field.name,
    }
}

// Adds the fields of a selection set, and those of the inline fragments in it.
#[cycle(root_fields)]
fn add_root_fields<'a>(
    fields: &mut Vec<RootField<'a>>,
    selections: &'a Vec<Selection>,
) -> Result<(), Memory>
    ensures { OnOk result (map root_field_view fields.new.items ≡ map root_field_view fields.old.items ++ root_fields (selections_of (map selection_view selections.now.items))) }
{
    for selection in selections {
        add_root_field(&mut *fields, selection)?;
    }
    Ok(())
}

#[cycle(root_fields)]
fn add_root_field<'a>(
    fields: &mut Vec<RootField<'a>>,
    selection: &'a Selection,
) -> Result<(), Memory>
    ensures { OnOk result (map root_field_view fields.new.items ≡ map root_field_view fields.old.items ++ root_fields_of (selection_view selection.now)) }
{
    match selection {
        Selection::Field(field) => {
            fields.push(RootField {
                key: response_key(field).as_str(),
                name: field.name.as_str(),
            })?;
            Ok(())
        }
        Selection::Spread(_) => Ok(()),
        Selection::Inline(inline) => add_root_fields(&mut *fields, &inline.selections),
    }
}

// Adds the places of the fragments that are spread in a selection set, and in the inline fragments in it.
#[cycle(root_spreads)]
fn add_root_spreads(
    targets: &mut Vec<usize>,
    places: &NamePlaces<'_>,
    selections: &Vec<Selection>,
) -> Result<(), Memory>
    ensures { OnOk result (targets.new.items ≡ targets.old.items ++ root_spreads (get_name places.now) (selections_of (map selection_view selections.now.items))) }
{
    for selection in selections {
        add_root_spread(&mut *targets, places, selection)?;
    }
    Ok(())
}

#[cycle(root_spreads)]
fn add_root_spread(
    targets: &mut Vec<usize>,
    places: &NamePlaces<'_>,
    selection: &Selection,
) -> Result<(), Memory>
    ensures { OnOk result (targets.new.items ≡ targets.old.items ++ root_spreads_of (get_name places.now) (selection_view selection.now)) }
{
    match selection {
        Selection::Field(_) => Ok(()),
        Selection::Spread(spread) => push_place(
            &mut *targets,
            fragment_place(places, &spread.name),
        ),
        Selection::Inline(inline) => add_root_spreads(&mut *targets, places, &inline.selections),
    }
}

// Adds a place, if there is one.
fn push_place(targets: &mut Vec<usize>, place: Option<usize>) -> Result<(), Memory>
    ensures { OnOk result (targets.new.items ≡ targets.old.items ++ option_to_list place) }
{
    if let Some(place) = place {
        targets.push(place)?;
    }
    Ok(())
}

fn selections_of(definition: &Definition) -> &Vec<Selection>
    ensures { selections_of (map selection_view result.now.items) ≡ selections_of_definition (definition_view definition.now) }
{
    match definition {
        Definition::Operation(operation) => &operation.selections,
        Definition::Fragment(fragment) => &fragment.selections,
    }
}

fn root_targets(
    alloc: Global,
    places: &NamePlaces<'_>,
    definition: &Definition,
) -> Result<Vec<usize>, Memory>
    ensures { IfOk result (λ targets. targets.items ≡ root_spreads (get_name places.now) (selections_of_definition (definition_view definition.now))) }
{
    let mut targets = Vec::new(alloc);
    add_root_spreads(&mut targets, places, selections_of(definition))?;
    Ok(targets)
}

// The fragments that stand among the root fields of each definition.
fn root_graph(
    alloc: Global,
    places: &NamePlaces<'_>,
    document: &Document,
) -> Result<Vec<Vec<usize>>, Memory>
    ensures { IfOk result (λ graph. graph_view graph.items ≡ root_graph (get_name places.now) (document_view document.now)) }
{
    let mut graph = Vec::new(alloc);
    for definition in &document.definitions {
        graph.push(root_targets(alloc, places, definition)?)?;
    }
    Ok(graph)
}

fn definition_at(document: &Document, at: usize) -> Option<&Definition>
    ensures { option_map (λ x. definition_view x.now) result ≡ slice_get (document_view document.now) at }
{
    document.definitions.get(at)
}

// Adds the root fields of the definition at a place.
#[tactic(auto, using(crate::proofs::Appended::nothing_added))]
fn add_root_fields_at<'a>(
    fields: &mut Vec<RootField<'a>>,
    document: &'a Document,
    at: usize,
) -> Result<(), Memory>
    ensures { OnOk result (map root_field_view fields.new.items ≡ map root_field_view fields.old.items ++ root_fields_at (document_view document.now) at) }
{
    match definition_at(document, at) {
        Some(definition) => add_root_fields(&mut *fields, selections_of(definition)),
        None => Ok(()),
    }
}

// The root fields of some definitions.
fn root_fields_among<'a>(
    alloc: Global,
    document: &'a Document,
    definitions: &[usize],
) -> Result<Vec<RootField<'a>>, Memory>
    ensures { IfOk result (λ fields. map root_field_view fields.items ≡ flat_map (root_fields_at (document_view document.now)) definitions.now) }
{
    let mut fields = Vec::new(alloc);
    for at in definitions {
        add_root_fields_at(&mut fields, document, *at)?;
    }
    Ok(fields)
}

fn is_introspection(field: &RootField<'_>) -> bool
    ensures { result ≡ is_introspection (root_field_view field.now) }
{
    field.name.as_bytes().starts_with(b"__")
}

fn any_introspection(fields: &[RootField<'_>]) -> bool
    ensures { result ≡ list_any is_introspection (map root_field_view fields.now) }
{
    for field in fields {
        if is_introspection(field) {
            return true;
        }
    }
    false
}

// Whether the key of some field is another than this.
fn any_other(fields: &[RootField<'_>], key: &str) -> bool
    ensures { result ≡ list_any (λ g. not (bytes_eq key.now g.key)) (map root_field_view fields.now) }
{
    for field in fields {
        if key != field.key {
            return true;
        }
    }
    false
}

// Whether the root fields are not of one key, or one of them is of introspection.
fn are_wrong_root_fields(fields: &[RootField<'_>]) -> bool
    ensures { result ≡ are_wrong_root_fields (map root_field_view fields.now) }
{
    match fields {
        [first, ..] => any_other(fields, first.key) || any_introspection(fields),
        [] => true,
    }
}

fn is_subscription(kind: OpKind) -> bool
    ensures { result ≡ is_subscription kind }
{
    match kind {
        OpKind::Subscription => true,
        OpKind::Query | OpKind::Mutation => false,
    }
}

// Whether the root fields of a definition at a place, and of what it spreads among them, are wrong.
fn is_wrong_at(
    alloc: Global,
    graph: &[Vec<usize>],
    document: &Document,
    at: usize,
) -> Result<bool, Memory>
    ensures { IfOk result (λ wrong. wrong ≡ are_wrong_root_fields (root_fields_from (graph_view graph.now) (document_view document.now) at)) }
{
    let definitions = reached(alloc, graph, &[at])?;
    let fields = root_fields_among(alloc, document, &definitions)?;
    Ok(are_wrong_root_fields(&fields))
}

fn operation_at(
    alloc: Global,
    graph: &[Vec<usize>],
    document: &Document,
    at: usize,
    operation: &Operation,
) -> Result<Option<u64>, Memory>
    ensures { IfOk result (λ place. place ≡ subscription_at (graph_view graph.now) (document_view document.now) at (operation_tree (operation_view operation.now))) }
{
    if is_subscription(operation.kind) {
        let wrong = is_wrong_at(alloc, graph, document, at)?;
        return Ok(at_if(wrong, operation.at));
    }
    Ok(None)
}

fn subscription_at(
    alloc: Global,
    graph: &[Vec<usize>],
    document: &Document,
    at: usize,
    definition: &Definition,
) -> Result<Option<u64>, Memory>
    ensures { IfOk result (λ place. place ≡ subscription_at (graph_view graph.now) (document_view document.now) at (definition_view definition.now)) }
{
    match definition {
        Definition::Operation(operation) => operation_at(alloc, graph, document, at, operation),
        Definition::Fragment(_) => Ok(None),
    }
}

fn least_wrong(
    alloc: Global,
    graph: &[Vec<usize>],
    document: &Document,
) -> Result<Option<u64>, Memory>
    ensures { IfOk result (λ place. place ≡ single_field_subscriptions (graph_view graph.now) (document_view document.now)) }
{
    let mut least = None;
    for (at, definition) in document.definitions.iter().enumerate() {
        let place = subscription_at(alloc, graph, document, at, definition)?;
        least = earlier(least, place);
    }
    Ok(least)
}

/// The least place at which a document violates the rule; `places` has the places of its fragments.
pub fn single_field_subscriptions(
    alloc: Global,
    places: &NamePlaces<'_>,
    document: &Document,
) -> Result<Option<u64>, Memory>
    ensures { IfOk result (λ place. place ≡ single_field_subscriptions (root_graph (get_name places.now) (document_view document.now)) (document_view document.now)) }
{
    let graph = root_graph(alloc, places, document)?;
    let place = least_wrong(alloc, &graph, document)?;
    Ok(place)
}
