//! The first rule that a document violates, and the least place at which it does.
ghost use Rattle.std.specs.Prelude.{◌≡◌, IfOk, map, option_map};
ghost use Rattle.hq_schema.specs.Schema.{schema_view, type_ref_view};
ghost use Rattle.hq_gql_tree.specs.View.{document_view};
ghost use Rattle.hq_gql_nodes.specs.Names.{get_name};
ghost use Rattle.hq_gql_nodes.specs.Nodes.{part_view, variable_types};
ghost use Rattle.hq_gql_nodes.specs.Reach.{graph_view};
ghost use Rattle.hq_rules_doc.specs.First.{operation_fault, fragment_fault, directive_fault, variable_fault, fault_by, first_doc_fault};

use crate::rules::NodeRule;
use crate::rules::lone_anonymous_operation::lone_anonymous_operation;
use crate::rules::single_field_subscriptions::single_field_subscriptions;
use crate::rules::unique_fragment_names::unique_fragment_names;
use crate::rules::unique_operation_names::unique_operation_names;
use crate::rules::unique_variable_names::unique_variable_names;
use hq_base::Memory;
use hq_gql_nodes::{
    NamePlaces, Part, document_parts, fault_at, fragment_places, graph_of, variable_types,
};
use hq_gql_tree::{Document, Fault, RuleId};
use hq_rules_reach::no_fragment_cycles::no_fragment_cycles;
use hq_rules_reach::no_unused_fragments::no_unused_fragments;
use hq_rules_reach::variable_use_fault;
use hq_schema::{Schema, TypeRef};
use std::alloc::Global;

// The first fault of the rules of operations.
fn operation_fault(
    alloc: Global,
    document: &Document,
    places: &NamePlaces<'_>,
) -> Result<Option<Fault>, Memory>
    ensures { IfOk result (λ fault. fault ≡ operation_fault (document_view document.now) (get_name places.now)) }
{
    if let Some(at) = unique_operation_names(alloc, document)? {
        return Ok(Some(fault_at(RuleId::OperationNameUniqueness, at)));
    }
    if let Some(at) = lone_anonymous_operation(document) {
        return Ok(Some(fault_at(RuleId::LoneAnonymousOperation, at)));
    }
    if let Some(at) = single_field_subscriptions(alloc, places, document)? {
        return Ok(Some(fault_at(RuleId::SingleRootField, at)));
    }
    Ok(None)
}

// The first fault of the rules of fragments.
fn fragment_fault(
    alloc: Global,
    schema: &Schema,
    document: &Document,
    places: &NamePlaces<'_>,
    parts: &[Part<'_>],
    graph: &[Vec<usize>],
) -> Result<Option<Fault>, Memory>
    ensures { IfOk result (λ fault. fault ≡ fragment_fault (schema_view schema.now) (document_view document.now) (get_name places.now) (map part_view parts.now) (graph_view graph.now)) }
{
    if let Some(at) = unique_fragment_names(alloc, document)? {
        return Ok(Some(fault_at(RuleId::FragmentNameUniqueness, at)));
    }
    if let Some(at) = NodeRule::KnownTypeNames.place(alloc, schema, document, places, parts)? {
        return Ok(Some(fault_at(RuleId::FragmentSpreadTypeExistence, at)));
    }
    if let Some(at) = NodeRule::FragmentsOnCompositeTypes.place(
        alloc, schema, document, places, parts,
    )? {
        return Ok(Some(fault_at(RuleId::FragmentsOnCompositeTypes, at)));
    }
    if let Some(at) = no_unused_fragments(alloc, document, parts)? {
        return Ok(Some(fault_at(RuleId::FragmentsMustBeUsed, at)));
    }
    if let Some(at) = NodeRule::KnownFragmentNames.place(alloc, schema, document, places, parts)? {
        return Ok(Some(fault_at(RuleId::FragmentSpreadTargetDefined, at)));
    }
    if let Some(at) = no_fragment_cycles(alloc, graph, document)? {
        return Ok(Some(fault_at(RuleId::FragmentSpreadsMustNotFormCycles, at)));
    }
    if let Some(at) = NodeRule::PossibleFragmentSpreads.place(
        alloc, schema, document, places, parts,
    )? {
        return Ok(Some(fault_at(RuleId::FragmentSpreadIsPossible, at)));
    }
    Ok(None)
}

// The first fault of the rules of directives.
fn directive_fault(
    alloc: Global,
    schema: &Schema,
    document: &Document,
    places: &NamePlaces<'_>,
    parts: &[Part<'_>],
) -> Result<Option<Fault>, Memory>
    ensures { IfOk result (λ fault. fault ≡ directive_fault (schema_view schema.now) (document_view document.now) (get_name places.now) (map part_view parts.now)) }
{
    if let Some(at) = NodeRule::KnownDirectives.place(alloc, schema, document, places, parts)? {
        return Ok(Some(fault_at(RuleId::DirectivesAreDefined, at)));
    }
    if let Some(at) = NodeRule::DirectivesInLocations.place(
        alloc, schema, document, places, parts,
    )? {
        return Ok(Some(fault_at(RuleId::DirectivesAreInValidLocations, at)));
    }
    if let Some(at) = NodeRule::UniqueDirectives.place(alloc, schema, document, places, parts)? {
        return Ok(Some(fault_at(RuleId::DirectivesAreUniquePerLocation, at)));
    }
    Ok(None)
}

// The first fault of the rules of variables.
fn variable_fault(
    alloc: Global,
    schema: &Schema,
    document: &Document,
    types: &[Vec<Option<TypeRef>>],
    places: &NamePlaces<'_>,
    parts: &[Part<'_>],
    graph: &[Vec<usize>],
) -> Result<Option<Fault>, Memory>
    requires { map (λ types. map (λ t. option_map type_ref_view t) types.items) types.now ≡ map (variable_types (schema_view schema.now)) (document_view document.now) }
    ensures { IfOk result (λ fault. fault ≡ variable_fault (schema_view schema.now) (document_view document.now) (get_name places.now) (map part_view parts.now) (graph_view graph.now)) }
{
    if let Some(at) = unique_variable_names(alloc, document)? {
        return Ok(Some(fault_at(RuleId::VariableUniqueness, at)));
    }
    if let Some(at) = NodeRule::VariablesAreInputTypes.place(
        alloc, schema, document, places, parts,
    )? {
        return Ok(Some(fault_at(RuleId::VariablesAreInputTypes, at)));
    }
    variable_use_fault(alloc, schema, document, types, graph, parts)
}

// The first fault, by what is found in the document beforehand.
fn fault_by(
    alloc: Global,
    schema: &Schema,
    document: &Document,
    types: &[Vec<Option<TypeRef>>],
    places: &NamePlaces<'_>,
    parts: &[Part<'_>],
    graph: &[Vec<usize>],
) -> Result<Option<Fault>, Memory>
    requires { map (λ types. map (λ t. option_map type_ref_view t) types.items) types.now ≡ map (variable_types (schema_view schema.now)) (document_view document.now) }
    ensures { IfOk result (λ fault. fault ≡ fault_by (schema_view schema.now) (document_view document.now) (get_name places.now) (map part_view parts.now) (graph_view graph.now)) }
{
    if let Some(fault) = operation_fault(alloc, document, places)? {
        return Ok(Some(fault));
    }
    if let Some(fault) = fragment_fault(alloc, schema, document, places, parts, graph)? {
        return Ok(Some(fault));
    }
    if let Some(fault) = directive_fault(alloc, schema, document, places, parts)? {
        return Ok(Some(fault));
    }
    variable_fault(alloc, schema, document, types, places, parts, graph)
}

/// The first rule of documents that a document violates for a schema, in the order of the rules' numbers, with the least place
/// at which it does; None exactly where it violates none. The rules are those of 5.2, 5.5, 5.7 and 5.8.
pub fn first_doc_fault(
    alloc: Global,
    document: &Document,
    schema: &Schema,
) -> Result<Option<Fault>, Memory>
    ensures { IfOk result (λ fault. fault ≡ first_doc_fault (schema_view schema.now) (document_view document.now)) }
{
    let places = fragment_places(alloc, document)?;
    let types = variable_types(alloc, schema, document)?;
    let parts = document_parts(alloc, schema, document, &types)?;
    let graph = graph_of(alloc, &places, &parts)?;
    let fault = fault_by(alloc, schema, document, &types, &places, &parts, &graph)?;
    Ok(fault)
}
