//! The first rule of fields, arguments and values that a document violates, and the least place at which it does.
ghost use Rattle.std.specs.Prelude.{◌≡◌, IfOk, map};
ghost use Rattle.hq_schema.specs.Schema.{schema_view};
ghost use Rattle.hq_gql_tree.specs.View.{document_view};
ghost use Rattle.hq_gql_nodes.specs.Nodes.{part_view};
ghost use Rattle.hq_overlap_sets.specs.Places.{overlap_place};
ghost use Rattle.hq_rules_fields.specs.First.{selection_fault, argument_fault, value_fault, fault_by, first_field_fault};

use crate::rules::NodeRule;
use hq_base::Memory;
use hq_gql_nodes::{Part, document_parts, fault_at, variable_types};
use hq_gql_tree::{Document, Fault, RuleId};
use hq_rules_overlap::{OverlapRefusal, first_overlap};
use hq_schema::Schema;
use std::alloc::Global;

// The least place of a field that cannot be merged. Too many selection sets at fault are answered as want of memory from here on.
fn overlap(alloc: Global, schema: &Schema, document: &Document) -> Result<Option<u64>, Memory>
    ensures { IfOk result (λ place. place ≡ overlap_place (schema_view schema.now) (document_view document.now)) }
{
    match first_overlap(alloc, document, schema) {
        Ok(place) => Ok(place),
        Err(OverlapRefusal::TooMuchAtFault) | Err(OverlapRefusal::Memory) => Err(Memory),
    }
}

// The first fault of the rules of fields.
fn selection_fault(
    alloc: Global,
    schema: &Schema,
    document: &Document,
    parts: &[Part<'_>],
) -> Result<Option<Fault>, Memory>
    ensures { IfOk result (λ fault. fault ≡ selection_fault (schema_view schema.now) (document_view document.now) (map part_view parts.now)) }
{
    if let Some(at) = NodeRule::FieldsOnCorrectType.place(alloc, schema, parts)? {
        return Ok(Some(fault_at(RuleId::FieldSelections, at)));
    }
    if let Some(at) = overlap(alloc, schema, document)? {
        return Ok(Some(fault_at(RuleId::FieldSelectionMerging, at)));
    }
    if let Some(at) = NodeRule::ScalarLeafs.place(alloc, schema, parts)? {
        return Ok(Some(fault_at(RuleId::LeafFieldSelections, at)));
    }
    Ok(None)
}

// The first fault of the rules of arguments.
fn argument_fault(
    alloc: Global,
    schema: &Schema,
    parts: &[Part<'_>],
) -> Result<Option<Fault>, Memory>
    ensures { IfOk result (λ fault. fault ≡ argument_fault (schema_view schema.now) (map part_view parts.now)) }
{
    if let Some(at) = NodeRule::KnownArgumentNames.place(alloc, schema, parts)? {
        return Ok(Some(fault_at(RuleId::ArgumentNames, at)));
    }
    if let Some(at) = NodeRule::UniqueArgumentNames.place(alloc, schema, parts)? {
        return Ok(Some(fault_at(RuleId::ArgumentUniqueness, at)));
    }
    if let Some(at) = NodeRule::ProvidedRequiredArguments.place(alloc, schema, parts)? {
        return Ok(Some(fault_at(RuleId::RequiredArguments, at)));
    }
    Ok(None)
}

// The first fault of the rules of values.
fn value_fault(alloc: Global, schema: &Schema, parts: &[Part<'_>]) -> Result<Option<Fault>, Memory>
    ensures { IfOk result (λ fault. fault ≡ value_fault (schema_view schema.now) (map part_view parts.now)) }
{
    if let Some(at) = NodeRule::ValuesOfCorrectType.place(alloc, schema, parts)? {
        return Ok(Some(fault_at(RuleId::ValuesOfCorrectType, at)));
    }
    if let Some(at) = NodeRule::KnownInputFields.place(alloc, schema, parts)? {
        return Ok(Some(fault_at(RuleId::InputObjectFieldNames, at)));
    }
    if let Some(at) = NodeRule::UniqueInputFields.place(alloc, schema, parts)? {
        return Ok(Some(fault_at(RuleId::InputObjectFieldUniqueness, at)));
    }
    if let Some(at) = NodeRule::RequiredInputFields.place(alloc, schema, parts)? {
        return Ok(Some(fault_at(RuleId::InputObjectRequiredFields, at)));
    }
    Ok(None)
}

// The first fault, by the parts of the document.
fn fault_by(
    alloc: Global,
    schema: &Schema,
    document: &Document,
    parts: &[Part<'_>],
) -> Result<Option<Fault>, Memory>
    ensures { IfOk result (λ fault. fault ≡ fault_by (schema_view schema.now) (document_view document.now) (map part_view parts.now)) }
{
    if let Some(fault) = selection_fault(alloc, schema, document, parts)? {
        return Ok(Some(fault));
    }
    if let Some(fault) = argument_fault(alloc, schema, parts)? {
        return Ok(Some(fault));
    }
    value_fault(alloc, schema, parts)
}

/// The first rule of fields, arguments and values that a document violates for a schema, in the order of the rules' numbers, with
/// the least place at which it does; None exactly where it violates none. The rules are those of 5.3, of 5.4 and of 5.6.
pub fn first_field_fault(
    alloc: Global,
    document: &Document,
    schema: &Schema,
) -> Result<Option<Fault>, Memory>
    ensures { IfOk result (λ fault. fault ≡ first_field_fault (schema_view schema.now) (document_view document.now)) }
{
    let types = variable_types(alloc, schema, document)?;
    let parts = document_parts(alloc, schema, document, &types)?;
    let fault = fault_by(alloc, schema, document, &parts)?;
    Ok(fault)
}
