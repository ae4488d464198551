ghost use Rattle.std.specs.Prelude.{◌≡◌, ◌++◌, IfOk, OnOk, map};
ghost use Rattle.hq_base.specs.Compact.{compact};
ghost use Rattle.hq_request_tree.specs.Introspection.{introspection_view};
ghost use Rattle.hq_schema.specs.Schema.{schema_view};
ghost use Rattle.hq_request_introspect.specs.Selections.{node_value, resolved, object_of, json_of, value};
ghost use Rattle.hq_request_introspect.specs.Nodes.{many};
ghost use Rattle.hq_request_introspect.specs.Views.{node_view, resolved_view, fields_view};

use crate::field_name::FieldName;
use crate::members::{directive_value, enum_value, field_value, input_value};
use crate::node::{Node, Resolved};
use crate::type_kind::TypeKind;
use crate::types::{type_value, wrapper_value};
use hq_base::{Bytes, Json, Memory, Txt, put_comma, put_quoted};
use hq_request_tree::{IntroField, IntroFields};
use hq_schema::Schema;
use std::alloc::Global;

// What a field of an object gives.
fn node_value<'a>(
    alloc: Global,
    schema: &'a Schema,
    node: Node<'a>,
    field: FieldName,
) -> Result<Resolved<'a>, Memory>
    ensures { IfOk result (λ r. resolved_view r ≡ node_value (schema_view schema.now) (node_view node.entry) field) }
{
    match node {
        Node::Type(def) => type_value(alloc, def, field),
        Node::ListOf(item) => wrapper_value(alloc, schema, TypeKind::List, item, field),
        Node::NonNull(nullable) => wrapper_value(alloc, schema, TypeKind::NonNull, nullable, field),
        Node::Field(def) => field_value(alloc, schema, def, field),
        Node::Input(def) => input_value(alloc, schema, def, field),
        Node::Value(name) => enum_value(alloc, name, field),
        Node::Directive(directive) => directive_value(alloc, schema, directive, field),
    }
}

// The same by the field's name, null where no field is named so.
#[tactic(auto, unfolding(crate::specs::Selections::resolved))]
fn resolved<'a>(
    alloc: Global,
    schema: &'a Schema,
    node: Node<'a>,
    name: &Txt,
) -> Result<Resolved<'a>, Memory>
    ensures { IfOk result (λ r. resolved_view r ≡ resolved (schema_view schema.now) (node_view node.entry) name.now) }
{
    match FieldName::of(name) {
        Some(field) => node_value(alloc, schema, node, field),
        None => Ok(Resolved::Leaf(Json::Null)),
    }
}

/// Appends the text of an object with a member for each selected field.
#[cycle(select)]
pub fn put_object(
    alloc: Global,
    out: &mut Bytes,
    schema: &Schema,
    node: Node<'_>,
    fields: &IntroFields,
) -> Result<(), Memory>
    ensures { OnOk result (out.new ≡ out.old ++ compact (object_of (fields_view fields.now.items) (schema_view schema.now) (node_view node.entry))) }
{
    out.push(b'{')?;
    for (at, keyed) in fields.iter().enumerate() {
        put_comma(out, at)?;
        put_quoted(out, &keyed.key)?;
        out.push(b':')?;
        put_value(alloc, out, schema, node, &keyed.field)?;
    }
    out.push(b'}')
}

#[cycle(select)]
fn put_value(
    alloc: Global,
    out: &mut Bytes,
    schema: &Schema,
    node: Node<'_>,
    field: &IntroField,
) -> Result<(), Memory>
    ensures { OnOk result (out.new ≡ out.old ++ compact (value (introspection_view field.now) (schema_view schema.now) (node_view node.entry))) }
{
    let resolved = resolved(alloc, schema, node, &field.name)?;
    put_completed(alloc, out, schema, resolved, &field.fields)
}

/// Appends the text of what is resolved.
#[cycle(select)]
pub fn put_completed(
    alloc: Global,
    out: &mut Bytes,
    schema: &Schema,
    resolved: Resolved<'_>,
    fields: &IntroFields,
) -> Result<(), Memory>
    ensures { OnOk result (out.new ≡ out.old ++ compact (json_of (fields_view fields.now.items) (schema_view schema.now) (resolved_view resolved.entry))) }
{
    match resolved {
        Resolved::Leaf(json) => json.write_to(alloc, out),
        Resolved::One(node) => put_object(alloc, out, schema, node, fields),
        Resolved::Many(nodes) => put_objects(alloc, out, schema, &nodes, fields),
    }
}

#[cycle(select)]
fn put_objects(
    alloc: Global,
    out: &mut Bytes,
    schema: &Schema,
    nodes: &[Node<'_>],
    fields: &IntroFields,
) -> Result<(), Memory>
    ensures { OnOk result (out.new ≡ out.old ++ compact (json_of (fields_view fields.now.items) (schema_view schema.now) (many (map node_view nodes.now)))) }
{
    out.push(b'[')?;
    for (at, node) in nodes.iter().enumerate() {
        put_comma(out, at)?;
        put_object(alloc, out, schema, *node, fields)?;
    }
    out.push(b']')
}
