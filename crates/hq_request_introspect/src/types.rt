ghost use Rattle.std.specs.Prelude.{◌≡◌, IfOk, map, option_map};
ghost use Rattle.hq_schema.specs.Look.{type_at};
ghost use Rattle.hq_schema.specs.Schema.{arg_view, field_view, type_view, type_ref_view, schema_view};
ghost use Rattle.hq_request_introspect.specs.Nodes.{many, field_node, input_node, value_node, directive_node, type_node, type_or_null};
ghost use Rattle.hq_request_introspect.specs.Types.{referred, schema_value, object_fields, object_interfaces, enum_values, input_fields, type_value, wrapper_value};
ghost use Rattle.hq_request_introspect.specs.Views.{resolved_view, types_view};

use crate::directive::Directive;
use crate::field_name::FieldName;
use crate::node::{Node, Resolved};
use crate::texts::{name, text};
use crate::type_kind::TypeKind;
use hq_base::{Json, Memory, Txt};
use hq_schema::{ArgDef, FieldDef, Fixed, Kind, Schema, TypeDef, TypeId, TypeRef};
use std::alloc::Global;

/// The `__Type` of a type, null where there is none.
pub fn type_or_null<'a>(def: Option<&'a TypeDef>) -> Resolved<'a>
    ensures { resolved_view result ≡ type_or_null (option_map (λ t. type_view t.now) def.entry) }
{
    match def {
        Some(def) => Resolved::One(Node::Type(def)),
        None => Resolved::Leaf(Json::Null),
    }
}

/// The `__Type` of the type at a place, null where there is none.
pub fn type_at<'a>(schema: &'a Schema, place: TypeId) -> Resolved<'a>
    ensures { resolved_view result ≡ type_or_null (type_at (schema_view schema.now) place) }
{
    type_or_null(schema.type_at(place))
}

/// The `__Type` for a reference.
pub fn referred<'a>(schema: &'a Schema, ty: &'a TypeRef) -> Resolved<'a>
    ensures { resolved_view result ≡ referred (schema_view schema.now) (type_ref_view ty.now) }
{
    match ty {
        TypeRef::Named(place) => type_at(schema, *place),
        TypeRef::List(item) => Resolved::One(Node::ListOf(item)),
        TypeRef::NonNull(nullable) => Resolved::One(Node::NonNull(nullable)),
    }
}

fn type_nodes<'a>(alloc: Global, types: &[&'a TypeDef]) -> Result<Resolved<'a>, Memory>
    ensures { IfOk result (λ r. resolved_view r ≡ many (map type_node (types_view types.now))) }
{
    let mut nodes = Vec::with_capacity(alloc, types.len())?;
    for def in types {
        nodes.push(Node::Type(*def))?;
    }
    Ok(Resolved::Many(nodes))
}

fn directive_nodes<'a>(alloc: Global, directives: &[Directive]) -> Result<Resolved<'a>, Memory>
    ensures { IfOk result (λ r. resolved_view r ≡ many (map directive_node directives.now)) }
{
    let mut nodes = Vec::with_capacity(alloc, directives.len())?;
    for directive in directives {
        nodes.push(Node::Directive(*directive))?;
    }
    Ok(Resolved::Many(nodes))
}

fn field_nodes<'a>(alloc: Global, fields: &'a [FieldDef]) -> Result<Resolved<'a>, Memory>
    ensures { IfOk result (λ r. resolved_view r ≡ many (map field_node (map field_view fields.now))) }
{
    let mut nodes = Vec::with_capacity(alloc, fields.len())?;
    for field in fields {
        nodes.push(Node::Field(field))?;
    }
    Ok(Resolved::Many(nodes))
}

/// Arguments or input fields, each an `__InputValue`.
pub fn input_nodes<'a>(alloc: Global, inputs: &'a [ArgDef]) -> Result<Resolved<'a>, Memory>
    ensures { IfOk result (λ r. resolved_view r ≡ many (map input_node (map arg_view inputs.now))) }
{
    let mut nodes = Vec::with_capacity(alloc, inputs.len())?;
    for input in inputs {
        nodes.push(Node::Input(input))?;
    }
    Ok(Resolved::Many(nodes))
}

fn value_nodes<'a>(alloc: Global, values: &'a [Txt]) -> Result<Resolved<'a>, Memory>
    ensures { IfOk result (λ r. resolved_view r ≡ many (map value_node values.now)) }
{
    let mut nodes = Vec::with_capacity(alloc, values.len())?;
    for value in values {
        nodes.push(Node::Value(value))?;
    }
    Ok(Resolved::Many(nodes))
}

fn object_fields<'a>(alloc: Global, def: &'a TypeDef) -> Result<Resolved<'a>, Memory>
    ensures { IfOk result (λ r. resolved_view r ≡ object_fields def.now.kind (type_view def.now).fields) }
{
    match def.kind {
        Kind::Object => field_nodes(alloc, def.fields.as_slice()),
        _ => Ok(Resolved::Leaf(Json::Null)),
    }
}

fn object_interfaces<'a>(alloc: Global, kind: Kind) -> Resolved<'a>
    ensures { resolved_view result ≡ object_interfaces kind }
{
    match kind {
        Kind::Object => Resolved::Many(Vec::new(alloc)),
        _ => Resolved::Leaf(Json::Null),
    }
}

fn enum_values<'a>(alloc: Global, def: &'a TypeDef) -> Result<Resolved<'a>, Memory>
    ensures { IfOk result (λ r. resolved_view r ≡ enum_values def.now.kind (type_view def.now).values) }
{
    match def.kind {
        Kind::Enum => value_nodes(alloc, def.values.as_slice()),
        _ => Ok(Resolved::Leaf(Json::Null)),
    }
}

fn input_fields<'a>(alloc: Global, def: &'a TypeDef) -> Result<Resolved<'a>, Memory>
    ensures { IfOk result (λ r. resolved_view r ≡ input_fields def.now.kind (type_view def.now).inputs) }
{
    match def.kind {
        Kind::Input => input_nodes(alloc, def.inputs.as_slice()),
        _ => Ok(Resolved::Leaf(Json::Null)),
    }
}

/// A field of `__Schema`, whose types stand in this order.
pub fn schema_value<'a>(
    alloc: Global,
    schema: &'a Schema,
    types: &[&'a TypeDef],
    field: FieldName,
) -> Result<Resolved<'a>, Memory>
    ensures { IfOk result (λ r. resolved_view r ≡ schema_value (schema_view schema.now) (types_view types.now) field) }
{
    match field {
        FieldName::Typename => text(alloc, Fixed::Schema.name()),
        FieldName::Types => type_nodes(alloc, types),
        FieldName::QueryType => Ok(type_at(schema, schema.query)),
        FieldName::Directives => directive_nodes(alloc, &Directive::all()),
        _ => Ok(Resolved::Leaf(Json::Null)),
    }
}

/// A field of the `__Type` that is one of the schema's types.
pub fn type_value<'a>(
    alloc: Global,
    def: &'a TypeDef,
    field: FieldName,
) -> Result<Resolved<'a>, Memory>
    ensures { IfOk result (λ r. resolved_view r ≡ type_value (type_view def.now) field) }
{
    match field {
        FieldName::Typename => text(alloc, Fixed::Type.name()),
        FieldName::Kind => text(alloc, TypeKind::of(def.kind).text()),
        FieldName::Name => name(alloc, &def.name),
        FieldName::Fields => object_fields(alloc, def),
        FieldName::Interfaces => Ok(object_interfaces(alloc, def.kind)),
        FieldName::EnumValues => enum_values(alloc, def),
        FieldName::InputFields => input_fields(alloc, def),
        _ => Ok(Resolved::Leaf(Json::Null)),
    }
}

/// A field of the `__Type` that is a list of another, or another without null, as this kind says.
pub fn wrapper_value<'a>(
    alloc: Global,
    schema: &'a Schema,
    kind: TypeKind,
    inner: &'a TypeRef,
    field: FieldName,
) -> Result<Resolved<'a>, Memory>
    ensures { IfOk result (λ r. resolved_view r ≡ wrapper_value (schema_view schema.now) kind (type_ref_view inner.now) field) }
{
    match field {
        FieldName::Typename => text(alloc, Fixed::Type.name()),
        FieldName::Kind => text(alloc, kind.text()),
        FieldName::OfType => Ok(referred(schema, inner)),
        _ => Ok(Resolved::Leaf(Json::Null)),
    }
}
