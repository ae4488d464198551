ghost use Rattle.std.specs.Prelude.{◌≡◌, ◌++◌, IfOk, OnOk, option_map};
ghost use Rattle.hq_base.specs.Compact.{compact};
ghost use Rattle.hq_request_tree.specs.Introspection.{introspection_view};
ghost use Rattle.hq_schema.specs.Schema.{schema_view, type_view};
ghost use Rattle.hq_request_introspect.specs.Answers.{whole_schema, type_by_name, answered};
ghost use Rattle.hq_request_introspect.specs.Nodes.{schema_node};
ghost use Rattle.hq_request_introspect.specs.Selections.{resolved, value, object_of};
ghost use Rattle.hq_request_introspect.specs.Views.{resolved_view, types_view, fields_view};

use crate::by_name::types_by_name;
use crate::field_name::FieldName;
use crate::node::Resolved;
use crate::select::put_completed;
use crate::types::{schema_value, type_or_null};
use hq_base::{Bytes, Json, Memory, Txt, put_comma, put_quoted};
use hq_request_tree::{IntroField, IntroFields};
use hq_schema::{Schema, TypeDef};
use std::alloc::Global;

// What a field of the schema gives, by the field's name.
#[tactic(auto, unfolding(crate::specs::Selections::resolved))]
fn resolved_in_schema<'a>(
    alloc: Global,
    schema: &'a Schema,
    types: &[&'a TypeDef],
    name: &Txt,
) -> Result<Resolved<'a>, Memory>
    ensures { IfOk result (λ r. resolved_view r ≡ resolved (schema_view schema.now) (schema_node (types_view types.now)) name.now) }
{
    match FieldName::of(name) {
        Some(field) => schema_value(alloc, schema, types, field),
        None => Ok(Resolved::Leaf(Json::Null)),
    }
}

// Appends the text of the value of a field of the schema.
fn put_value_in_schema<'a>(
    alloc: Global,
    out: &mut Bytes,
    schema: &'a Schema,
    types: &[&'a TypeDef],
    field: &IntroField,
) -> Result<(), Memory>
    ensures { OnOk result (out.new ≡ out.old ++ compact (value (introspection_view field.now) (schema_view schema.now) (schema_node (types_view types.now)))) }
{
    let resolved = resolved_in_schema(alloc, schema, types, &field.name)?;
    put_completed(alloc, out, schema, resolved, &field.fields)
}

// Appends the text of the schema as an object, where its types stand in this order.
fn put_schema_object<'a>(
    alloc: Global,
    out: &mut Bytes,
    schema: &'a Schema,
    types: &[&'a TypeDef],
    fields: &IntroFields,
) -> Result<(), Memory>
    ensures { OnOk result (out.new ≡ out.old ++ compact (object_of (fields_view fields.now.items) (schema_view schema.now) (schema_node (types_view types.now)))) }
{
    out.push(b'{')?;
    for (at, keyed) in fields.iter().enumerate() {
        put_comma(out, at)?;
        put_quoted(out, &keyed.key)?;
        out.push(b':')?;
        put_value_in_schema(alloc, out, schema, types, &keyed.field)?;
    }
    out.push(b'}')
}

// Appends the text of the schema.
fn put_whole_schema(
    alloc: Global,
    out: &mut Bytes,
    schema: &Schema,
    fields: &IntroFields,
) -> Result<(), Memory>
    ensures { OnOk result (out.new ≡ out.old ++ compact (object_of (fields_view fields.now.items) (schema_view schema.now) (whole_schema (schema_view schema.now)))) }
{
    let types = types_by_name(alloc, schema)?;
    put_schema_object(alloc, out, schema, &types, fields)
}

// The type of this name, where one is given.
fn type_by_name<'a>(schema: &'a Schema, name: &Option<Txt>) -> Option<&'a TypeDef>
    ensures { option_map (λ t. type_view t.now) result ≡ type_by_name (schema_view schema.now) name.now }
{
    match name {
        Some(name) => match schema.type_named(name) {
            Some(place) => schema.type_at(place),
            None => None,
        },
        None => None,
    }
}

/// Appends the text of the value of a root field of introspection over a role's schema: `__schema`, or `__type` with the name of a
/// type, null where there is none of that name. Types stand in ascending byte order of their names, all else in the schema's order.
/// Any other field gives null. The text is written as it is made; where memory runs out, a part of it may stand behind `out`.
#[tactic(auto, unfolding(crate::specs::Answers::answered))]
pub fn put_answer(
    alloc: Global,
    out: &mut Bytes,
    schema: &Schema,
    field: &IntroField,
) -> Result<(), Memory>
    ensures { OnOk result (out.new ≡ out.old ++ compact (answered (schema_view schema.now) (introspection_view field.now))) }
{
    match FieldName::of(&field.name) {
        Some(FieldName::WholeSchema) => put_whole_schema(alloc, out, schema, &field.fields),
        Some(FieldName::TypeByName) => {
            let found = type_or_null(type_by_name(schema, &field.type_name));
            put_completed(alloc, out, schema, found, &field.fields)
        }
        _ => out.append(b"null"),
    }
}
