ghost use Rattle.std.specs.Prelude.{◌≡◌, IfOk};
ghost use Rattle.hq_schema.specs.Schema.{arg_view, field_view, schema_view};
ghost use Rattle.hq_request_introspect.specs.Members.{field_value, default_value, input_value, enum_value, directive_value};
ghost use Rattle.hq_request_introspect.specs.Views.{resolved_view};

use crate::directive::Directive;
use crate::field_name::FieldName;
use crate::node::Resolved;
use crate::texts::{locations, name, text};
use crate::types::{input_nodes, referred};
use hq_base::{Json, Memory, Txt};
use hq_schema::{ArgDef, FieldDef, Fixed, Schema};
use std::alloc::Global;

/// A field of `__Field`.
pub fn field_value<'a>(
    alloc: Global,
    schema: &'a Schema,
    def: &'a FieldDef,
    field: FieldName,
) -> Result<Resolved<'a>, Memory>
    ensures { IfOk result (λ r. resolved_view r ≡ field_value (schema_view schema.now) (field_view def.now) field) }
{
    match field {
        FieldName::Typename => text(alloc, Fixed::Field.name()),
        FieldName::Name => name(alloc, &def.name),
        FieldName::Args => input_nodes(alloc, def.args.as_slice()),
        FieldName::Type => Ok(referred(schema, &def.ty)),
        FieldName::IsDeprecated => Ok(Resolved::Leaf(Json::Bool(false))),
        _ => Ok(Resolved::Leaf(Json::Null)),
    }
}

fn default_value<'a>(alloc: Global, default_false: bool) -> Result<Resolved<'a>, Memory>
    ensures { IfOk result (λ r. resolved_view r ≡ default_value default_false) }
{
    if default_false {
        text(alloc, "false")
    } else {
        Ok(Resolved::Leaf(Json::Null))
    }
}

/// A field of `__InputValue`.
pub fn input_value<'a>(
    alloc: Global,
    schema: &'a Schema,
    def: &'a ArgDef,
    field: FieldName,
) -> Result<Resolved<'a>, Memory>
    ensures { IfOk result (λ r. resolved_view r ≡ input_value (schema_view schema.now) (arg_view def.now) field) }
{
    match field {
        FieldName::Typename => text(alloc, Fixed::InputValue.name()),
        FieldName::Name => name(alloc, &def.name),
        FieldName::Type => Ok(referred(schema, &def.ty)),
        FieldName::DefaultValue => default_value(alloc, def.default_false),
        _ => Ok(Resolved::Leaf(Json::Null)),
    }
}

/// A field of `__EnumValue`.
pub fn enum_value<'a>(alloc: Global, value: &Txt, field: FieldName) -> Result<Resolved<'a>, Memory>
    ensures { IfOk result (λ r. resolved_view r ≡ enum_value value.now field) }
{
    match field {
        FieldName::Typename => text(alloc, Fixed::EnumValue.name()),
        FieldName::Name => name(alloc, value),
        FieldName::IsDeprecated => Ok(Resolved::Leaf(Json::Bool(false))),
        _ => Ok(Resolved::Leaf(Json::Null)),
    }
}

/// A field of `__Directive`.
pub fn directive_value<'a>(
    alloc: Global,
    schema: &'a Schema,
    directive: Directive,
    field: FieldName,
) -> Result<Resolved<'a>, Memory>
    ensures { IfOk result (λ r. resolved_view r ≡ directive_value (schema_view schema.now) directive field) }
{
    match field {
        FieldName::Typename => text(alloc, Fixed::Directive.name()),
        FieldName::Name => text(alloc, directive.text()),
        FieldName::IsRepeatable => Ok(Resolved::Leaf(Json::Bool(false))),
        FieldName::Locations => locations(alloc),
        FieldName::Args => input_nodes(alloc, schema.conditions.as_slice()),
        _ => Ok(Resolved::Leaf(Json::Null)),
    }
}
