//! Which literal stands for a value of which type.
ghost use Rattle.std.specs.Prelude.{◌≡◌, is_some, map, option_map};
ghost use Rattle.hq_schema.specs.Schema.{schema_view, type_ref_view};
ghost use Rattle.hq_gql_tree.specs.Values.{members_of, argument_view, value_view};
ghost use Rattle.hq_model.specs.Reading.{whole_number};
ghost use Rattle.hq_rules_fields.specs.Literals.{scalar_takes, enum_takes, leaf_by, leaf_takes, takes};
ghost use Rattle.hq_rules_fields.specs.NodeRules.{object_members};

use hq_base::{Ty, spells_uuid};
use hq_gql_nodes::{element_type, input_at, is_non_null};
use hq_gql_tree::{Argument, Value};
use hq_model::whole_number;
use hq_schema::{Schema, TypeId, TypeOrigin, TypeRef};

fn spells(ty: Ty, text: &str) -> bool
    ensures { result ≡ is_some (whole_number ty text.now) }
{
    whole_number(ty, text).is_some()
}

// Whether a scalar takes a value.
fn scalar_takes(ty: Ty, value: &Value) -> bool
    ensures { result ≡ scalar_takes ty (value_view value.now) }
{
    match (ty, value) {
        (_, Value::Int(text)) => spells(ty, text.as_str()),
        (Ty::Bigint, Value::Str(text)) => spells(Ty::Bigint, text.as_str()),
        (Ty::Uuid, Value::Str(text)) => spells_uuid(text.as_str()),
        (Ty::Text, Value::Str(_)) | (Ty::Boolean, Value::Bool(_)) => true,
        _ => false,
    }
}

// Whether an enum takes a value.
fn enum_takes(schema: &Schema, t: TypeId, value: &Value) -> bool
    ensures { result ≡ enum_takes (schema_view schema.now) t (value_view value.now) }
{
    match value {
        Value::Enum(name) => schema.enum_value(t, name).is_some(),
        _ => false,
    }
}

// Whether a type of an origin takes a value that is no null, no list and no object.
fn leaf_by(schema: &Schema, t: TypeId, origin: TypeOrigin, value: &Value) -> bool
    ensures { result ≡ leaf_by (schema_view schema.now) t origin (value_view value.now) }
{
    match origin {
        TypeOrigin::Scalar(ty) => scalar_takes(ty, value),
        _ => enum_takes(schema, t, value),
    }
}

fn leaf_takes(schema: &Schema, t: TypeId, value: &Value) -> bool
    ensures { result ≡ leaf_takes (schema_view schema.now) t (value_view value.now) }
{
    match schema.type_at(t) {
        Some(def) => leaf_by(schema, t, def.origin, value),
        None => false,
    }
}

/// Whether a place of a type takes a value.
pub fn takes(schema: &Schema, ty: &TypeRef, value: &Value) -> bool
    ensures { result ≡ takes (schema_view schema.now) (type_ref_view ty.now) (value_view value.now) }
{
    match value {
        Value::Variable(_) => true,
        Value::Null => !is_non_null(ty),
        Value::List(_) => element_type(ty).is_some(),
        Value::Object(_) => input_at(schema, ty.base()).is_some(),
        Value::Float(_) => false,
        Value::Int(_) | Value::Str(_) | Value::Bool(_) | Value::Enum(_) => {
            leaf_takes(schema, ty.base(), value)
        }
    }
}

/// The members of an object.
pub fn object_members(value: &Value) -> Option<&[Argument]>
    ensures { option_map (λ ms. members_of (map argument_view ms.now)) result ≡ object_members (value_view value.now) }
{
    match value {
        Value::Object(members) => Some(members.as_slice()),
        _ => None,
    }
}
