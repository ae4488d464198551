//! Look-ups in what is known: the parent types of fields, and the types of places.
ghost use Rattle.std.specs.Prelude.{◌≡◌, map, option_map};
ghost use Rattle.hq_schema.specs.Schema.{arg_view, field_view, type_ref_view, schema_view};
ghost use Rattle.hq_gql_tree.specs.Values.{value_view};
ghost use Rattle.hq_gql_nodes.specs.Known.{is_non_null, is_null, element_type, is_object, is_input, object_at, input_at, meta_field, known_field, args_of_field, below_field, is_condition, args_of_directive, object_named, root_of, is_input_type};

use hq_base::Txt;
use hq_gql_tree::{OpKind, Value};
use hq_schema::{ArgDefList, FieldDef, Kind, Schema, TypeId, TypeRef, field_named};

/// The type of the elements of a list.
pub fn element_type(ty: &TypeRef) -> Option<&TypeRef>
    ensures { option_map (λ r. type_ref_view r.now) result ≡ element_type (type_ref_view ty.now) }
{
    match ty {
        TypeRef::Named(_) => None,
        TypeRef::List(inner) => Some(inner),
        TypeRef::NonNull(inner) => element_type(inner),
    }
}

/// Whether a type is without null.
pub fn is_non_null(ty: &TypeRef) -> bool
    ensures { result ≡ is_non_null (type_ref_view ty.now) }
{
    match ty {
        TypeRef::Named(_) | TypeRef::List(_) => false,
        TypeRef::NonNull(_) => true,
    }
}

/// Whether a value is the literal null.
pub fn is_null(value: &Value) -> bool
    ensures { result ≡ is_null (value_view value.now) }
{
    matches!(value, Value::Null)
}

fn is_object(kind: Kind) -> bool
    ensures { result ≡ is_object kind }
{
    match kind {
        Kind::Object => true,
        Kind::Scalar | Kind::Enum | Kind::Input => false,
    }
}

fn is_input(kind: Kind) -> bool
    ensures { result ≡ is_input kind }
{
    match kind {
        Kind::Input => true,
        Kind::Scalar | Kind::Enum | Kind::Object => false,
    }
}

/// This type, where it is an object.
pub fn object_at(schema: &Schema, t: TypeId) -> Option<usize>
    ensures { result ≡ object_at (schema_view schema.now) t }
{
    match schema.type_at(t) {
        Some(def) if is_object(def.kind) => Some(t.at()),
        _ => None,
    }
}

/// This type, where it is an input object.
pub fn input_at(schema: &Schema, t: TypeId) -> Option<usize>
    ensures { result ≡ input_at (schema_view schema.now) t }
{
    match schema.type_at(t) {
        Some(def) if is_input(def.kind) => Some(t.at()),
        _ => None,
    }
}

// A field that stands in no type's list.
fn meta_field<'a>(schema: &'a Schema, t: usize, name: &Txt) -> Option<&'a FieldDef>
    ensures { option_map (λ f. field_view f.now) result ≡ meta_field (schema_view schema.now) t name.now }
{
    if schema.type_name.name == *name {
        return Some(&schema.type_name);
    }
    if t == schema.query.at() {
        return field_named(&schema.introspection, name);
    }
    None
}

/// The field of this name of a parent type, `__typename`, `__schema` and `__type` among them.
pub fn known_field<'a>(
    schema: &'a Schema,
    parent: Option<usize>,
    name: &Txt,
) -> Option<&'a FieldDef>
    ensures { option_map (λ f. field_view f.now) result ≡ known_field (schema_view schema.now) parent name.now }
{
    let Some(t) = parent else {
        return None;
    };
    match schema.field(TypeId::new(t), name) {
        Some(field) => Some(field),
        None => meta_field(schema, t, name),
    }
}

/// The arguments of a field of a parent type.
pub fn args_of_field<'a>(
    schema: &'a Schema,
    parent: Option<usize>,
    name: &Txt,
) -> Option<&'a ArgDefList>
    ensures { option_map (λ defs. map arg_view defs.now) result ≡ args_of_field (schema_view schema.now) parent name.now }
{
    match known_field(schema, parent, name) {
        Some(field) => Some(&field.args),
        None => None,
    }
}

/// The object type below a field.
pub fn below_field(schema: &Schema, parent: Option<usize>, name: &Txt) -> Option<usize>
    ensures { result ≡ below_field (schema_view schema.now) parent name.now }
{
    match known_field(schema, parent, name) {
        Some(field) => object_at(schema, field.ty.base()),
        None => None,
    }
}

/// Whether a directive is `skip` or `include`.
pub fn is_condition(name: &Txt) -> bool
    ensures { result ≡ is_condition name.now }
{
    name.as_str() == "skip" || name.as_str() == "include"
}

/// The arguments of a directive.
pub fn args_of_directive<'a>(schema: &'a Schema, name: &Txt) -> Option<&'a ArgDefList>
    ensures { option_map (λ defs. map arg_view defs.now) result ≡ args_of_directive (schema_view schema.now) name.now }
{
    if is_condition(name) {
        return Some(&schema.conditions);
    }
    None
}

/// The object type of this name.
pub fn object_named(schema: &Schema, name: &Txt) -> Option<usize>
    ensures { result ≡ object_named (schema_view schema.now) name.now }
{
    match schema.type_named(name) {
        Some(t) => object_at(schema, t),
        None => None,
    }
}

/// The parent type of the selections of an operation.
pub fn root_of(schema: &Schema, kind: OpKind) -> Option<usize>
    ensures { result ≡ root_of (schema_view schema.now) kind }
{
    match kind {
        OpKind::Query => object_at(schema, schema.query),
        OpKind::Mutation | OpKind::Subscription => None,
    }
}

/// Whether values may be given for a type.
pub fn is_input_type(schema: &Schema, ty: &TypeRef) -> bool
    ensures { result ≡ is_input_type (schema_view schema.now) (type_ref_view ty.now) }
{
    match schema.type_at(ty.base()) {
        Some(def) => !is_object(def.kind),
        None => false,
    }
}
