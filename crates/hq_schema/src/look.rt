ghost use Rattle.std.specs.Prelude.{◌≡◌, map, position, option_map, option_and_then, slice_get, bytes_eq};
ghost use Rattle.hq_schema.specs.Schema.{arg_view, field_view, type_view, schema_view};
ghost use Rattle.hq_schema.specs.Look.{type_named, type_at, arg_in, field_in, field_of, input_field_of, enum_value_of, enum_column_of};

use crate::{ArgDef, ArgDefList, FieldDef, FieldDefList, Schema, TypeDef, TypeId};
use hq_base::Txt;
use hq_model::ColId;

/// The argument or input field of this name.
pub fn arg_named<'a>(args: &'a ArgDefList, name: &Txt) -> Option<&'a ArgDef>
    ensures { option_map (λ a. arg_view a.now) result ≡ arg_in (map arg_view args.now) name.now }
{
    args.find(name)
}

/// The field of this name.
pub fn field_named<'a>(fields: &'a FieldDefList, name: &Txt) -> Option<&'a FieldDef>
    ensures { option_map (λ f. field_view f.now) result ≡ field_in (map field_view fields.now) name.now }
{
    fields.find(name)
}

impl Schema {
    /// The type of this name.
    pub fn type_named(&self, name: &Txt) -> Option<TypeId>
        ensures { result ≡ type_named (schema_view self.now) name.now }
    {
        match self.types.place(name) {
            Some(at) => Some(TypeId::new(at)),
            None => None,
        }
    }

    /// The type at a place, None beyond the last.
    pub fn type_at(&self, t: TypeId) -> Option<&TypeDef>
        ensures { option_map (λ d. type_view d.now) result ≡ type_at (schema_view self.now) t }
    {
        self.types.get(t.at())
    }

    /// The field of this name of a type, None where the type has none of that name. An object type alone has fields.
    pub fn field(&self, t: TypeId, name: &Txt) -> Option<&FieldDef>
        ensures { option_map (λ f. field_view f.now) result ≡ field_of (schema_view self.now) t name.now }
    {
        match self.type_at(t) {
            Some(def) => field_named(&def.fields, name),
            None => None,
        }
    }

    /// The argument of this name of a field.
    pub fn arg<'a>(&self, field: &'a FieldDef, name: &Txt) -> Option<&'a ArgDef>
        ensures { option_map (λ a. arg_view a.now) result ≡ arg_in (field_view field.now).args name.now }
    {
        arg_named(&field.args, name)
    }

    /// The input field of this name of a type, None where the type has none of that name. An input object alone has input
    /// fields.
    pub fn input_field(&self, t: TypeId, name: &Txt) -> Option<&ArgDef>
        ensures { option_map (λ a. arg_view a.now) result ≡ input_field_of (schema_view self.now) t name.now }
    {
        match self.type_at(t) {
            Some(def) => arg_named(&def.inputs, name),
            None => None,
        }
    }

    /// The place of the value of this name among those of a type, None where the type has none of that name. An enum alone
    /// has values.
    pub fn enum_value(&self, t: TypeId, name: &Txt) -> Option<usize>
        ensures { result ≡ enum_value_of (schema_view self.now) t name.now }
    {
        match self.type_at(t) {
            Some(def) => def.values.place(name),
            None => None,
        }
    }

    /// The column for which the value of this name of a type stands.
    pub fn enum_column(&self, t: TypeId, name: &Txt) -> Option<ColId>
        ensures { result ≡ enum_column_of (schema_view self.now) t name.now }
    {
        match self.type_at(t) {
            Some(def) => column_of(def, name),
            None => None,
        }
    }
}

// The column for which the value of this name stands.
fn column_of(def: &TypeDef, name: &Txt) -> Option<ColId>
    ensures { result ≡ option_and_then (slice_get def.now.columns) (position (λ v. bytes_eq v name.now) def.now.values) }
{
    match def.values.place(name) {
        Some(at) => def.columns.get(at).copied(),
        None => None,
    }
}
