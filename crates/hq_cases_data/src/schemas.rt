//! Schemas of roles, as the schema definition language writes types (GraphQL October 2021, 3), and look-ups in them.

use crate::given::{given_meta, given_role};
use hq_base::Txt;
use hq_cases_file::{Case, Stop, Words, given_catalog};
use hq_model::{Catalog, Meta, Role};
use hq_schema::{
    ArgDef, ArgDefList, FieldDef, FieldDefList, Kind, Schema, TxtList, TypeDef, TypeDefList,
    TypeId, TypeRef,
};
use hq_schema_of_role::derive;
use std::alloc::Global;

// The schema of a role, in a box: one that lies on the stack is let go field by field, at each end of a function.
fn boxed_schema(
    alloc: Global,
    catalog: &Catalog,
    meta: &Meta,
    role: &Role,
) -> Result<Box<Schema>, Stop> {
    Ok(Box::new(alloc, derive(alloc, catalog, meta, role)?)?)
}

// The schema of the role of a case.
fn schema_of(alloc: Global, case: &Case) -> Result<Box<Schema>, Stop> {
    let role = given_role(alloc, case)?;
    let catalog = given_catalog(alloc, case)?;
    let meta = given_meta(alloc, case, &catalog)?;
    boxed_schema(alloc, &catalog, &meta, &role)
}

// The name of the type at a place.
fn name_at(types: &TypeDefList, at: usize) -> &str {
    match types.get(at) {
        Some(def) => def.name.as_str(),
        None => "?",
    }
}

#[cycle(reference)]
fn push_ref(types: &TypeDefList, reference: &TypeRef, words: &mut Words) {
    match reference {
        TypeRef::Named(t) => words.push(name_at(types, t.at())),
        TypeRef::List(inner) => {
            words.push("[");
            push_ref(types, inner, words);
            words.push("]");
        }
        TypeRef::NonNull(inner) => {
            push_ref(types, inner, words);
            words.push("!");
        }
    }
}

fn push_arg(types: &TypeDefList, arg: &ArgDef, words: &mut Words) {
    words.push(" ");
    words.push(arg.name.as_str());
    words.push(":");
    push_ref(types, &arg.ty, words);
    words.push(if arg.default_false { "=false" } else { "" });
}

fn push_args(types: &TypeDefList, args: &ArgDefList, words: &mut Words) {
    for arg in args.as_slice() {
        push_arg(types, arg, words);
    }
}

fn push_in_brackets(types: &TypeDefList, args: &ArgDefList, words: &mut Words) {
    if args.len() > 0 {
        words.push("(");
        push_args(types, args, words);
        words.push(" )");
    }
}

fn push_field(types: &TypeDefList, field: &FieldDef, words: &mut Words) {
    words.push("\n  ");
    words.push(field.name.as_str());
    push_in_brackets(types, &field.args, words);
    words.push(": ");
    push_ref(types, &field.ty, words);
}

fn push_fields(types: &TypeDefList, fields: &FieldDefList, words: &mut Words) {
    for field in fields.as_slice() {
        push_field(types, field, words);
    }
}

fn push_values(values: &TxtList, words: &mut Words) {
    for value in values.as_slice() {
        words.push(" ");
        words.push(value.as_str());
    }
}

fn word(kind: Kind) -> &'static str {
    match kind {
        Kind::Scalar => "scalar ",
        Kind::Object => "type ",
        Kind::Enum => "enum ",
        Kind::Input => "input ",
    }
}

// A type on a line of its own, as are the fields of an object.
fn push_type(types: &TypeDefList, def: &TypeDef, words: &mut Words) {
    words.push(word(def.kind));
    words.push(def.name.as_str());
    push_fields(types, &def.fields, words);
    push_args(types, &def.inputs, words);
    push_values(&def.values, words);
    words.push("\n");
}

fn push_types(types: &TypeDefList, from: usize, to: usize, words: &mut Words) {
    for at in from..to {
        if let Some(def) = types.get(at) {
            push_type(types, def, words);
        }
    }
}

/// The types of a role's schema whose places are from `from` up to `to`.
pub fn tell_role_schema(alloc: Global, case: &Case, words: &mut Words) -> Result<(), Stop> {
    let from = case.place("from")?;
    let to = case.place("to")?;
    push_types(&schema_of(alloc, case)?.types, from, to, words);
    Ok(())
}

// What the members of a type of the name are.
fn push_members(schema: &Schema, t: TypeId, name: &Txt, words: &mut Words) {
    words.push("field ");
    words.push_shown(&schema.field(t, name).is_some());
    words.push(", input ");
    words.push_shown(&schema.input_field(t, name).is_some());
    words.push(", value ");
    words.push_debug(&schema.enum_value(t, name));
}

fn push_look_up(schema: &Schema, type_name: &Txt, name: &Txt, words: &mut Words) {
    match schema.type_named(type_name) {
        Some(t) => push_members(schema, t, name, words),
        None => words.push("no type"),
    }
}

/// What is found in a role's schema by the names of a type and of a member.
pub fn tell_look_ups(alloc: Global, case: &Case, words: &mut Words) -> Result<(), Stop> {
    let type_name = case.text(alloc, "in")?;
    let name = case.text(alloc, "member")?;
    let schema = schema_of(alloc, case)?;
    push_look_up(&schema, &type_name, &name, words);
    Ok(())
}
