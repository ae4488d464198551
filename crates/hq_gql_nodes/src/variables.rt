//! The types of variables.
ghost use Rattle.std.specs.Prelude.{◌≡◌, [], IfOk, None, map, option_map, slice_index_or};
ghost use Rattle.hq_schema.specs.Schema.{schema_view, type_ref_view};
ghost use Rattle.hq_gql_tree.specs.Documents.{var_def_view, definition_view};
ghost use Rattle.hq_gql_tree.specs.Types.{type_view};
ghost use Rattle.hq_gql_tree.specs.View.{document_view};
ghost use Rattle.hq_gql_nodes.specs.Known.{resolved};
ghost use Rattle.hq_gql_nodes.specs.Nodes.{variable_types};

use hq_base::Memory;
use hq_gql_tree::{Definition, Document, TypeRefTree, VarDef};
use hq_schema::{Schema, TypeRef};
use std::alloc::Global;

/// The types of the variables of each definition of a document, None where a type is not known.
pub type VariableTypes = Vec<Vec<Option<TypeRef>>>;

// The type that a document writes by names.
fn resolved(alloc: Global, schema: &Schema, ty: &TypeRefTree) -> Result<Option<TypeRef>, Memory>
    ensures { IfOk result (λ found. option_map type_ref_view found ≡ resolved (schema_view schema.now) (type_view ty.now)) }
{
    match ty {
        TypeRefTree::Named { name, .. } => match schema.type_named(name) {
            Some(t) => Ok(Some(TypeRef::Named(t))),
            None => Ok(None),
        },
        TypeRefTree::List { of, .. } => match resolved(alloc, schema, of)? {
            Some(of) => Ok(Some(TypeRef::List(Box::new(alloc, of)?))),
            None => Ok(None),
        },
        TypeRefTree::NonNull { of, .. } => match resolved(alloc, schema, of)? {
            Some(of) => Ok(Some(TypeRef::NonNull(Box::new(alloc, of)?))),
            None => Ok(None),
        },
    }
}

fn types_of(alloc: Global, schema: &Schema, vars: &[VarDef]) -> Result<Vec<Option<TypeRef>>, Memory>
    ensures { IfOk result (λ types. map (λ t. option_map type_ref_view t) types.items ≡ map (λ v. resolved (schema_view schema.now) v.ty) (map var_def_view vars.now)) }
{
    let mut types = Vec::new(alloc);
    for var_def in vars {
        types.push(resolved(alloc, schema, &var_def.ty)?)?;
    }
    Ok(types)
}

fn definition_types(
    alloc: Global,
    schema: &Schema,
    definition: &Definition,
) -> Result<Vec<Option<TypeRef>>, Memory>
    ensures { IfOk result (λ types. map (λ t. option_map type_ref_view t) types.items ≡ variable_types (schema_view schema.now) (definition_view definition.now)) }
{
    match definition {
        Definition::Operation(operation) => types_of(alloc, schema, &operation.vars),
        Definition::Fragment(_) => Ok(Vec::new(alloc)),
    }
}

/// The types of the variables of a document.
pub fn variable_types(
    alloc: Global,
    schema: &Schema,
    document: &Document,
) -> Result<VariableTypes, Memory>
    ensures { IfOk result (λ all. map (λ types. map (λ t. option_map type_ref_view t) types.items) all.items ≡ map (variable_types (schema_view schema.now)) (document_view document.now)) }
{
    let mut all = Vec::new(alloc);
    for definition in &document.definitions {
        all.push(definition_types(alloc, schema, definition)?)?;
    }
    Ok(all)
}

/// The type of the variable at a place, None also beyond the last.
pub fn type_at(types: &[Option<TypeRef>], at: usize) -> Option<&TypeRef>
    ensures { option_map (λ r. type_ref_view r.now) result ≡ slice_index_or (map (λ t. option_map type_ref_view t) types.now) at None }
{
    match types.get(at) {
        Some(Some(ty)) => Some(ty),
        _ => None,
    }
}

/// The types of the variables of the definition at a place, none beyond the last.
pub fn types_at(all: &[Vec<Option<TypeRef>>], at: usize) -> &[Option<TypeRef>]
    ensures { map (λ t. option_map type_ref_view t) result.now ≡ slice_index_or (map (λ types. map (λ t. option_map type_ref_view t) types.items) all.now) at [] }
{
    match all.get(at) {
        Some(types) => types.as_slice(),
        None => &[],
    }
}
