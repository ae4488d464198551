//! Types as GraphQL writes them.

use hq_explain_places::Words;
use hq_gql_tree::TypeRefTree;
use hq_schema::{Schema, TypeId, TypeRef};

/// Adds the name of a type.
pub fn put_type_name(words: &mut Words, schema: &Schema, ty: TypeId) {
    if let Some(def) = schema.type_at(ty) {
        words.put_bytes(def.name.as_bytes());
    }
}

/// Adds a type of the schema.
pub fn put_type(words: &mut Words, schema: &Schema, ty: &TypeRef) {
    match ty {
        TypeRef::Named(id) => put_type_name(words, schema, *id),
        TypeRef::List(inner) => {
            words.put("[");
            put_type(words, schema, inner);
            words.put("]");
        }
        TypeRef::NonNull(inner) => {
            put_type(words, schema, inner);
            words.put("!");
        }
    }
}

/// Adds a type as a document writes it.
pub fn put_written_type(words: &mut Words, ty: &TypeRefTree) {
    match ty {
        TypeRefTree::Named { name, .. } => words.put_bytes(name.as_bytes()),
        TypeRefTree::List { of, .. } => {
            words.put("[");
            put_written_type(words, of);
            words.put("]");
        }
        TypeRefTree::NonNull { of, .. } => {
            put_written_type(words, of);
            words.put("!");
        }
    }
}
