//! Faults of fields: 5.3.

use crate::lists::put_known;
use crate::subject::{Sort, Subject};
use crate::types::{put_type, put_type_name};
use hq_base::Txt;
use hq_explain_places::{Words, place_of};
use hq_gql_nodes::{Node, known_field};
use hq_gql_tree::Field;
use hq_schema::TypeId;

// The key under which a field is answered.
fn response_key(field: &Field) -> &Txt {
    match &field.alias {
        Some(alias) => alias,
        None => &field.name,
    }
}

/// 5.3.1: no such field.
pub fn unknown_field(words: &mut Words, subject: &Subject<'_>) {
    let Some(Node::Field(field, parent)) = subject.node(Sort::Field) else {
        return;
    };
    words.put("no field ");
    words.put_name(&field.name);
    let Some(def) = subject.schema.types.get(parent.unwrap_or(0)) else {
        return;
    };
    words.put(" on ");
    words.put_name(&def.name);
    put_known(words, "; it has: ", def.fields.as_slice());
}

// The first field before a place that has this response key.
fn earlier_field<'a>(subject: &Subject<'a>, key: &Txt) -> Option<&'a Field> {
    for part in subject.parts {
        for node in &part.nodes {
            if let Node::Field(field, _) = node
                && response_key(field) == key
                && field.at < subject.at
            {
                return Some(*field);
            }
        }
    }
    None
}

/// 5.3.2: two fields that cannot be merged.
pub fn overlapping(words: &mut Words, subject: &Subject<'_>) {
    let Some(Node::Field(field, _)) = subject.node(Sort::Field) else {
        return;
    };
    let key = response_key(field);
    words.put("response key ");
    words.put_name(key);
    words.put(" stands for another field or other arguments already");
    if let Some(earlier) = earlier_field(subject, key) {
        words.put(", at ");
        words.put_place(place_of(subject.text, earlier.at as usize));
    }
    words.put("; give one of them an alias");
}

/// 5.3.3: a leaf with fields, or an object without.
pub fn wrong_leaf(words: &mut Words, subject: &Subject<'_>) {
    let Some(Node::Field(field, parent)) = subject.node(Sort::Field) else {
        return;
    };
    let Some(known) = known_field(subject.schema, parent, &field.name) else {
        return;
    };
    words.put("field ");
    words.put_name(&field.name);
    words.put(" is of type ");
    put_type(words, subject.schema, &known.ty);
    if !field.selections.is_empty() {
        words.put(", which has no fields");
        return;
    }
    words.put(", so it wants fields in { }");
    put_fields_of(words, subject, known.ty.base());
}

// Adds the fields of a type.
fn put_fields_of(words: &mut Words, subject: &Subject<'_>, ty: TypeId) {
    if let Some(def) = subject.schema.type_at(ty) {
        words.put("; ");
        put_type_name(words, subject.schema, ty);
        put_known(words, " has: ", def.fields.as_slice());
    }
}
