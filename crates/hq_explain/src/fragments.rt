//! Faults of fragments: 5.5.

use crate::lists::put_comma;
use crate::subject::{Sort, Subject};
use hq_base::Txt;
use hq_explain_places::Words;
use hq_gql_nodes::Node;
use hq_gql_tree::{Definition, TypeCond};
use hq_schema::{Kind, TypeDef};

// Adds the names of the document's fragments.
fn put_fragments(words: &mut Words, subject: &Subject<'_>) {
    let mut first = true;
    for definition in &subject.document.definitions {
        if let Definition::Fragment(fragment) = definition {
            put_comma(words, first);
            words.put_bytes(fragment.name.as_bytes());
            first = false;
        }
    }
    if first {
        words.put("none");
    }
}

// Whether a type is one of a role's tables, or the root.
fn is_own_object(def: &TypeDef) -> bool {
    matches!(def.kind, Kind::Object) && !def.name.as_str().starts_with("__")
}

// Adds the names of the object types that are not those of introspection.
fn put_objects(words: &mut Words, subject: &Subject<'_>) {
    let mut first = true;
    for def in subject.schema.types.as_slice() {
        if is_own_object(def) {
            put_comma(words, first);
            words.put_bytes(def.name.as_bytes());
            first = false;
        }
    }
}

/// 5.5.1.1 and 5.5.1.4: what is wrong with a fragment.
pub fn of_fragment(words: &mut Words, subject: &Subject<'_>, said: &str) {
    if let Some(fragment) = subject.fragment() {
        words.put("fragment ");
        words.put_name(&fragment.name);
        words.put(said);
    }
}

// The type condition at the place.
fn condition<'a>(subject: &Subject<'a>) -> Option<&'a TypeCond> {
    match subject.node(Sort::Condition) {
        Some(Node::Condition(condition)) => Some(condition),
        _ => None,
    }
}

/// 5.5.1.2: a type condition whose type is not there.
pub fn unknown_condition(words: &mut Words, subject: &Subject<'_>) {
    if let Some(condition) = condition(subject) {
        words.put("no type ");
        words.put_name(&condition.name);
        words.put("; object types are: ");
        put_objects(words, subject);
    }
}

/// 5.5.1.3: a type condition that is no object type.
pub fn condition_of_leaf(words: &mut Words, subject: &Subject<'_>) {
    if let Some(condition) = condition(subject) {
        words.put("type ");
        words.put_name(&condition.name);
        words.put(" is no object type; those are: ");
        put_objects(words, subject);
    }
}

/// 5.5.2.1: a fragment that is spread and not there.
pub fn unknown_fragment(words: &mut Words, subject: &Subject<'_>) {
    if let Some(Node::Spread(spread, _)) = subject.node(Sort::Spread) {
        words.put("no fragment ");
        words.put_name(&spread.name);
        words.put("; the document has: ");
        put_fragments(words, subject);
    }
}

/// 5.5.2.2: a fragment that leads back to itself.
pub fn cycle(words: &mut Words, subject: &Subject<'_>) {
    if let Some(Node::Spread(spread, _)) = subject.node(Sort::Spread) {
        words.put("fragment ");
        words.put_name(&spread.name);
        words.put(" is spread inside itself");
        return;
    }
    of_fragment(words, subject, " leads back to itself");
}

// The type of a fragment of this name.
fn type_of<'a>(subject: &Subject<'a>, name: &Txt) -> Option<&'a Txt> {
    for definition in &subject.document.definitions {
        if let Definition::Fragment(fragment) = definition
            && fragment.name == *name
        {
            return Some(&fragment.cond.name);
        }
    }
    None
}

// Adds the type of a fragment, and the one that it is spread in.
fn put_types(words: &mut Words, subject: &Subject<'_>, own: Option<&Txt>, parent: Option<usize>) {
    words.put("a fragment of type ");
    if let Some(own) = own {
        words.put_name(own);
    }
    words.put(" never fits inside ");
    if let Some(def) = subject.schema.types.get(parent.unwrap_or(0)) {
        words.put_name(&def.name);
    }
}

/// 5.5.2.3: a fragment that never fits where it is spread.
pub fn impossible(words: &mut Words, subject: &Subject<'_>) {
    match (subject.node(Sort::Spread), subject.node(Sort::Inline)) {
        (Some(Node::Spread(spread, parent)), _) => {
            put_types(words, subject, type_of(subject, &spread.name), parent);
        }
        (_, Some(Node::Inline(inline, parent))) => {
            let own = match &inline.cond {
                Some(cond) => Some(&cond.name),
                None => None,
            };
            put_types(words, subject, own, parent);
        }
        _ => {}
    }
}
