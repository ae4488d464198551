//! Faults of operations: 5.2, F30, F35 and F32.

use crate::lists::put_comma;
use crate::subject::Subject;
use hq_base::Json;
use hq_explain_places::Words;
use hq_gql_tree::{Definition, Document, OpKind};

// Adds the names of the document's operations.
fn put_operations(words: &mut Words, document: &Document) {
    let mut first = true;
    for definition in &document.definitions {
        if let Definition::Operation(operation) = definition {
            put_comma(words, first);
            first = false;
            match &operation.name {
                Some(name) => words.put_bytes(name.as_bytes()),
                None => words.put("one without a name"),
            }
        }
    }
    if first {
        words.put("none");
    }
}

/// 5.2.1.1: an operation with the name of an earlier one.
pub fn repeated_name(words: &mut Words, subject: &Subject<'_>) {
    words.put("another operation is named ");
    if let Some(operation) = subject.operation()
        && let Some(name) = &operation.name
    {
        words.put_name(name);
    }
    words.put(" already");
}

/// 5.2.2.1: an operation without a name beside others.
pub fn not_alone(words: &mut Words, subject: &Subject<'_>) {
    words.put("this operation has no name, and is not the only one; the document has: ");
    put_operations(words, subject.document);
}

/// F30: no operation is named.
pub fn no_operation(words: &mut Words, document: &Document, body: &Json) {
    match body.member("operationName") {
        Some(Json::Str(name)) => {
            words.put("no operation ");
            words.put_name(name);
        }
        _ => words.put("\"operationName\" is to say which operation"),
    }
    words.put("; the document has: ");
    put_operations(words, document);
}

/// F35: an operation that is no query.
pub fn no_query(words: &mut Words, subject: &Subject<'_>) {
    let kind = match subject.operation() {
        Some(operation) => operation.kind,
        None => OpKind::Mutation,
    };
    words.put(match kind {
        OpKind::Subscription => "a subscription is not answered; ask a query",
        OpKind::Query | OpKind::Mutation => "a mutation is not answered; ask a query",
    });
}
