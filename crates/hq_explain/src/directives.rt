//! Faults of directives: 5.7.

use crate::subject::{Sort, Subject};
use hq_explain_places::Words;
use hq_gql_nodes::Node;

/// What is wrong with the directive at the place.
pub fn of_directive(words: &mut Words, subject: &Subject<'_>, front: &str, said: &str) {
    if let Some(Node::Directive(directive, _)) = subject.node(Sort::Directive) {
        words.put(front);
        words.put("@");
        words.put_bytes(directive.name.as_bytes());
        words.put(said);
    }
}
