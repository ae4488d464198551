use hq_gql_nodes::{Node, Part};
use hq_gql_tree::{Argument, Definition, Directive, Document, Field, Fragment, Operation};
use hq_schema::Schema;

/// A document with the text that it was read from, its nodes with what they stand in, and a place in the text.
#[derive(Clone, Copy)]
pub struct Subject<'a> {
    pub schema: &'a Schema,
    pub document: &'a Document,
    pub parts: &'a [Part<'a>],
    pub text: &'a [u8],
    pub at: u64,
}

/// What a node is.
#[derive(Clone, Copy, PartialEq, Eq)]
pub enum Sort {
    Variable,
    Condition,
    Field,
    Spread,
    Inline,
    Directive,
    Argument,
    Value,
    Member,
    Other,
}

/// What arguments are given to.
#[derive(Clone, Copy)]
pub enum Owner<'a> {
    Field(&'a Field),
    Directive(&'a Directive),
}

// What a node is, and its place.
fn sort_of(node: &Node<'_>) -> (Sort, u64) {
    match node {
        Node::Variable(var_def, _) => (Sort::Variable, var_def.at),
        Node::Condition(condition) => (Sort::Condition, condition.at),
        Node::Field(field, _) => (Sort::Field, field.at),
        Node::Spread(spread, _) => (Sort::Spread, spread.at),
        Node::Inline(inline, _) => (Sort::Inline, inline.at),
        Node::Directives(_) => (Sort::Other, 0),
        Node::Directive(directive, _) => (Sort::Directive, directive.at),
        Node::Argument(argument, _) => (Sort::Argument, argument.at),
        Node::Value(value, _) => (Sort::Value, value.at),
        Node::Member(member, _) => (Sort::Member, member.at),
    }
}

// Whether these arguments have one at a place.
fn has_argument(args: &[Argument], at: u64) -> bool {
    args.iter().any(|arg| arg.at == at)
}

// What the argument at a place is given to, where it is this node.
fn owner_at<'a>(node: &Node<'a>, at: u64) -> Option<Owner<'a>> {
    match node {
        Node::Field(field, _) if has_argument(&field.args, at) => Some(Owner::Field(field)),
        Node::Directive(directive, _) if has_argument(&directive.args, at) => {
            Some(Owner::Directive(directive))
        }
        _ => None,
    }
}

impl<'a> Subject<'a> {
    /// The place, as an index of the text.
    pub fn index(&self) -> usize {
        self.at as usize
    }

    /// The first node of this sort at the place.
    pub fn node(&self, sort: Sort) -> Option<Node<'a>> {
        for part in self.parts {
            for node in &part.nodes {
                if sort_of(node) == (sort, self.at) {
                    return Some(*node);
                }
            }
        }
        None
    }

    /// What the argument at the place is given to.
    pub fn owner(&self) -> Option<Owner<'a>> {
        for part in self.parts {
            for node in &part.nodes {
                if let Some(owner) = owner_at(node, self.at) {
                    return Some(owner);
                }
            }
        }
        None
    }

    /// The operation at the place.
    pub fn operation(&self) -> Option<&'a Operation> {
        for definition in &self.document.definitions {
            match definition {
                Definition::Operation(operation) if operation.at == self.at => {
                    return Some(operation);
                }
                _ => {}
            }
        }
        None
    }

    /// The fragment at the place.
    pub fn fragment(&self) -> Option<&'a Fragment> {
        for definition in &self.document.definitions {
            match definition {
                Definition::Fragment(fragment) if fragment.at == self.at => return Some(fragment),
                _ => {}
            }
        }
        None
    }
}
