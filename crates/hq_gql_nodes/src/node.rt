use crate::ValuePlace;
use hq_gql_tree::{Argument, Directive, Field, Inline, Placed, Spread, TypeCond, VarDef};
use hq_schema::{ArgDefList, TypeRef};

/// What a directive stands at (GraphQL October 2021, 3.13: executable directive locations).
#[derive(Clone, Copy)]
pub enum Location {
    Query,
    Mutation,
    Subscription,
    Field,
    FragmentDefinition,
    FragmentSpread,
    InlineFragment,
    VariableDefinition,
}

/// A node that the rules look at, with what it stands in. An object type is told by its place in the schema's list.
#[derive(Clone, Copy)]
pub enum Node<'a> {
    /// A definition of a variable, and its type.
    Variable(&'a VarDef, Option<&'a TypeRef>),
    /// A type condition.
    Condition(&'a TypeCond),
    /// A field, and the object type that it stands in.
    Field(&'a Field, Option<usize>),
    /// A fragment spread, and the object type that it stands in.
    Spread(&'a Spread, Option<usize>),
    /// An inline fragment, and the object type that it stands in.
    Inline(&'a Inline, Option<usize>),
    /// All directives that stand at one place.
    Directives(&'a Vec<Directive>),
    /// A directive, and what it stands at.
    Directive(&'a Directive, Location),
    /// An argument, and the arguments of what it is given to.
    Argument(&'a Argument, Option<&'a ArgDefList>),
    /// A value, also an element or a member, and its place.
    Value(&'a Placed, Option<ValuePlace<'a>>),
    /// A member of an object, and the input object that it stands in.
    Member(&'a Argument, Option<usize>),
}
