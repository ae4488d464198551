//! A GraphQL document as a tree, and the faults of a request. Each node keeps the place of its first token: the
//! number of the token's first byte in the query text, from 0.
#![tactic(auto)]

mod document;
mod fault;
mod rule;
mod selection;
mod type_ref;
mod value;

pub use document::{
    Definition, DefinitionList, Document, Fragment, OpKind, Operation, VarDef, VarDefList,
};
pub use fault::Fault;
pub use rule::RuleId;
pub use selection::{Field, Inline, Selection, SelectionList, Spread, TypeCond};
pub use type_ref::TypeRefTree;
pub use value::{
    Argument, ArgumentList, Directive, DirectiveList, Placed, Value, ValueList, ValueMembers,
};
