//! A GraphQL schema as data, with what each thing in it stands for, and look-ups in it by name (GraphQL October 2021,
//! section 3: type system).
#![tactic(auto)]

mod fixed;
mod look;
mod named;
mod origin;
mod part;
mod schema;
mod search;
mod sorted;
mod type_id;
mod type_ref;

pub use fixed::Fixed;
pub use look::{arg_named, field_named};
pub use named::{Named, NamedList};
pub use origin::{ArgOrigin, FieldOrigin, TypeOrigin};
pub use part::Part;
pub use schema::{
    ArgDef, ArgDefList, FieldDef, FieldDefList, Kind, Schema, TxtList, TypeDef, TypeDefList,
};
pub use type_id::TypeId;
pub use type_ref::TypeRef;
