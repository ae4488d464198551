//! The coerced arguments of a field (GraphQL October 2021, 6.4.1): values become conditions, sorts, pages, columns and keys of the
//! tables that they name (Hasura, Queries).
#![tactic(auto)]

mod arguments;
mod columns;
mod comparisons;
mod context;
mod field_args;
mod filter;
mod keys;
mod operands;
mod page;
mod plain;
mod reading;
mod refusal;
mod sorts;

pub use arguments::coerce_args;
pub use context::Context;
pub use field_args::FieldArgs;
pub use refusal::ArgRefusal;
