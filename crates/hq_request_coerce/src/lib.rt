//! The operation of a request, and the values of its variables (GraphQL October 2021, 6.1 and 6.1.2).
//!
//! A literal with variables put in and a value in JSON are one thing from here on: both are JSON.
#![tactic(auto)]

mod choice;
mod given;
mod operation;
mod refusal;
mod required;
mod sources;
mod values;
mod variables;

pub use choice::{choose, fault_of, operation_at};
pub use operation::OpRef;
pub use refusal::CoerceRefusal;
pub use sources::source;
pub use values::coerce;
pub use variables::{VarValue, VarValues, coerce_variables};
