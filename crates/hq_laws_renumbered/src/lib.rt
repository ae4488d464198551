//! The laws of other numbers: what is asked and answered under a schema whose tables and columns have other numbers.
#![tactic(auto)]

mod request_laws;
mod resolving_laws;
mod rule_laws;
mod schema_laws;

pub use request_laws::fields_are_renumbered;
pub use resolving_laws::copies_answer_alike;
pub use rule_laws::{
    origins_change_no_fault, origins_change_no_introspection, origins_change_no_variable,
};
pub use schema_laws::numbers_change_origins_alone;
