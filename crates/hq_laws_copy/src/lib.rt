//! The laws of a redacted copy: it fits its catalog, its rows are valid, and its reader has the schema of the session's role.
#![tactic(auto)]

mod fit_laws;
mod row_laws;
mod schema_laws;
mod view_laws;

pub use fit_laws::copied_metadata_fits;
pub use row_laws::copied_rows_fit;
pub use schema_laws::copied_schema_is_renumbered;
pub use view_laws::{copies_agree, copies_answer, numbers_differ};
