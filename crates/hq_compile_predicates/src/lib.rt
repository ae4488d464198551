//! Boolean expressions as conditions: the filter of a permission, and the form of the `where` of a request.
#![tactic(auto)]

mod counted;
mod predicate;

pub use counted::{AllRows, Counted, MaskParts};
pub use predicate::{filter_predicate, own_predicate, predicate_of, row_members};
