//! The law of building: what is built of a document that violates no rule, with variables that are coerced, is refused by the limits
//! of a request, by session variables, and by what arguments ask for alone.
mod builds;
mod faults;

pub use builds::valid_builds;
pub use faults::valid_faults;
