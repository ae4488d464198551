//! The next request of a connection: what the bytes that were read and not yet answered hold.
//!
//! A head is read by the crate `httparse`. What it asks for, and whether it is refused, is told by its method, target,
//! version and fields alone.
#![tactic(auto)]

mod decided;
mod fault;
mod fields;
mod judge;
mod next;
mod number;
mod tokens;

pub use decided::a_head_decides;
pub use fault::Fault;
pub use judge::{Target, WholeRequest};
pub use next::{Next, front, next_request};
