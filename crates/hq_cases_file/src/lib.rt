//! Tables of cases: what a file of cases says, how it is run, and how what differs is told.
#![tactic(auto)]

mod bexp;
mod case;
mod given;
mod input;
mod stop;
mod table;
mod values;
mod words;

pub use bexp::push_bexp;
pub use case::Case;
pub use given::{given_catalog, given_headers, given_session};
pub use input::bytes as input_bytes;
pub use stop::Stop;
pub use table::{Subject, run_all};
pub use values::{push_bytes, push_json, push_session, push_value, value};
pub use words::Words;
