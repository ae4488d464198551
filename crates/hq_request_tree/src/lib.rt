//! Typed requests: what a checked request asks for, with its names resolved to tables, columns and relationships; and laws of
//! them.
#![tactic(auto)]

mod aggregate;
mod arguments;
mod ask;
mod field;
mod introspection;
mod laws;

pub use aggregate::{AggCol, AggCols, AggField, AggFields, KeyedAggCol, KeyedAggField};
pub use arguments::{Args, RelIdList, Sort, SortList};
pub use ask::{Ask, Bound, BoundList};
pub use field::{AggPart, AggParts, AskField, AskFields, KeyedAggPart, KeyedAskField, ValList};
pub use introspection::{IntroField, IntroFields, KeyedIntroField};
pub use laws::{requests_use_permitted, touched_tables_decide};
