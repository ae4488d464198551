//! The selection sets of a document by numbers, the pairs of fields that 5.3.2 Field Selection Merging looks at, and the test of two
//! (GraphQL October 2021).
#![tactic(auto)]

mod arguments;
mod definitions;
mod fields;
mod keys;
mod laws;
mod rows;
mod selections;
mod sets;
mod shapes;
mod values;

pub use definitions::document_arena;
pub use fields::{are_alike, cannot_merge, same_label};
pub use keys::{all_entries, first_places, place_of, push_entries};
pub use laws::the_place_is_first;
pub use rows::{clear_row, empty_rows, extend_row, push_row};
pub use selections::empty_set;
pub use sets::{Arena, Entry, Pair, Set, entry_at, later};
pub use shapes::same_shape;
