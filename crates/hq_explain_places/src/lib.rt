//! Places in a text, as a person looks for them: by line and column, by a path in JSON, by record and field in a table file; and words
//! that tell of them.
#![tactic(auto)]

mod excerpt;
mod json;
mod line;
mod not_json;
mod number;
mod part;
mod place;
mod quoted;
mod records;
mod stand;
mod words;

pub use excerpt::put_excerpt;
pub use json::{Found, find, value_at};
pub use line::{Line, line_around};
pub use not_json::put_not_json;
pub use part::piece;
pub use place::{Place, place_of};
pub use records::{Piece, field_at, field_count, open_quote, record_at};
pub use words::Words;
