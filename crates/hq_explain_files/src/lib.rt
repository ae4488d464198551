//! What is told to a person of a directory's file that is refused: where in the file, what stands there, and what may stand there.
#![tactic(auto)]

mod catalog;
mod known;
mod metadata;
mod missing;
mod node;
mod path;
mod spot;
mod table;

pub use catalog::catalog_words;
pub use metadata::metadata_words;
pub use missing::missing_words;
pub use table::table_words;
