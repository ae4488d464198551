//! Reading a directory: its catalog, its metadata, and the rows of each table of the catalog, or the first refusal; and the lines
//! that tell of it, as the program writes them: fixed phrases, a file, fields and counts, one after the other.
#![tactic(auto)]

mod directory;
mod file_fault;
mod loaded;
mod loading;
mod parts;
mod phrase;
mod refusal;

pub use directory::{load_file, table_file_name};
pub use file_fault::FileFault;
pub use loaded::{Description, Loaded};
pub use loading::{load, load_catalog, load_description, load_tables};
pub use parts::{Field, Fields, Part, write_both, write_parts};
pub use phrase::Phrase;
pub use refusal::LoadingRefusal;
