//! The fields of an operation as GraphQL collects them, the operation's size, and how many nodes its arguments have: a request of a
//! megabyte can use a variable or a fragment so often that its arguments, with variables put in, would be larger than memory, so
//! they are counted before any is built.
#![tactic(auto)]

mod collect;
mod fields;
mod fragments;
mod groups;
mod included;
mod json;
mod keys;
mod laws;
mod parts;
mod selections;
mod size;
mod tree;
mod values;

pub use collect::{Collected, Request, collect_fields};
pub use fields::is_bounded;
pub use fragments::Fragments;
pub use groups::{Groups, Nodes};
pub use included::{is_included, is_selected};
pub use keys::is_narrow;
pub use laws::{collected_apart, levels_suffice};
pub use size::is_small;
pub use tree::{CollectedField, CollectedList, collected_tree};
