//! Which statements are well-formed for a catalog, as a test, and which of its tables a statement takes rows from. Its meaning
//! depends on their rows alone.
#![tactic(auto)]

mod aggregates;
mod aliases;
mod differ;
mod distinct;
mod from;
mod marks;
mod parts;
mod places;
mod scope;
mod tested;
mod typed;
mod values;
mod well;

pub use marks::{only_scanned_tables_matter, scanned};
pub use well::well_formed;
