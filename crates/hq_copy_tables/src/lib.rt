//! The tables and the metadata of a redacted copy: what it holds for a role, under which names, and how its tables are linked.
#![tactic(auto)]

mod catalog;
mod columns;
mod extras;
mod linked;
mod metadata;
mod original;
mod places;
mod relationships;
mod seen;

pub use catalog::{copied_table, copied_tables};
pub use extras::{Extra, extras_of, key_of};
pub use linked::{Link, link_remote, links};
pub use metadata::copied_meta;
pub use original::Original;
pub use places::table_place;
pub use relationships::kept_relationships;
pub use seen::{Source, has_mask, keeps_key, sources};
