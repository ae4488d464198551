//! Reads `metadata.json`: an export of Hasura v2's metadata, version 3, over the tables of a catalog. What is read are the
//! tracked tables of its one source, with their names, relationships and select permissions. Members that change neither
//! names nor what a role may see are passed over; those that would are refused.
#![tactic(auto)]

mod inheriting;
mod link;
mod linking;
mod permissions;
mod read;
mod relationships;

pub use hq_load_meta_tables::MetaRefusal;
pub use read::read_meta;
