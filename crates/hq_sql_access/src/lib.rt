//! What a statement is evaluated on: rows, scopes, the tables that are pinned with what is known of them, and what a WHERE asks the
//! columns of a scanned table to equal.
#![tactic(auto)]

pub mod cells;
pub mod equations;
pub mod known;
mod mentions;
pub mod pinned;
pub mod place;
pub mod resolved;
pub mod row;
pub mod scope;
pub mod single;
pub mod stages;
pub mod stored;
mod wanted;
pub mod work;
