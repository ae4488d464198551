//! LIKE and ILIKE with patterns that are read once: the parts between % are searched for in time linear in the text.
#![tactic(auto)]

mod backs;
mod matcher;
mod parts;
mod places;
mod reading;
mod seeking;
mod segment;
mod signs;

pub use matcher::Matcher;
