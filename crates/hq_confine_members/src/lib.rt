//! Conjuncts: those of a condition, and whether they are those of a filter or a mask, up to aliases inside EXISTS, or of a whole link.
#![tactic(auto)]

mod alike;
mod conditions;
mod links;
mod members;

pub use alike::{alias_of, is_bare};
pub use conditions::{conjuncts, opened};
pub use links::is_linking;
pub use members::{are_of, is_one_of, stand_among};
