//! Rows held one after the other, and indexes over them: row numbers in the order of their keys.
#![tactic(auto)]

mod build;
mod direct;
mod grid;
mod index;
mod key;
mod place;
mod repeats;
mod span;
mod steps;
mod whole;

pub use grid::Grid;
pub use index::{Found, Index, Keyed};
pub use key::KeyCell;
pub use repeats::Repeat;
pub use span::Span;
pub use steps::Steps;
