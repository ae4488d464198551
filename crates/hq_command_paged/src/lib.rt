//! The commands `query` and `serve` over tables that are kept on a disk, in pages.
#![tactic(auto)]

mod instance;
mod paging;
mod serving;

pub use paging::{OnDisk, query_on_disk};
pub use serving::serve_on_disk;
