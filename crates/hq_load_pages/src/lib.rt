//! The rows of tables on a disk, in pages.
//!
//! The rows of a table are one run of bytes, cell after cell (`cell`, `run`). The run is cut into pieces, each of which
//! stands in a page of its own (`page`). `make` writes the pages of all tables, and a pin reads those of one, through a
//! cache of the pages that were touched last.
#![tactic(auto)]

mod cache;
mod cell;
mod header;
mod make;
mod page;
mod page_writer;
mod paged_tables;
mod pages;
mod refusal;
mod rows_run;
mod run;
mod table_rows;
mod table_run;
mod table_writer;

pub use cache::Pieces;
pub use header::Header;
pub use paged_tables::{PagedTables, Unmade};
pub use refusal::PageRefusal;
pub use table_run::TableRun;
