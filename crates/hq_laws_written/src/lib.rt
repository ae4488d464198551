//! The laws of written texts: what is written of a copy is read back.
#![tactic(auto)]

mod catalog_laws;
mod compact;
mod metadata_laws;
mod table_laws;

pub use catalog_laws::written_catalog_is_read_back;
pub use compact::compact_text_is_read_back;
pub use metadata_laws::written_metadata_is_read_back;
pub use table_laws::written_table_is_read_back;
