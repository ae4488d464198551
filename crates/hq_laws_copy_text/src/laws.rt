//! The law of a copy's parts, the contract of a function that does nothing.
ghost use Rattle.std.specs.Prelude.{ℕ, List as Items};
ghost use Rattle.hq_copy_definition.specs.Copied.{Copied};
ghost use Rattle.hq_laws_copy_text.specs.Laws.{PartReadsBack};
ghost use Rattle.hq_model.specs.Database.{Row};
ghost use Rattle.hq_model.specs.Meta.{MetaTree};
ghost use Rattle.hq_model.specs.declared.session.Session.{Session as Caller};
ghost use Rattle.hq_model.specs.declared.table.Table.{Table as CatalogTable};

use hq_laws_copy::{copied_metadata_fits, copied_rows_fit};
use hq_laws_written::{
    written_catalog_is_read_back, written_metadata_is_read_back, written_table_is_read_back,
};

/// What is read of each part of a copy is what the copy holds: its tables of the catalog, its metadata over these tables, and its
/// rows of the file of a table. The copy is one of a valid database, and its names and texts are UTF-8 without a zero byte.
pub fn parts_are_read_back()
    ensures { (tables : Items CatalogTable) (m : MetaTree) (session : Caller) (d : Items (Items Row)) (c : Copied) (name text : Items ℕ) → PartReadsBack tables m session d c name text }
{
    copied_metadata_fits();
    copied_rows_fit();
    written_catalog_is_read_back();
    written_metadata_is_read_back();
    written_table_is_read_back();
}
