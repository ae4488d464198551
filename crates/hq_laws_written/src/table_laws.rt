//! The law, the contract of a function that does nothing.
ghost use Rattle.std.specs.Prelude.{◌≡◌, List as Items, Ok};
ghost use Rattle.hq_model.specs.Database.{Row};
ghost use Rattle.hq_model.specs.declared.table.Table.{Table as CatalogTable};
ghost use Rattle.hq_load_tables.specs.Load.{table_due};
ghost use Rattle.hq_laws_written.specs.Tables.Written.{IsWritable, file_of};

/// What is read of a table's written file is the rows that it was written from: for every table with columns of different
/// names and every list of its rows, but for a text that stands for NULL in a file and a first name that begins with U+FEFF.
pub fn written_table_is_read_back()
    ensures { (t : CatalogTable) (rows : Items Row) → IsWritable t rows → table_due t (file_of t rows) ≡ Ok rows }
{}
