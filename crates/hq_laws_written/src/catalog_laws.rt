//! The law, the contract of a function that does nothing.
ghost use Rattle.std.specs.Prelude.{◌≡◌, List as Items, Ok, true};
ghost use Rattle.hq_base.specs.Compact.{compact};
ghost use Rattle.hq_model.specs.Catalog.{is_catalog};
ghost use Rattle.hq_model.specs.declared.table.Table.{Table as CatalogTable};
ghost use Rattle.hq_load_catalog.specs.Reading.{catalog_due};
ghost use Rattle.hq_laws_written.specs.Catalog.Written.{catalog_json, has_clean_names};

use crate::compact_text_is_read_back;

/// What is read of a catalog's compact text is its tables: for every catalog whose names are UTF-8 without a zero byte.
pub fn written_catalog_is_read_back()
    ensures { (tables : Items CatalogTable) → is_catalog tables ≡ true → has_clean_names tables ≡ true → catalog_due (compact (catalog_json tables)) ≡ Ok tables }
{
    compact_text_is_read_back();
}
