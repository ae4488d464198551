//! The law, the contract of a function that does nothing.
ghost use Rattle.std.specs.Prelude.{◌≡◌, List as Items, Ok};
ghost use Rattle.hq_base.specs.Compact.{compact};
ghost use Rattle.hq_model.specs.Meta.{MetaTree};
ghost use Rattle.hq_model.specs.declared.table.Table.{Table as CatalogTable};
ghost use Rattle.hq_load_meta.specs.Reading.{meta_due};
ghost use Rattle.hq_laws_written.specs.Metadata.Written.{meta_json};
ghost use Rattle.hq_laws_written.specs.Metadata.Plain.{IsPlain};

use crate::compact_text_is_read_back;

/// What is read of a metadata's compact text, over the catalog that it fits, is that metadata: for every one without inherited
/// roles whose permissions filter nothing.
pub fn written_metadata_is_read_back()
    ensures { (tables : Items CatalogTable) (m : MetaTree) → IsPlain tables m → meta_due tables (compact (meta_json tables m)) ≡ Ok m }
{
    compact_text_is_read_back();
}
