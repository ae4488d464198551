ghost use Rattle.std.specs.Prelude.{◌≡◌, true};
ghost use Rattle.hq_model.specs.Catalog.{is_catalog};

use crate::{Table, TableId, TableList};

/// The tables of a database. Their names, columns, keys and foreign keys fit together.
#[derive(Drop)]
pub struct Catalog {
    pub tables: TableList,
    ghost valid: { is_catalog tables ≡ true },
}

impl Catalog {
    ghost use Rattle.std.specs.Prelude.{◌≡◌, option_copied, slice_get};

    /// A table by its place.
    pub fn table(&self, t: TableId) -> Option<&Table>
        ensures { option_copied result ≡ slice_get self.now.tables t }
    {
        self.tables.get(t.at())
    }
}
