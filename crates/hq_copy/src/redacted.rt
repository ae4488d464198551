ghost use Rattle.std.specs.Prelude.{◌≡◌, true};
ghost use Rattle.hq_model.specs.Database.{is_database};
ghost use Rattle.hq_model.specs.Fits.{fits};
ghost use Rattle.hq_model.specs.Meta.{meta_view};

use hq_load_tables::RowsList;
use hq_model::{Catalog, Meta};

/// A redacted copy: a catalog, a metadata that fits it, and for each table its rows.
#[derive(Drop)]
pub struct Redacted {
    pub catalog: Catalog,
    pub meta: Meta,
    pub rows: RowsList,
    ghost meta_fits: { fits catalog.tables (meta_view meta) ≡ true },
    ghost valid: { is_database catalog.tables rows ≡ true },
}
