ghost use Rattle.std.specs.Prelude.{◌≡◌, true};
ghost use Rattle.hq_model.specs.Database.{is_database};
ghost use Rattle.hq_model.specs.Fits.{fits as fits_tables};
ghost use Rattle.hq_model.specs.Meta.{meta_view};

use hq_load_tables::RowsList;
use hq_model::{Catalog, Meta};

/// What a directory holds: the catalog, the metadata, and the rows of each table of the catalog, in its order.
#[derive(Drop)]
pub struct Loaded {
    pub catalog: Catalog,
    pub meta: Meta,
    pub rows: RowsList,
    ghost database: { is_database catalog.tables rows ≡ true },
    ghost fits: { fits_tables catalog.tables (meta_view meta) ≡ true },
}

/// What a directory describes, without its rows: the catalog, and metadata for it.
#[derive(Drop)]
pub struct Description {
    pub catalog: Catalog,
    pub meta: Meta,
    ghost fits: { fits_tables catalog.tables (meta_view meta) ≡ true },
}
