//! The generated database.
ghost use Rattle.std.specs.Prelude.{◌≡◌, ◌≤◌, true, IfOk};
ghost use Rattle.hq_model.specs.Database.{is_database};
ghost use Rattle.hq_model.specs.Fits.{fits as fits_tables};
ghost use Rattle.hq_model.specs.Meta.{meta_view};
ghost use Rattle.hq_generator.specs.Metadata.{metadata};
ghost use Rattle.hq_generator.specs.Rows.{rows};
ghost use Rattle.hq_generator.specs.Tables.{tables};

use crate::articles::article_rows;
use crate::authors::author_rows;
use crate::catalog::catalog;
use crate::metadata::metadata;
use hq_base::{List, Memory};
use hq_load_tables::RowsList;
use hq_model::{Catalog, Meta};
use std::alloc::Global;

/// A generated database: its catalog, its metadata, and the rows of each table of the catalog, in its order.
#[derive(Drop)]
pub struct Generated {
    pub catalog: Catalog,
    pub meta: Meta,
    pub rows: RowsList,
    ghost database: { is_database catalog.tables rows ≡ true },
    ghost fits: { fits_tables catalog.tables (meta_view meta) ≡ true },
}

// The rows of both tables.
fn rows(alloc: Global, authors: u32) -> Result<RowsList, Memory>
    requires some { 1 ≤ authors }
    requires few { authors ≤ 100000 }
    ensures { IfOk result (λ all. all ≡ rows authors) }
{
    let mut all = List::new(alloc);
    all.push(author_rows(alloc, authors)?)?;
    all.push(article_rows(alloc, authors)?)?;
    Ok(all)
}

/// The database of so many authors, with four articles each.
#[tactic(auto, using(crate::proofs::Valid::database_valid, crate::proofs::Valid::metadata_fits))]
pub fn generate(alloc: Global, authors: u32) -> Result<Generated, Memory>
    requires some { 1 ≤ authors }
    requires few { authors ≤ 100000 }
    ensures tables { IfOk result (λ all. all.catalog.tables ≡ tables) }
    ensures meta { IfOk result (λ all. meta_view all.meta ≡ metadata) }
    ensures rows { IfOk result (λ all. all.rows ≡ rows authors) }
{
    let catalog = catalog(alloc)?;
    let meta = metadata(alloc)?;
    let rows = rows(alloc, authors)?;
    Ok(Generated {
        catalog,
        meta,
        rows,
    })
}
