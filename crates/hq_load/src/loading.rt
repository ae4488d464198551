ghost use Rattle.std.specs.Prelude.{◌≡◌, ◌≤◌, IfOk, IfSome, IsErrOf, true};
ghost use Rattle.hq_io.specs.Causes.{Rose};
ghost use Rattle.hq_model.specs.Meta.{meta_view};
ghost use Rattle.hq_model.specs.Catalog.{is_catalog};
ghost use Rattle.hq_model.specs.Database.{are_rows, is_database};
ghost use Rattle.hq_model.specs.Fits.{fits};
ghost use Rattle.hq_load_tables.specs.Header.{names_differ};
ghost use Rattle.hq_load.specs.Told.{GivesUnless};
ghost use Rattle.hq_load.specs.Loading.{catalog_file, meta_file, catalog_in, meta_in, rows_in, each_due, description_due, description_view, loaded_view, loading_due};

use crate::directory::{load_file, table_file_name};
use crate::{Description, Loaded, LoadingRefusal};
use hq_base::{List, Memory, Txt};
use hq_io::Files;
use hq_load_catalog::read_catalog;
use hq_load_meta::read_meta;
use hq_load_tables::{Rows, RowsList, load_table};
use hq_model::{Catalog, Meta, Table};
use std::alloc::Global;

// The name of the catalog's file.
fn catalog_file_name(alloc: Global) -> Result<Txt, Memory>
    ensures { IfOk result (λ name. name ≡ catalog_file) }
{
    let mut name = Txt::new(alloc);
    name.push_str("catalog.json")?;
    Ok(name)
}

// The name of the metadata's file.
fn meta_file_name(alloc: Global) -> Result<Txt, Memory>
    ensures { IfOk result (λ name. name ≡ meta_file) }
{
    let mut name = Txt::new(alloc);
    name.push_str("metadata.json")?;
    Ok(name)
}

/// Loads the catalog of a directory.
pub fn load_catalog<F: Files>(
    alloc: Global,
    files: &mut F,
    dir: &Txt,
) -> Result<Catalog, LoadingRefusal>
    ensures told { IfSome (F.folder files.old) (λ folder.
        GivesUnless (λ c. c.tables) LoadingRefusal.Memory LoadingRefusal.Failed (catalog_in folder dir.now) result) }
    ensures failed { IsErrOf result LoadingRefusal.Failed → Rose (F.faults files.old) (F.faults files.new) }
    ensures folder { F.folder files.new ≡ F.folder files.old }
    ensures later { F.faults files.old ≤ F.faults files.new }
{
    let file = catalog_file_name(alloc)?;
    match load_file(alloc, files, dir, &file) {
        Ok(bytes) => match read_catalog(alloc, bytes.as_slice()) {
            Ok(catalog) => Ok(catalog),
            Err(refusal) => Err(LoadingRefusal::of_catalog(file, refusal)),
        },
        Err(refusal) => Err(LoadingRefusal::of_load(file, refusal)),
    }
}

// The metadata of a directory, over the tables of a catalog.
fn load_meta<F: Files>(
    alloc: Global,
    files: &mut F,
    dir: &Txt,
    catalog: &Catalog,
) -> Result<Meta, LoadingRefusal>
    ensures told { IfSome (F.folder files.old) (λ folder.
        GivesUnless meta_view LoadingRefusal.Memory LoadingRefusal.Failed (meta_in folder dir.now catalog.now.tables) result) }
    ensures fits { IfOk result (λ meta. fits catalog.now.tables (meta_view meta) ≡ true) }
    ensures failed { IsErrOf result LoadingRefusal.Failed → Rose (F.faults files.old) (F.faults files.new) }
    ensures folder { F.folder files.new ≡ F.folder files.old }
    ensures later { F.faults files.old ≤ F.faults files.new }
{
    let file = meta_file_name(alloc)?;
    match load_file(alloc, files, dir, &file) {
        Ok(bytes) => match read_meta(alloc, bytes.as_slice(), catalog) {
            Ok(meta) => Ok(meta),
            Err(refusal) => Err(LoadingRefusal::of_meta(file, refusal)),
        },
        Err(refusal) => Err(LoadingRefusal::of_load(file, refusal)),
    }
}

// The rows of a table of a directory.
fn load_rows<F: Files>(
    alloc: Global,
    files: &mut F,
    dir: &Txt,
    table: &Table,
) -> Result<Rows, LoadingRefusal>
    requires { names_differ table.now.columns ≡ true }
    ensures told { IfSome (F.folder files.old) (λ folder.
        GivesUnless (λ rows. rows) LoadingRefusal.Memory LoadingRefusal.Failed (rows_in folder dir.now table.now) result) }
    ensures fits { IfOk result (λ rows. are_rows table.now rows ≡ true) }
    ensures failed { IsErrOf result LoadingRefusal.Failed → Rose (F.faults files.old) (F.faults files.new) }
    ensures folder { F.folder files.new ≡ F.folder files.old }
    ensures later { F.faults files.old ≤ F.faults files.new }
{
    let file = table_file_name(alloc, table)?;
    match load_file(alloc, files, dir, &file) {
        Ok(bytes) => match load_table(alloc, bytes.as_slice(), table) {
            Ok(rows) => Ok(rows),
            Err(refusal) => Err(LoadingRefusal::of_table(file, refusal)),
        },
        Err(refusal) => Err(LoadingRefusal::of_load(file, refusal)),
    }
}

/// Loads the rows of these tables of a directory, in their order. The first refusal in this order is the answer.
pub fn load_tables<F: Files>(
    alloc: Global,
    files: &mut F,
    dir: &Txt,
    tables: &[Table],
) -> Result<RowsList, LoadingRefusal>
    requires { is_catalog tables.now ≡ true }
    ensures told { IfSome (F.folder files.old) (λ folder.
        GivesUnless (λ all. all) LoadingRefusal.Memory LoadingRefusal.Failed (each_due (rows_in folder dir.now) tables.now) result) }
    ensures fits { IfOk result (λ all. is_database tables.now all ≡ true) }
    ensures failed { IsErrOf result LoadingRefusal.Failed → Rose (F.faults files.old) (F.faults files.new) }
    ensures folder { F.folder files.new ≡ F.folder files.old }
    ensures later { F.faults files.old ≤ F.faults files.new }
{
    let mut all = List::new(alloc);
    for table in tables {
        all.push(load_rows(alloc, files, dir, table)?)?;
    }
    Ok(all)
}

/// Loads what a directory describes: its catalog and its metadata, in this order. The first refusal in this order is the
/// answer.
pub fn load_description<F: Files>(
    alloc: Global,
    files: &mut F,
    dir: &Txt,
) -> Result<Description, LoadingRefusal>
    ensures told { IfSome (F.folder files.old) (λ folder.
        GivesUnless description_view LoadingRefusal.Memory LoadingRefusal.Failed (description_due folder dir.now) result) }
    ensures failed { IsErrOf result LoadingRefusal.Failed → Rose (F.faults files.old) (F.faults files.new) }
    ensures folder { F.folder files.new ≡ F.folder files.old }
    ensures later { F.faults files.old ≤ F.faults files.new }
{
    let catalog = load_catalog(alloc, files, dir)?;
    let meta = load_meta(alloc, files, dir, &catalog)?;
    Ok(Description { catalog, meta })
}

/// Loads a directory: what it describes, and the rows of each table of the catalog, in this order. The first refusal in this
/// order is the answer.
pub fn load<F: Files>(alloc: Global, files: &mut F, dir: &Txt) -> Result<Loaded, LoadingRefusal>
    ensures told { IfSome (F.folder files.old) (λ folder.
        GivesUnless loaded_view LoadingRefusal.Memory LoadingRefusal.Failed (loading_due folder dir.now) result) }
    ensures failed { IsErrOf result LoadingRefusal.Failed → Rose (F.faults files.old) (F.faults files.new) }
    ensures folder { F.folder files.new ≡ F.folder files.old }
    ensures later { F.faults files.old ≤ F.faults files.new }
{
    let Description { catalog, meta } = load_description(alloc, files, dir)?;
    let rows = load_tables(alloc, files, dir, catalog.tables.as_slice())?;
    Ok(Loaded {
        catalog,
        meta,
        rows,
    })
}
