ghost use Rattle.std.specs.Prelude.{◌≡◌, ◌⊎◌, length, map, nat_lt, not, option_copied};
ghost use Rattle.std.specs.List.{find};
ghost use Rattle.hq_base.specs.Due.{Gives};
ghost use Rattle.hq_model.specs.Catalog.{is_catalog_name};
ghost use Rattle.hq_load_catalog.specs.Field.{field_name};
ghost use Rattle.hq_load_catalog.specs.Limits.{too_many, too_many_tables, too_many_columns, declared_names, wrong_length};
ghost use Rattle.hq_load_catalog.specs.Passed.{passed};

use crate::CatalogRefusal;
use crate::field::Field;
use crate::written::WrittenTable;
use hq_base::Txt;
use hq_model::Column;
use std::alloc::Global;

/// The most tables of a catalog.
const MAX_TABLES: usize = 500;

/// The most columns of a table.
const MAX_COLUMNS: usize = 200;

/// The most bytes of a schema's, table's or column's name.
const MAX_NAME_BYTES: usize = 63;

// The refusal of so many tables or columns.
fn too_many(alloc: Global, what: Field, count: usize) -> CatalogRefusal
    ensures { (result ≡ CatalogRefusal.Memory) ⊎ (result ≡ CatalogRefusal.TooMany (field_name what) count) }
{
    match what.text(alloc) {
        Ok(what) => CatalogRefusal::TooMany {
            what,
            count: count as u64,
        },
        Err(_) => CatalogRefusal::Memory,
    }
}

// Refuses more than 500 tables.
#[tactic(auto, unfolding(crate::specs::Limits::too_many_tables))]
fn check_table_count(alloc: Global, tables: &[WrittenTable]) -> Result<(), CatalogRefusal>
    ensures { Gives (λ done. done) CatalogRefusal.Memory (passed (too_many_tables tables.now)) result }
{
    if tables.len() > MAX_TABLES {
        return Err(too_many(alloc, Field::Tables, tables.len()));
    }
    Ok(())
}

// The first table of too many columns.
fn first_wide(tables: &[WrittenTable]) -> Option<&WrittenTable>
    ensures { option_copied result ≡ find (λ t. nat_lt 200 (length t.columns)) tables.now }
{
    tables
        .iter()
        .find(|table| table.columns.len() > MAX_COLUMNS)
}

// Refuses more than 200 columns of a table.
#[tactic(auto, unfolding(crate::specs::Limits::too_many_columns))]
fn check_column_counts(alloc: Global, tables: &[WrittenTable]) -> Result<(), CatalogRefusal>
    ensures { Gives (λ done. done) CatalogRefusal.Memory (passed (too_many_columns tables.now)) result }
{
    match first_wide(tables) {
        Some(table) => Err(too_many(alloc, Field::Columns, table.columns.len())),
        None => Ok(()),
    }
}

/// Refuses too many tables, and then too many columns of a table.
pub fn check_counts(alloc: Global, tables: &[WrittenTable]) -> Result<(), CatalogRefusal>
    ensures { Gives (λ done. done) CatalogRefusal.Memory (passed (too_many tables.now)) result }
{
    check_table_count(alloc, tables)?;
    check_column_counts(alloc, tables)
}

// Whether a name has 1 to 63 bytes.
fn is_catalog_name(name: &Txt) -> bool
    ensures { result ≡ is_catalog_name name.now }
{
    let bytes = name.as_bytes().len();
    0 < bytes && bytes <= MAX_NAME_BYTES
}

// The first column whose name has not 1 to 63 bytes.
fn misnamed_column(columns: &[Column]) -> Option<&Txt>
    ensures { option_copied result ≡ find (λ name. not (is_catalog_name name)) (map (λ c. c.name) columns.now) }
{
    for column in columns {
        if !is_catalog_name(&column.name) {
            return Some(&column.name);
        }
    }
    None
}

// The first name that a table declares and that has not 1 to 63 bytes.
fn misnamed(table: &WrittenTable) -> Option<&Txt>
    ensures { option_copied result ≡ find (λ name. not (is_catalog_name name)) (declared_names table.now) }
{
    if !is_catalog_name(&table.schema) {
        return Some(&table.schema);
    }
    if !is_catalog_name(&table.name) {
        return Some(&table.name);
    }
    misnamed_column(table.columns.as_slice())
}

/// Refuses a name that has not 1 to 63 bytes.
#[tactic(auto, unfolding(crate::specs::Limits::wrong_length))]
pub fn check_name_lengths(alloc: Global, tables: &[WrittenTable]) -> Result<(), CatalogRefusal>
    ensures { Gives (λ done. done) CatalogRefusal.Memory (passed (wrong_length tables.now)) result }
{
    for table in tables {
        if let Some(name) = misnamed(table) {
            return Err(CatalogRefusal::NameLength {
                name: name.copy(alloc)?,
            });
        }
    }
    Ok(())
}
