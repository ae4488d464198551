ghost use Rattle.std.specs.Prelude.{◌≡◌, ◌==◌, [], length, map, IfOk, option_copied, bytes_eq};
ghost use Rattle.std.specs.List.{find, list_any};
ghost use Rattle.hq_base.specs.Due.{Gives};
ghost use Rattle.hq_load_catalog.specs.Passed.{passed};
ghost use Rattle.hq_load_catalog.specs.Repeats.{full_name, first_repeat, repeat_within, repeated, no_key};

use crate::CatalogRefusal;
use crate::written::{NameList, WrittenTable};
use hq_base::{List, Memory, Txt};
use hq_model::Column;
use std::alloc::Global;

// A table's schema and name, joined by a point.
fn full_name(alloc: Global, table: &WrittenTable) -> Result<Txt, Memory>
    ensures { IfOk result (λ name. name ≡ full_name table.now) }
{
    let mut name = table.schema.copy(alloc)?;
    name.push_str(".")?;
    name.push_txt(&table.name)?;
    Ok(name)
}

// Whether a name is among the earlier ones.
fn is_among(earlier: &[Txt], name: &Txt) -> bool
    ensures { result ≡ list_any (λ e. bytes_eq e name.now) earlier.now }
{
    earlier.contains(name)
}

// Whether one of the columns has this name.
fn is_named(columns: &[Column], name: &Txt) -> bool
    ensures { result ≡ list_any (λ e. bytes_eq e name.now) (map (λ c. c.name) columns.now) }
{
    for column in columns {
        if column.name == *name {
            return true;
        }
    }
    false
}

// The first name that stands among those before it.
fn first_repeat(names: &[Txt]) -> Option<&Txt>
    ensures { option_copied result ≡ first_repeat [] names.now }
{
    for (place, name) in names.iter().enumerate() {
        if is_among(&names[..place], name) {
            return Some(name);
        }
    }
    None
}

// The first column whose name one before it has.
fn repeated_column(columns: &[Column]) -> Option<&Txt>
    ensures { option_copied result ≡ first_repeat [] (map (λ c. c.name) columns.now) }
{
    for (place, column) in columns.iter().enumerate() {
        if is_named(&columns[..place], &column.name) {
            return Some(&column.name);
        }
    }
    None
}

// The first name that stands twice among a table's columns, or in its key.
#[tactic(auto, unfolding(crate::specs::Repeats::repeat_within))]
fn repeat_within(table: &WrittenTable) -> Option<&Txt>
    ensures { option_copied result ≡ repeat_within table.now }
{
    match repeated_column(table.columns.as_slice()) {
        Some(name) => Some(name),
        None => first_repeat(table.key.as_slice()),
    }
}

/// Refuses a table whose name an earlier one has, two columns of one name, and a key that names a column twice.
#[tactic(auto, unfolding(crate::specs::Repeats::repeated))]
pub fn check_repeats(alloc: Global, tables: &[WrittenTable]) -> Result<(), CatalogRefusal>
    ensures { Gives (λ done. done) CatalogRefusal.Memory (passed (repeated tables.now)) result }
{
    let mut earlier: NameList = List::new(alloc);
    for table in tables {
        let name = full_name(alloc, table)?;
        if is_among(earlier.as_slice(), &name) {
            return Err(CatalogRefusal::Repeated { name });
        }
        if let Some(name) = repeat_within(table) {
            return Err(CatalogRefusal::Repeated {
                name: name.copy(alloc)?,
            });
        }
        earlier.push(name)?;
    }
    Ok(())
}

// The first table whose key is empty.
fn first_keyless(tables: &[WrittenTable]) -> Option<&WrittenTable>
    ensures { option_copied result ≡ find (λ t. length t.key == 0) tables.now }
{
    tables.iter().find(|table| table.key.len() == 0)
}

/// Refuses a table without a key.
#[tactic(auto, unfolding(crate::specs::Repeats::no_key))]
pub fn check_keys(alloc: Global, tables: &[WrittenTable]) -> Result<(), CatalogRefusal>
    ensures { Gives (λ done. done) CatalogRefusal.Memory (passed (no_key tables.now)) result }
{
    match first_keyless(tables) {
        Some(table) => Err(CatalogRefusal::NoKey {
            table: full_name(alloc, table)?,
        }),
        None => Ok(()),
    }
}
