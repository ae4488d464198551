//! Tables that cannot be copied: their key is masked, or they would be too wide.
ghost use Rattle.std.specs.Prelude.{◌≡◌, ◌⊎◌, ◌&&◌, IfOk, map, length, nat_lt};
ghost use Rattle.std.specs.List.{list_any};
ghost use Rattle.hq_copy_definition.specs.Refusals.{first_of, masked_key_refusal, refused_if, told_name};
ghost use Rattle.hq_copy_definition.specs.Sources.{has_mask, keeps_key};
ghost use Rattle.hq_copy_definition.specs.declared.refusal.CopyRefusal.TheVariants as refusal;
ghost use Rattle.hq_copy_tables.specs.Originals.{IsOriginal, meta_in, role_in, schema_in};
ghost use Rattle.hq_copy_tables.specs.Views.{source_view};
ghost use Rattle.hq_copy.specs.Refused.{Refuses};
ghost use Rattle.hq_model.specs.Catalog.{full_name};
ghost use Rattle.hq_model.specs.PermView.{permission_view};

use hq_base::{Memory, Txt};
use hq_copy_definition::CopyRefusal;
use hq_copy_tables::{Original, Source, copied_table, has_mask, keeps_key, key_of};
use hq_model::{ColId, PermView, Table};
use std::alloc::Global;

const WIDEST: usize = 200;

/// A table's name as it is told: its schema and its name, joined by a point.
pub fn full_name(alloc: Global, table: &Table) -> Result<Txt, Memory>
    ensures { IfOk result (λ name. name ≡ full_name table.now) }
{
    let mut name = table.schema.copy(alloc)?;
    name.push_str(".")?;
    name.push_txt(&table.name)?;
    Ok(name)
}

// Whether a column of a key shows in some rows only, and all columns of the key are permitted.
fn has_masked_key(permission: &PermView, key: &[ColId]) -> bool
    ensures { result ≡ (keeps_key (permission_view permission.now) key.now && list_any (has_mask (permission_view permission.now)) key.now) }
{
    keeps_key(permission, key) && key.iter().any(|column| has_mask(permission, *column))
}

// The name of a table of the copy, as it is told.
fn told_name(alloc: Global, original: &Original<'_>, source: &Source<'_>) -> Result<Txt, Memory>
    requires { IsOriginal original.now }
    ensures { IfOk result (λ name. name ≡ told_name (role_in original.now) (meta_in original.now) (schema_in original.now) (source_view source.now)) }
{
    let table = copied_table(alloc, original, source)?;
    full_name(alloc, &table)
}

fn masked_key(alloc: Global, original: &Original<'_>, source: &Source<'_>) -> CopyRefusal
    requires { IsOriginal original.now }
    ensures { (result ≡ refusal.Memory) ⊎ (result ≡ refusal.MaskedKey (told_name (role_in original.now) (meta_in original.now) (schema_in original.now) (source_view source.now))) }
{
    match told_name(alloc, original, source) {
        Ok(table) => CopyRefusal::MaskedKey { table },
        Err(_) => CopyRefusal::Memory,
    }
}

fn too_wide(alloc: Global, table: &Table) -> CopyRefusal
    ensures { (result ≡ refusal.Memory) ⊎ (result ≡ refusal.TooWide (full_name table.now)) }
{
    match full_name(alloc, table) {
        Ok(table) => CopyRefusal::TooWide { table },
        Err(_) => CopyRefusal::Memory,
    }
}

// Refuses a table whose key is masked.
fn check_key(alloc: Global, original: &Original<'_>, source: &Source<'_>) -> Result<(), CopyRefusal>
    requires { IsOriginal original.now }
    ensures { Refuses (masked_key_refusal (role_in original.now) (meta_in original.now) (schema_in original.now) (source_view source.now)) result }
{
    let key = key_of(&original.scope, source.entry.table);
    if has_masked_key(&source.permission, key) {
        return Err(masked_key(alloc, original, source));
    }
    Ok(())
}

/// Refuses the first table whose key is masked.
pub fn check_keys(alloc: Global, original: &Original<'_>) -> Result<(), CopyRefusal>
    requires { IsOriginal original.now }
    ensures { Refuses (first_of (masked_key_refusal (role_in original.now) (meta_in original.now) (schema_in original.now)) (map source_view original.now.sources.now)) result }
{
    let sources = original.sources;
    for source in sources {
        check_key(alloc, original, source)?;
    }
    Ok(())
}

// Refuses a table that is too wide.
fn check_width(alloc: Global, table: &Table) -> Result<(), CopyRefusal>
    ensures { Refuses (refused_if (nat_lt 200 (length table.now.columns)) (refusal.TooWide (full_name table.now))) result }
{
    if table.columns.len() > WIDEST {
        return Err(too_wide(alloc, table));
    }
    Ok(())
}

/// Refuses the first of the copy's tables that is too wide.
pub fn check_widths(alloc: Global, tables: &[Table]) -> Result<(), CopyRefusal>
    ensures { Refuses (first_of (λ t. refused_if (nat_lt 200 (length t.columns)) (refusal.TooWide (full_name t))) tables.now) result }
{
    for table in tables {
        check_width(alloc, table)?;
    }
    Ok(())
}
