//! Names of the original that are kept for added columns.
ghost use Rattle.std.specs.Prelude.{◌≡◌, ◌⊎◌, map, slice_index_or, []};
ghost use Rattle.hq_copy_definition.specs.Refusals.{column_refusal, first_of, is_kept_name, kept_name, own_name_refusal};
ghost use Rattle.hq_copy_definition.specs.declared.refusal.CopyRefusal.TheVariants as refusal;
ghost use Rattle.hq_copy_tables.specs.Originals.{meta_in, role_in, schema_in};
ghost use Rattle.hq_copy_tables.specs.Views.{source_view};
ghost use Rattle.hq_copy.specs.Refused.{Refuses};
ghost use Rattle.hq_model.specs.Schema.{column, rel};
ghost use Rattle.hq_model.specs.Described.{scope_schema};

use hq_base::Txt;
use hq_copy_definition::CopyRefusal;
use hq_copy_tables::{Original, Source, kept_relationships};
use hq_model::{ColId, Described, RelId, TableId};
use std::alloc::Global;

// Whether a name begins as those of added columns do.
fn is_kept_name(name: &[u8]) -> bool
    ensures { result ≡ is_kept_name name.now }
{
    matches!(name, [a, b, c, ..] if *a == b'h' && *b == b'q' && *c == b'_')
}

/// The refusal of a name that is taken.
pub fn name_taken(alloc: Global, name: &Txt) -> CopyRefusal
    ensures { (result ≡ refusal.Memory) ⊎ (result ≡ refusal.NameTaken name.now) }
{
    match name.copy(alloc) {
        Ok(name) => CopyRefusal::NameTaken { name },
        Err(_) => CopyRefusal::Memory,
    }
}

// Refuses a name that begins as those of added columns do.
fn check_name(alloc: Global, name: &Txt) -> Result<(), CopyRefusal>
    ensures { Refuses (kept_name name.now) result }
{
    if is_kept_name(name.as_bytes()) {
        return Err(name_taken(alloc, name));
    }
    Ok(())
}

// Refuses the name of a column in the database.
fn check_column_name(
    alloc: Global,
    scope: &Described<'_>,
    t: TableId,
    c: ColId,
) -> Result<(), CopyRefusal>
    ensures { Refuses (kept_name (column (scope_schema scope.now) t c).name) result }
{
    match scope.column(t, c) {
        Some(column) => check_name(alloc, &column.name),
        None => Ok(()),
    }
}

// Refuses its name in GraphQL.
fn check_graphql_name(alloc: Global, names: &[Txt], c: ColId) -> Result<(), CopyRefusal>
    ensures { Refuses (kept_name (slice_index_or names.now c [])) result }
{
    match names.get(c.at()) {
        Some(name) => check_name(alloc, name),
        None => Ok(()),
    }
}

// Refuses a name of a copied column.
fn check_column(
    alloc: Global,
    scope: &Described<'_>,
    source: &Source<'_>,
    c: ColId,
) -> Result<(), CopyRefusal>
    ensures { Refuses (column_refusal (scope_schema scope.now) (source_view source.now) c) result }
{
    check_column_name(alloc, scope, source.entry.table, c)?;
    check_graphql_name(alloc, source.entry.column_names.as_slice(), c)
}

// Refuses the names of copied columns, the first first.
fn check_columns(
    alloc: Global,
    scope: &Described<'_>,
    source: &Source<'_>,
) -> Result<(), CopyRefusal>
    ensures { Refuses (first_of (column_refusal (scope_schema scope.now) (source_view source.now)) (source_view source.now).permission.columns) result }
{
    for c in source.permission.cols.as_slice() {
        check_column(alloc, scope, source, *c)?;
    }
    Ok(())
}

// Refuses the name of a relationship.
fn check_rel(alloc: Global, scope: &Described<'_>, t: TableId, r: RelId) -> Result<(), CopyRefusal>
    ensures { Refuses (kept_name (rel (scope_schema scope.now) t r).name) result }
{
    match scope.rel(t, r) {
        Some(rel) => check_name(alloc, &rel.name),
        None => Ok(()),
    }
}

// Refuses the names of relationships, the first first.
fn check_rels(
    alloc: Global,
    scope: &Described<'_>,
    t: TableId,
    rels: &[RelId],
) -> Result<(), CopyRefusal>
    ensures { Refuses (first_of (λ r. kept_name (rel (scope_schema scope.now) t r).name) rels.now) result }
{
    for r in rels {
        check_rel(alloc, scope, t, *r)?;
    }
    Ok(())
}

// Refuses the names of a table's copied columns, and then of its kept relationships.
fn check_own_names(
    alloc: Global,
    original: &Original<'_>,
    source: &Source<'_>,
) -> Result<(), CopyRefusal>
    ensures { Refuses (own_name_refusal (role_in original.now) (meta_in original.now) (schema_in original.now) (source_view source.now)) result }
{
    let scope = &original.scope;
    let t = source.entry.table;
    check_columns(alloc, scope, source)?;
    let kept = kept_relationships(alloc, scope, original.role, t)?;
    check_rels(alloc, scope, t, &kept)
}

/// Refuses the first name of the original that begins as those of added columns do.
pub fn check_kept_names(alloc: Global, original: &Original<'_>) -> Result<(), CopyRefusal>
    ensures { Refuses (first_of (own_name_refusal (role_in original.now) (meta_in original.now) (schema_in original.now)) (map source_view original.now.sources.now)) result }
{
    let sources = original.sources;
    for source in sources {
        check_own_names(alloc, original, source)?;
    }
    Ok(())
}
