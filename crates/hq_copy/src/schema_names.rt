//! Names that stand twice in the schema of a copy for `admin`: two types, or two root fields.
ghost use Rattle.std.specs.Prelude.{◌≡◌, ◌==◌, ◌++◌, ◌∷◌, [], IfOk, OnOk, cond, false, flat_map, map, filter, bytes_eq, option_copied};
ghost use Rattle.std.specs.List.{list_any};
ghost use Rattle.hq_base.specs.Aggregates.{aggregate_suffix};
ghost use Rattle.hq_base.specs.Text.{has_zero};
ghost use Rattle.hq_copy_definition.specs.Refusals.{first_of, like_type, repeated_after, scalar_refusal, schema_name_refusal};
ghost use Rattle.hq_copy.specs.Refused.{Refuses};
ghost use Rattle.hq_schema.specs.Fixed.{fixed_name};
ghost use Rattle.hq_schema.specs.Parts.{part_suffix};
ghost use Rattle.hq_model.specs.Meta.{MetaTree, meta_view, tracked_view};
ghost use Rattle.hq_model.specs.Names.{is_free_name};
ghost use Rattle.hq_model.specs.Permission.{named_columns};
ghost use Rattle.hq_model.specs.Schema.{column, schema_of};
ghost use Rattle.hq_model.specs.SchemaNames.{fixed_types, has_columns, is_aggregated, key_is_named, roots_of, scalar_of, table_types, types_of};

use crate::kept_names::name_taken;
use hq_base::{Aggregate, List, Memory, Txt, Ty};
use hq_copy_definition::CopyRefusal;
use hq_model::{ColId, Meta, Table, TableId, Tracked, TxtList, is_free_name};
use hq_schema::{Fixed, Part};
use std::alloc::Global;

// A name with an end, behind others.
fn push_end(alloc: Global, name: &Txt, end: &str, names: &mut TxtList) -> Result<(), Memory>
    requires { has_zero end.now ≡ false }
    ensures { OnOk result (names.new ≡ names.old ++ (name.now ++ end.now) ∷ []) }
{
    let mut text = name.copy(alloc)?;
    text.push_str(end)?;
    names.push(text)
}

// The names of these types.
fn names_of(alloc: Global, all: &[Fixed]) -> Result<TxtList, Memory>
    ensures { IfOk result (λ names. names ≡ map fixed_name all.now) }
{
    let none = Txt::new(alloc);
    let mut names = List::new(alloc);
    for fixed in all {
        push_end(alloc, &none, fixed.name(), &mut names)?;
    }
    Ok(names)
}

// The types that each schema has.
fn fixed_types(alloc: Global) -> Result<TxtList, Memory>
    ensures { IfOk result (λ names. names ≡ fixed_types) }
{
    names_of(alloc, &Fixed::all())
}

// The types of rows, or of aggregates, of a table of this name, behind others.
fn push_parts(alloc: Global, name: &Txt, parts: &[Part], names: &mut TxtList) -> Result<(), Memory>
    ensures { OnOk result (names.new ≡ names.old ++ map (λ p. name.now ++ part_suffix p) parts.now) }
{
    for part in parts {
        push_end(alloc, name, part.suffix(), names)?;
    }
    Ok(())
}

// The type of a column; text where there is none.
fn type_at(tables: &[Table], tracked: &Tracked, c: usize) -> Ty
    ensures { (m : MetaTree) → result ≡ (column (schema_of tables.now m) tracked.now.table c).ty }
{
    match tables.get(tracked.table.at()) {
        Some(table) => match table.columns.get(c) {
            Some(column) => column.ty,
            None => Ty::Text,
        },
        None => Ty::Text,
    }
}

// Whether an aggregate is one of the values of a column that has a GraphQL name.
fn is_aggregated(tables: &[Table], tracked: &Tracked, aggregate: Aggregate) -> bool
    ensures { (m : MetaTree) → result ≡ is_aggregated (schema_of tables.now m) (tracked_view tracked.now) aggregate }
{
    let names = tracked.column_names.as_slice();
    for (c, name) in names.iter().enumerate() {
        if is_free_name(name) && aggregate.is_of(type_at(tables, tracked, c)) {
            return true;
        }
    }
    false
}

// The types of what those of these aggregates give, behind others.
fn push_aggregated(
    alloc: Global,
    tables: &[Table],
    tracked: &Tracked,
    aggregates: &[Aggregate],
    names: &mut TxtList,
) -> Result<(), Memory>
    ensures { OnOk result
        ((m : MetaTree)
        → names.new
        ≡ names.old
        ++ map (λ a. tracked.now.name ++ aggregate_suffix a)
        (filter (is_aggregated (schema_of tables.now m) (tracked_view tracked.now)) aggregates.now)) }
{
    for aggregate in aggregates {
        if is_aggregated(tables, tracked, *aggregate) {
            push_end(alloc, &tracked.name, aggregate.type_suffix(), names)?;
        }
    }
    Ok(())
}

// Whether a column of the table has a GraphQL name.
fn has_columns(tracked: &Tracked) -> bool
    ensures { result ≡ has_columns (tracked_view tracked.now) }
{
    tracked
        .column_names
        .as_slice()
        .iter()
        .any(|name| is_free_name(name))
}

// The types of a table that stands in the schema, behind others.
fn push_table_types(
    alloc: Global,
    tables: &[Table],
    tracked: &Tracked,
    names: &mut TxtList,
) -> Result<(), Memory>
    ensures { OnOk result ((m : MetaTree) → names.new ≡ names.old ++ table_types (schema_of tables.now m) (tracked_view tracked.now)) }
{
    push_parts(alloc, &tracked.name, &Part::of_rows(), names)?;
    push_parts(alloc, &tracked.name, &Part::of_aggregates(), names)?;
    push_aggregated(alloc, tables, tracked, &Aggregate::all(), names)
}

// The types of a table, behind others.
fn push_types(
    alloc: Global,
    tables: &[Table],
    tracked: &Tracked,
    names: &mut TxtList,
) -> Result<(), Memory>
    ensures { OnOk result ((m : MetaTree) → names.new ≡ names.old ++ types_of (schema_of tables.now m) (tracked_view tracked.now)) }
{
    if !has_columns(tracked) {
        return Ok(());
    }
    push_table_types(alloc, tables, tracked, names)
}

// Whether a column has a GraphQL name.
fn is_named(tracked: &Tracked, c: ColId) -> bool
    ensures { result ≡ list_any (λ d. d == c) (named_columns (tracked_view tracked.now)) }
{
    match tracked.column_names.get(c.at()) {
        Some(name) => is_free_name(name),
        None => false,
    }
}

// Whether all columns of the key have GraphQL names.
fn key_is_named(tables: &[Table], tracked: &Tracked) -> bool
    ensures { (m : MetaTree) → result ≡ key_is_named (schema_of tables.now m) (tracked_view tracked.now) }
{
    match tables.get(tracked.table.at()) {
        Some(table) => table.key.as_slice().iter().all(|c| is_named(tracked, *c)),
        None => true,
    }
}

// The root fields of a table, behind others.
fn push_roots(
    alloc: Global,
    tables: &[Table],
    tracked: &Tracked,
    names: &mut TxtList,
) -> Result<(), Memory>
    ensures { OnOk result ((m : MetaTree) → names.new ≡ names.old ++ roots_of (schema_of tables.now m) (tracked_view tracked.now)) }
{
    if !has_columns(tracked) {
        return Ok(());
    }
    names.push(tracked.roots.select.copy(alloc)?)?;
    names.push(tracked.roots.select_aggregate.copy(alloc)?)?;
    if key_is_named(tables, tracked) {
        names.push(tracked.roots.select_by_pk.copy(alloc)?)?;
    }
    Ok(())
}

// The names of all types.
fn all_types(alloc: Global, tables: &[Table], meta: &Meta) -> Result<TxtList, Memory>
    ensures { IfOk result (λ names. (m : MetaTree) → names ≡ fixed_types ++ flat_map (types_of (schema_of tables.now m)) (meta_view meta.now).tracked) }
{
    let mut names = fixed_types(alloc)?;
    for tracked in meta.tracked.as_slice() {
        push_types(alloc, tables, tracked, &mut names)?;
    }
    Ok(names)
}

// The names of all root fields.
fn all_roots(alloc: Global, tables: &[Table], meta: &Meta) -> Result<TxtList, Memory>
    ensures { IfOk result (λ names. (m : MetaTree) → names ≡ flat_map (roots_of (schema_of tables.now m)) (meta_view meta.now).tracked) }
{
    let mut names = List::new(alloc);
    for tracked in meta.tracked.as_slice() {
        push_roots(alloc, tables, tracked, &mut names)?;
    }
    Ok(names)
}

// Whether a name is among these.
fn is_among(known: &[Txt], name: &Txt) -> bool
    ensures { result ≡ list_any (bytes_eq name.now) known.now }
{
    known.iter().any(|one| *name == *one)
}

// Refuses the first name that stands among those before it.
fn check_repeats(alloc: Global, names: &[Txt]) -> Result<(), CopyRefusal>
    ensures { Refuses (repeated_after [] names.now) result }
{
    for (at, name) in names.iter().enumerate() {
        if is_among(&names[..at], name) {
            return Err(name_taken(alloc, name));
        }
    }
    Ok(())
}

// Refuses a scalar that is named as one of these types.
fn check_unlike(alloc: Global, types: &[Txt], scalar: Option<&Txt>) -> Result<(), CopyRefusal>
    ensures { Refuses (like_type types.now (option_copied scalar.entry)) result }
{
    let Some(name) = scalar else {
        return Ok(());
    };
    if types.contains(name) {
        return Err(name_taken(alloc, name));
    }
    Ok(())
}

// The scalar of a column of a table, where it is opaque.
fn scalar_at<'a>(tables: &'a [Table], t: TableId, c: usize) -> Option<&'a Txt>
    ensures { (m : MetaTree) → option_copied result ≡ scalar_of (column (schema_of tables.now m) t c) }
{
    match tables.get(t.at()) {
        Some(table) => match table.columns.get(c) {
            Some(column) => column.scalar(),
            None => None,
        },
        None => None,
    }
}

// Refuses the scalar of a column that has a GraphQL name, where it is named as one of these types.
fn check_scalar(
    alloc: Global,
    tables: &[Table],
    types: &[Txt],
    t: TableId,
    c: usize,
    name: &Txt,
) -> Result<(), CopyRefusal>
    ensures { (m : MetaTree) → Refuses (cond (is_free_name name.now) (like_type types.now (scalar_of (column (schema_of tables.now m) t c))) None) result }
{
    if !is_free_name(name) {
        return Ok(());
    }
    check_unlike(alloc, types, scalar_at(tables, t, c))
}

// Refuses the scalars of a table's columns that have GraphQL names, the first first.
fn check_table_scalars(
    alloc: Global,
    tables: &[Table],
    types: &[Txt],
    tracked: &Tracked,
) -> Result<(), CopyRefusal>
    ensures { (m : MetaTree) → Refuses (scalar_refusal (schema_of tables.now m) types.now (tracked_view tracked.now)) result }
{
    let names = tracked.column_names.as_slice();
    for (c, name) in names.iter().enumerate() {
        check_scalar(alloc, tables, types, tracked.table, c, name)?;
    }
    Ok(())
}

// Refuses the first scalar of a column that is named as one of these types.
fn check_scalars(
    alloc: Global,
    tables: &[Table],
    meta: &Meta,
    types: &[Txt],
) -> Result<(), CopyRefusal>
    ensures { (m : MetaTree) → Refuses (first_of (scalar_refusal (schema_of tables.now m) types.now) (meta_view meta.now).tracked) result }
{
    for tracked in meta.tracked.as_slice() {
        check_table_scalars(alloc, tables, types, tracked)?;
    }
    Ok(())
}

/// Refuses the first name that two types, or two root fields, would have in the schema of these tables for `admin`, and then the
/// first scalar of a column that has the name of another type.
pub fn check_schema_names(alloc: Global, tables: &[Table], meta: &Meta) -> Result<(), CopyRefusal>
    ensures { Refuses (schema_name_refusal (schema_of tables.now (meta_view meta.now)) (meta_view meta.now)) result }
{
    let types = all_types(alloc, tables, meta)?;
    check_repeats(alloc, types.as_slice())?;
    let roots = all_roots(alloc, tables, meta)?;
    check_repeats(alloc, roots.as_slice())?;
    check_scalars(alloc, tables, meta, types.as_slice())
}
