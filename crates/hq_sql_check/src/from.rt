//! The columns of a table, and of the one row without a table.
ghost use Rattle.std.specs.Prelude.{◌≡◌, ◌∷◌, [], IfOk, MatchOption, map, true, false, Some, codes};
ghost use Rattle.std.specs.List.{list_any};
ghost use Rattle.hq_sql_tree.specs.WellFormed as well;
ghost use Rattle.hq_sql_tree.specs.WellFormed.{kind_of_type, table_names, is_table};
ghost use Rattle.hq_sql_check.specs.Scopes.{kind_view, name_view};

use crate::scope::{Kind, Name, only_name};
use hq_base::{Memory, Txt, Ty};
use hq_model::Table;
use std::alloc::Global;

// The kind of a column of this type.
fn kind_of(ty: Ty) -> Kind
    ensures { kind_view result ≡ kind_of_type ty }
{
    match ty {
        Ty::Integer | Ty::Bigint => Kind::Whole { of_column: true },
        Ty::Text => Kind::Text,
        Ty::Boolean => Kind::Truth,
        Ty::Uuid => Kind::Uuid,
        Ty::Opaque => Kind::Opaque,
    }
}

fn is_named(table: &Table, schema: &Txt, name: &Txt) -> bool
    ensures { result ≡ is_table schema.now name.now table.now }
{
    table.schema.as_bytes() == schema.as_bytes() && table.name.as_bytes() == name.as_bytes()
}

// The table of this name.
fn find_table<'d>(tables: &'d [Table], schema: &Txt, name: &Txt) -> Option<&'d Table>
    ensures { MatchOption result
        (list_any (is_table schema.now name.now) tables.now ≡ false)
        (λ table. (list_any (is_table schema.now name.now) tables.now ≡ true) × (table_names tables.now schema.now name.now ≡ map (λ c. (c.name, Some (kind_of_type c.ty))) table.now.columns)) }
{
    for table in tables {
        if is_named(table, schema, name) {
            return Some(table);
        }
    }
    None
}

// The columns of a table with their kinds.
fn column_names<'d>(alloc: Global, table: &'d Table) -> Result<Vec<Name<'d>>, Memory>
    ensures { IfOk result (λ names. map name_view names.items ≡ map (λ c. (c.name, Some (kind_of_type c.ty))) table.now.columns) }
{
    let mut names = Vec::with_capacity(alloc, table.columns.len())?;
    for column in table.columns.as_slice() {
        names.push(Name {
            name: column.name.as_str(),
            kind: Some(kind_of(column.ty)),
        })?;
    }
    Ok(names)
}

/// The columns of the table of this name, where the catalog has it.
#[inline(never)]
pub(crate) fn table_names<'d>(
    alloc: Global,
    tables: &'d [Table],
    schema: &Txt,
    name: &Txt,
) -> Result<Option<Vec<Name<'d>>>, Memory>
    ensures { IfOk result (λ found. MatchOption found
        (list_any (is_table schema.now name.now) tables.now ≡ false)
        (λ names. (list_any (is_table schema.now name.now) tables.now ≡ true) × (map name_view names.items ≡ table_names tables.now schema.now name.now))) }
{
    match find_table(tables, schema, name) {
        Some(table) => Ok(Some(column_names(alloc, table)?)),
        None => Ok(None),
    }
}

// The one column of the row without a table.
const TRUTH: &str = "u";

/// The column of the one row without a table.
#[inline(never)]
pub(crate) fn one_names<'d>(alloc: Global) -> Result<Vec<Name<'d>>, Memory>
    ensures { IfOk result (λ names. map name_view names.items ≡ (codes "u", Some well.truth) ∷ []) }
{
    let truth = Name {
        name: TRUTH,
        kind: Some(Kind::Truth),
    };
    only_name(alloc, truth)
}
