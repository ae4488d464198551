//! The columns of a table of a copy.
ghost use Rattle.std.specs.Prelude.{◌≡◌, ◌++◌, IfOk, OnOk, map};
ghost use Rattle.hq_copy_definition.specs.Extras.{extra_column};
ghost use Rattle.hq_copy_definition.specs.Tables.{copied_column, copied_columns};
ghost use Rattle.hq_copy_tables.specs.Originals.{IsOriginal, meta_in, role_in, schema_in};
ghost use Rattle.hq_copy_tables.specs.Views.{extra_view, source_view};
ghost use Rattle.hq_model.specs.PermView.{permission_view};
ghost use Rattle.hq_model.specs.Schema.{column};
ghost use Rattle.hq_model.specs.Described.{scope_schema};

use crate::extras::{Extra, extra_column, extras_of};
use crate::{Original, Source, has_mask};
use hq_base::{List, Memory, Txt, Ty};
use hq_model::{ColId, Column, ColumnList, Described, PermView, TableId, TryCopy};
use std::alloc::Global;

// A column of a table: a nullable text of no name where it is not there.
fn column_at(alloc: Global, scope: &Described<'_>, t: TableId, c: ColId) -> Result<Column, Memory>
    ensures { IfOk result (λ found. found ≡ column (scope_schema scope.now) t c) }
{
    match scope.column(t, c) {
        Some(column) => column.try_copy(alloc),
        None => Ok(Column {
            name: Txt::new(alloc),
            ty: Ty::Text,
            of: Txt::new(alloc),
            nullable: true,
        }),
    }
}

// A permitted column: it may hold NULL also where it shows in some rows only.
fn copied_column(
    alloc: Global,
    scope: &Described<'_>,
    permission: &PermView,
    t: TableId,
    c: ColId,
) -> Result<Column, Memory>
    ensures { IfOk result (λ copied. copied ≡ copied_column (scope_schema scope.now) (permission_view permission.now) t c) }
{
    let Column {
        name,
        ty,
        of,
        nullable,
    } = column_at(alloc, scope, t, c)?;
    Ok(Column {
        name,
        ty,
        of,
        nullable: nullable || has_mask(permission, c),
    })
}

// The permitted columns.
fn permitted_columns(
    alloc: Global,
    scope: &Described<'_>,
    source: &Source<'_>,
) -> Result<ColumnList, Memory>
    ensures { IfOk result
        (λ columns. columns
        ≡ map (copied_column (scope_schema scope.now) (source_view source.now).permission (source_view source.now).entry.table)
        (source_view source.now).permission.columns) }
{
    let t = source.entry.table;
    let mut columns = List::new(alloc);
    for c in source.permission.cols.as_slice() {
        columns.push(copied_column(alloc, scope, &source.permission, t, *c)?)?;
    }
    Ok(columns)
}

// Puts added columns behind others.
fn push_extras(alloc: Global, extras: &[Extra], columns: &mut ColumnList) -> Result<(), Memory>
    ensures { OnOk result (columns.new ≡ columns.old ++ map extra_column (map extra_view extras.now)) }
{
    for extra in extras {
        columns.push(extra_column(alloc, *extra)?)?;
    }
    Ok(())
}

/// The permitted columns of a table in the catalog's order, and behind them the added ones.
pub(crate) fn copied_columns(
    alloc: Global,
    original: &Original<'_>,
    source: &Source<'_>,
) -> Result<ColumnList, Memory>
    requires { IsOriginal original.now }
    ensures { IfOk result (λ columns. columns ≡ copied_columns (role_in original.now) (meta_in original.now) (schema_in original.now) (source_view source.now)) }
{
    let mut columns = permitted_columns(alloc, &original.scope, source)?;
    let extras = extras_of(alloc, original, source)?;
    push_extras(alloc, &extras, &mut columns)?;
    Ok(columns)
}
