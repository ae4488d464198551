//! Columns at an alias.
ghost use Rattle.std.specs.Prelude.{◌≡◌, [], IfOk, OnOk};
ghost use Rattle.hq_sql_tree.specs.Tree as tree;
ghost use Rattle.hq_sql_tree.specs.View.{expr_view};
ghost use Rattle.hq_translation.specs.Looks.{name_of, shown_form, compared_form, tested_form, own_look, cell_at, compared_at, is_used, add_new, add_all, type_in};
ghost use Rattle.hq_translation.specs.Masks.{value_place};

use crate::{join_alias, table_alias, value_name};
use hq_base::{List, Memory, Txt, Ty};
use hq_model::{ColId, ColList, Column, Test};
use hq_sql_tree::{ColumnForm, Expr};
use std::alloc::Global;

// The name of a column; empty beyond the table's columns.
fn name_of(alloc: Global, columns: &[Column], column: ColId) -> Result<Txt, Memory>
    ensures { IfOk result (λ name. name ≡ name_of columns.now column) }
{
    match columns.get(column.at()) {
        Some(found) => found.name.copy(alloc),
        None => Ok(Txt::new(alloc)),
    }
}

/// The type of a column; text beyond the table's columns.
pub fn type_in(columns: &[Column], column: ColId) -> Ty
    ensures { result ≡ type_in columns.now column }
{
    match columns.get(column.at()) {
        Some(found) => found.ty,
        None => Ty::Text,
    }
}

/// How a column of this type is shown: one of another type of PostgreSQL by its text.
pub fn shown_form(ty: Ty) -> ColumnForm
    ensures { result ≡ shown_form ty }
{
    match ty {
        Ty::Opaque => ColumnForm::AsText,
        Ty::Integer | Ty::Bigint | Ty::Text | Ty::Boolean | Ty::Uuid => ColumnForm::Plain,
    }
}

/// How a column of this type is compared: texts by COLLATE "C".
pub fn compared_form(ty: Ty) -> ColumnForm
    ensures { result ≡ compared_form ty }
{
    match ty {
        Ty::Text => ColumnForm::Collated,
        Ty::Opaque => ColumnForm::AsTextCollated,
        Ty::Integer | Ty::Bigint | Ty::Boolean | Ty::Uuid => ColumnForm::Plain,
    }
}

/// How a test looks at a column of this type.
pub(crate) fn tested_form(test: Test, ty: Ty) -> ColumnForm
    ensures { result ≡ tested_form test ty }
{
    match test {
        Test::IsNull => shown_form(ty),
        _ => compared_form(ty),
    }
}

/// A column of a table's rows at the alias of this number, in this form.
pub fn column_at(
    alloc: Global,
    columns: &[Column],
    number: u64,
    column: ColId,
    form: ColumnForm,
) -> Result<Expr, Memory>
    ensures { IfOk result (λ e. expr_view e ≡ tree.column (own_look columns.now number column).alias (own_look columns.now number column).name form) }
{
    let alias = table_alias(alloc, number)?;
    let name = name_of(alloc, columns, column)?;
    Ok(Expr::Column { alias, name, form })
}

/// A column of a table's rows at the alias of this number.
pub fn own_column(
    alloc: Global,
    columns: &[Column],
    number: u64,
    column: ColId,
) -> Result<Expr, Memory>
    ensures { IfOk result (λ e. expr_view e ≡ cell_at (own_look columns.now number column)) }
{
    column_at(alloc, columns, number, column, ColumnForm::Plain)
}

/// The same column, as it is compared.
pub fn compared_column(
    alloc: Global,
    columns: &[Column],
    number: u64,
    column: ColId,
) -> Result<Expr, Memory>
    ensures { IfOk result (λ e. expr_view e ≡ compared_at columns.now (own_look columns.now number column) column) }
{
    let form = compared_form(type_in(columns, column));
    column_at(alloc, columns, number, column, form)
}

/// The value that the join of this number gives, in this form.
pub fn value_at(alloc: Global, number: u64, form: ColumnForm) -> Result<Expr, Memory>
    ensures { IfOk result (λ e. expr_view e ≡ tree.column (value_place number).alias (value_place number).name form) }
{
    let alias = join_alias(alloc, number)?;
    let name = value_name(alloc)?;
    Ok(Expr::Column { alias, name, form })
}

/// The value that the join of this number gives.
pub fn value_column(alloc: Global, number: u64) -> Result<Expr, Memory>
    ensures { IfOk result (λ e. expr_view e ≡ cell_at (value_place number)) }
{
    value_at(alloc, number, ColumnForm::Plain)
}

/// Whether a column is among these.
pub fn is_used(column: ColId, columns: &[ColId]) -> bool
    ensures { result ≡ is_used column columns.now }
{
    columns.iter().any(|other| column.at() == other.at())
}

/// A column behind others, where it is not among them.
pub fn add_new(column: ColId, columns: &mut ColList) -> Result<(), Memory>
    ensures { OnOk result (columns.new ≡ add_new column columns.old) }
{
    if is_used(column, columns.as_slice()) {
        return Ok(());
    }
    columns.push(column)?;
    Ok(())
}

/// Columns, each once, in order of first occurrence.
pub fn each_once(alloc: Global, columns: &[ColId]) -> Result<ColList, Memory>
    ensures { IfOk result (λ once. once ≡ add_all columns.now []) }
{
    let mut once = List::new(alloc);
    for column in columns {
        add_new(*column, &mut once)?;
    }
    Ok(once)
}
