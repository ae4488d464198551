//! Columns as they are shown.
ghost use Rattle.std.specs.Prelude.{◌≡◌, IfOk, find, option_copied, ◌==◌};
ghost use Rattle.hq_model.specs.Schema.{table};
ghost use Rattle.hq_sql_tree.specs.Tree as tree;
ghost use Rattle.hq_sql_tree.specs.View.{expr_view};
ghost use Rattle.hq_translation.specs.Looks.{cell_at, compared_at, tested_at, shown_at};
ghost use Rattle.hq_compile_tables.specs.Contexts.{context_schema};
ghost use Rattle.hq_compile_tables.specs.Shown.{look_in, look_of};

use crate::Context;
use crate::columns::{column_at, compared_form, shown_form, tested_form, type_in, value_at};
use hq_base::{List, Memory};
use hq_model::{ColId, Column, TableId, Test};
use hq_sql_tree::{ColumnForm, Expr};
use std::alloc::Global;

/// A masked column, and the number of the join that shows it.
#[derive(Clone, Copy)]
pub struct MaskPlace {
    pub col: ColId,
    pub number: u64,
}

/// Masked columns of an alias.
pub type MaskPlaceList = List<MaskPlace>;

/// A table's columns at the alias of a number, some of which joins show.
#[derive(Clone, Copy)]
pub struct Shown<'a> {
    pub columns: &'a [Column],
    pub number: u64,
    pub places: &'a [MaskPlace],
}

/// The columns of table t at the alias of this number, some of which joins show.
pub fn table_shown<'a>(
    context: &Context<'a>,
    t: TableId,
    number: u64,
    places: &'a [MaskPlace],
) -> Shown<'a>
    ensures columns { result.columns.now ≡ (table (context_schema context.now) t).columns }
    ensures number { result.number ≡ number }
    ensures places { result.places.now ≡ places.now }
{
    Shown {
        columns: context.columns(t),
        number,
        places,
    }
}

fn place_of(places: &[MaskPlace], column: ColId) -> Option<&MaskPlace>
    ensures { option_copied result ≡ find (λ x. x.col == column) places.now }
{
    places.iter().find(|place| place.col.at() == column.at())
}

/// A column where it is shown, in this form.
pub fn shown_in(
    alloc: Global,
    shown: &Shown,
    column: ColId,
    form: ColumnForm,
) -> Result<Expr, Memory>
    ensures { IfOk result (λ e. expr_view e ≡ tree.column (look_of shown.now column).alias (look_of shown.now column).name form) }
{
    match place_of(shown.places, column) {
        Some(place) => value_at(alloc, place.number, form),
        None => column_at(alloc, shown.columns, shown.number, column, form),
    }
}

/// A column of table t at the alias of this number, some of whose columns joins show, in this form.
pub fn table_column(
    alloc: Global,
    context: &Context,
    t: TableId,
    number: u64,
    places: &[MaskPlace],
    column: ColId,
    form: ColumnForm,
) -> Result<Expr, Memory>
    ensures { let place = look_in places.now (table (context_schema context.now) t).columns number column in
        IfOk result (λ e. expr_view e ≡ tree.column place.alias place.name form) }
{
    let shown = table_shown(context, t, number, places);
    shown_in(alloc, &shown, column, form)
}

/// The cell of a column where it is shown, as it is passed on.
pub fn shown_column(alloc: Global, shown: &Shown, column: ColId) -> Result<Expr, Memory>
    ensures { IfOk result (λ e. expr_view e ≡ cell_at (look_of shown.now column)) }
{
    shown_in(alloc, shown, column, ColumnForm::Plain)
}

/// A column of table t at the alias of this number, some of whose columns joins show, as it is shown.
pub fn table_shown_column(
    alloc: Global,
    context: &Context,
    t: TableId,
    number: u64,
    places: &[MaskPlace],
    column: ColId,
) -> Result<Expr, Memory>
    ensures { let columns = (table (context_schema context.now) t).columns in
        IfOk result (λ e. expr_view e ≡ shown_at columns (look_in places.now columns number column) column) }
{
    let form = shown_form(type_in(context.columns(t), column));
    table_column(alloc, context, t, number, places, column, form)
}

/// The same column, as it is compared.
pub fn compared_shown(alloc: Global, shown: &Shown, column: ColId) -> Result<Expr, Memory>
    ensures { IfOk result (λ e. expr_view e ≡ compared_at shown.now.columns.now (look_of shown.now column) column) }
{
    let form = compared_form(type_in(shown.columns, column));
    shown_in(alloc, shown, column, form)
}

/// The same column, as a test looks at it.
pub(crate) fn tested_shown(
    alloc: Global,
    shown: &Shown,
    column: ColId,
    test: Test,
) -> Result<Expr, Memory>
    ensures { IfOk result (λ e. expr_view e ≡ tested_at shown.now.columns.now (look_of shown.now column) column test) }
{
    let form = tested_form(test, type_in(shown.columns, column));
    shown_in(alloc, shown, column, form)
}
