//! Where the cell of a column comes from.
ghost use Rattle.std.specs.Prelude.{◌≡◌, ◌&&◌, IfOk, map, bytes_eq};
ghost use Rattle.std.specs.List.{position};
ghost use Rattle.hq_model.specs.Schema.{table};
ghost use Rattle.hq_sql_tree.specs.View.{expr_view, out_view};
ghost use Rattle.hq_confine_rules.specs.Origins.{column_place, table_place, output_named, origin_at, origin, output_origins, same_path, is_of, behind, column_of};
ghost use Rattle.hq_confine_uses.specs.Views.{texts, path_view, origin_view, passed_view, output_view, shapes_view, rules_schema};

use crate::known::Rules;
use crate::scope::{Output, Passed, Shape, Shapes, shape_at};
use hq_base::{Memory, Txt};
use hq_model::{Column, Table};
use hq_sql_tree::{Expr, OutList};
use std::alloc::Global;

/// A path of aliases to a scan: the nearest one, and those behind it.
#[derive(Clone, Copy)]
pub(crate) struct Path<'s, 'd> {
    pub first: &'d Txt,
    pub rest: &'s [&'d Txt],
}

/// The cell of a column of the scan at the end of a path: its table and the column by their places.
#[derive(Clone, Copy)]
pub(crate) struct Cell<'s, 'd> {
    pub table: usize,
    pub path: Path<'s, 'd>,
    pub column: usize,
}

fn column_among(columns: &[Column], name: &Txt) -> Option<usize>
    ensures { result ≡ position (λ c. bytes_eq c.name name.now) columns.now }
{
    columns
        .iter()
        .position(|c| c.name.as_bytes() == name.as_bytes())
}

/// The place of a table's column of this name.
pub fn column_place(rules: &Rules<'_>, t: usize, name: &Txt) -> Option<usize>
    ensures { result ≡ column_place (rules_schema rules.now) t name.now }
{
    column_among(rules.columns(t), name)
}

fn table_among(tables: &[Table], schema: &Txt, name: &Txt) -> Option<usize>
    ensures { result ≡ position (λ t. bytes_eq t.schema schema.now && bytes_eq t.name name.now) tables.now }
{
    tables.iter().position(|t| {
        t.schema.as_bytes() == schema.as_bytes() && t.name.as_bytes() == name.as_bytes()
    })
}

/// The place of the table of this name; beyond the tables where there is none.
pub fn table_place(rules: &Rules<'_>, schema: &Txt, name: &Txt) -> usize
    ensures { result ≡ table_place (rules_schema rules.now) schema.now name.now }
{
    let tables = rules.scope.catalog.tables.as_slice();
    match table_among(tables, schema, name) {
        Some(place) => place,
        None => tables.len(),
    }
}

// The cell of a column of the scan of this alias.
fn column_of<'s, 'd>(t: usize, alias: &'d Txt, column: Option<usize>) -> Option<Cell<'s, 'd>>
    ensures { origin_view result ≡ column_of t alias.now column }
{
    match column {
        None => None,
        Some(column) => Some(Cell {
            table: t,
            path: Path {
                first: alias,
                rest: &[],
            },
            column,
        }),
    }
}

// The cell that an alias passes on.
fn behind<'s, 'd>(alias: &'d Txt, passed: &'s Option<Passed<'d>>) -> Option<Cell<'s, 'd>>
    ensures { origin_view result ≡ behind alias.now (passed_view passed.now) }
{
    match passed {
        None => None,
        Some(cell) => Some(Cell {
            table: cell.table,
            path: Path {
                first: alias,
                rest: &cell.path,
            },
            column: cell.column,
        }),
    }
}

// A cell that outputs pass on by an alias.
fn output_behind<'s, 'd>(
    outputs: &'s [Output<'d>],
    alias: &'d Txt,
    name: &Txt,
) -> Option<Cell<'s, 'd>>
    ensures { origin_view result ≡ behind alias.now (output_named (map output_view outputs.now) name.now) }
{
    for output in outputs {
        if *output.name == *name {
            return behind(alias, &output.origin);
        }
    }
    None
}

/// The cell of a name of an alias; none where the statement makes its value.
pub(crate) fn origin_at<'s, 'd>(
    rules: &Rules<'_>,
    scope: &Shapes<'s, 'd>,
    alias: &'d Txt,
    name: &Txt,
) -> Option<Cell<'s, 'd>>
    ensures { origin_view result ≡ origin_at (rules_schema rules.now) (shapes_view scope.now) alias.now name.now }
{
    match shape_at(*scope, alias) {
        None => None,
        Some(Shape::Scan(t)) => column_of(*t, alias, column_place(rules, *t, name)),
        Some(Shape::Outputs(outputs)) => output_behind(outputs, alias, name),
    }
}

/// The cell of an expression; none where the statement makes its value.
pub(crate) fn origin<'s, 'd>(
    rules: &Rules<'_>,
    scope: &Shapes<'s, 'd>,
    expr: &'d Expr,
) -> Option<Cell<'s, 'd>>
    ensures { origin_view result ≡ origin (rules_schema rules.now) (shapes_view scope.now) (expr_view expr.now) }
{
    match expr {
        Expr::Column { alias, name, .. } => { origin_at(rules, scope, alias, name) }
        Expr::Int(_)
        | Expr::Text(_)
        | Expr::Uuid(_)
        | Expr::Bool(_)
        | Expr::Object(_)
        | Expr::Agg(_) => None,
    }
}

// The aliases of a path as a list of their own.
fn path_list<'d>(alloc: Global, path: Path<'_, 'd>) -> Result<Vec<&'d Txt>, Memory>
    ensures { IfOk result (λ aliases. texts aliases.items ≡ path_view path.entry) }
{
    let mut aliases = Vec::new(alloc);
    aliases.push(path.first)?;
    for alias in path.rest {
        aliases.push(*alias)?;
    }
    Ok(aliases)
}

// The same cell, kept for what stands behind an alias.
fn kept_cell<'d>(alloc: Global, cell: Option<Cell<'_, 'd>>) -> Result<Option<Passed<'d>>, Memory>
    ensures { IfOk result (λ passed. passed_view passed ≡ origin_view cell.entry) }
{
    match cell {
        None => Ok(None),
        Some(cell) => {
            let path = path_list(alloc, cell.path)?;
            Ok(Some(Passed {
                table: cell.table,
                path,
                column: cell.column,
            }))
        }
    }
}

/// The outputs of a select, each with the cell that it passes on.
#[inline(never)]
pub fn output_origins<'d>(
    alloc: Global,
    rules: &Rules<'_>,
    scope: &Shapes<'_, 'd>,
    outs: &'d OutList,
) -> Result<Vec<Output<'d>>, Memory>
    ensures { IfOk result (λ outputs. map output_view outputs.items ≡ output_origins (rules_schema rules.now) (shapes_view scope.now) (map out_view outs.now.items)) }
{
    let mut outputs = Vec::new(alloc);
    for out in outs {
        let origin = kept_cell(alloc, origin(rules, scope, &out.value))?;
        outputs.push(Output {
            name: &out.name,
            origin,
        })?;
    }
    Ok(outputs)
}

// Whether aliases are the same, one by one.
fn same_aliases(one: &[&Txt], other: &[&Txt]) -> bool
    ensures { result ≡ same_path (texts one.now) (texts other.now) }
{
    if one.len() != other.len() {
        return false;
    }
    for (at, alias) in one.iter().enumerate() {
        if **alias != *other[at] {
            return false;
        }
    }
    true
}

// Whether two paths are the same.
fn same_path(one: &Path<'_, '_>, other: &Path<'_, '_>) -> bool
    ensures { result ≡ same_path (path_view one.now) (path_view other.now) }
{
    *one.first == *other.first && same_aliases(one.rest, other.rest)
}

/// Whether it is the cell of this column of the scan at the end of this path.
pub(crate) fn is_of(
    cell: &Option<Cell<'_, '_>>,
    t: usize,
    path: &Path<'_, '_>,
    column: usize,
) -> bool
    ensures { result ≡ is_of t (path_view path.now) column (origin_view cell.now) }
{
    match cell {
        None => false,
        Some(cell) => { cell.table == t && (cell.column == column && same_path(&cell.path, path)) }
    }
}
