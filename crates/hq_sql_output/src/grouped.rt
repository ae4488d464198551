//! Aggregates over columns of a FROM without joins: they are taken at the places of its rows, and no rows are made.
ghost use Rattle.std.specs.Prelude.{◌≡◌, ◌++◌, [], map, IfOk, IfSome, OnOk};
ghost use Rattle.hq_load_index.specs.Keys.{cell_in};
ghost use Rattle.hq_sql_cells.specs.View.{cell_view};
ghost use Rattle.hq_sql_tree.specs.Meaning.{cell_named, taken, value};
ghost use Rattle.hq_sql_tree.specs.View.{agg_view, expr_view, pair_view};
ghost use Rattle.hq_sql_access.specs.View.{names_of, row_in, world_of};
ghost use Rattle.hq_sql_output.specs.Grouped.{AreRows, IsColumn, group_at};
ghost use Rattle.hq_sql_output.specs.TableRows.{values_at};
ghost use Rattle.hq_sql_output.specs.Texts.{grouped_text, lent_fold, pairs_text};

use crate::listed::{output_of, rows_in};
use crate::parts::{put_cell, put_separator};
use crate::places::{Placed, placed_rows, places_of};
use crate::table_rows::{TableRows, column_named, table_rows};
use hq_base::{Bytes, Memory, Txt, put_quoted};
use hq_model::ColId;
use hq_sql_access::pinned::Pinned;
use hq_sql_access::place::JoinedRow;
use hq_sql_access::row::cell_at;
use hq_sql_access::scope::{Group, Scope, Source, alias_of, row_at};
use hq_sql_access::stages::stages;
use hq_sql_cells::{Cell, aggregated, counted};
use hq_sql_constants::cell_in;
use hq_sql_scans::links::own_name;
use hq_sql_select::{made_of, rows, value};
use hq_sql_tree::{Agg, Expr, ExprPairList, Out, Select};
use std::alloc::Global;

/// The rows of a select under an alias, as places.
#[derive(Clone, Copy)]
pub struct Grouped<'s, 'd> {
    pub outs: &'d [Out],
    pub alias: &'d Txt,
    pub placed: Placed<'s, 'd>,
    pub places: &'s [JoinedRow<'d>],
}

// The cells of a name in the rows of a FROM.
fn cells_named<'d>(
    alloc: Global,
    name: &Txt,
    source: Source<'_, 'd>,
    places: &[JoinedRow<'d>],
) -> Result<Vec<Cell<'d>>, Memory>
    ensures { IfOk result (λ cells. map cell_view cells.items ≡ map (λ p. cell_named (row_in source.entry p.position) name.now) places.now) }
{
    let mut cells = Vec::with_capacity(alloc, places.len())?;
    for place in places {
        let row = row_at(source, place.position);
        cells.push(cell_at(alloc, row, name)?)?;
    }
    Ok(cells)
}

// The cells in a column of a table.
fn cells_in<'d>(
    alloc: Global,
    column: ColId,
    table: &TableRows<'d>,
    places: &[JoinedRow<'d>],
) -> Result<Vec<Cell<'d>>, Memory>
    ensures { IfOk result (λ cells. map cell_view cells.items ≡ map (λ p. cell_in (values_at table.now p.position) column) places.now) }
{
    let mut cells = Vec::with_capacity(alloc, places.len())?;
    for place in places {
        cells.push(cell_in(table.rows.row(place.position), column))?;
    }
    Ok(cells)
}

// The cells of a column of FROM, which is found once where it is a table's.
fn cells_of<'d>(
    alloc: Global,
    name: &Txt,
    placed: &Placed<'_, 'd>,
    places: &[JoinedRow<'d>],
) -> Result<Vec<Cell<'d>>, Memory>
    ensures { IfOk result (λ cells. map cell_view cells.items ≡ map (λ p. cell_named (row_in placed.now.source p.position) name.now) places.now) }
{
    let Some(table) = table_rows(placed.source) else {
        return cells_named(alloc, name, placed.source, places);
    };
    match column_named(table.columns, name) {
        Some(column) => cells_in(alloc, column, &table, places),
        None => cells_named(alloc, name, placed.source, places),
    }
}

// The name of the column of FROM that an expression over the rows stands for, where no join stands beside FROM.
#[tactic(auto, using(crate::proofs::Groups::column_over))]
fn column_in<'d>(expr: &Expr, group: &Grouped<'_, 'd>) -> Option<&'d Txt>
    ensures { IfSome result (λ name. IsColumn (expr_view expr.now) group.now name.now) }
{
    if !group.placed.joins.is_empty() {
        return None;
    }
    let element = output_of(expr, group.alias, group.outs)?;
    own_name(element, group.placed.alias)
}

// The values of an expression over the rows, where it is a column of FROM.
fn values_of<'d>(
    alloc: Global,
    expr: &Expr,
    group: &Grouped<'_, 'd>,
    world: &Pinned<'d>,
    scope: &Scope<'_, 'd>,
) -> Result<Option<Vec<Cell<'d>>>, Memory>
    ensures { IfOk result (λ found. IfSome found (λ cells. map cell_view cells.items ≡ map (value (expr_view expr.now) []) (group_at group.now world.now scope.now))) }
{
    match column_in(expr, group) {
        Some(name) => Ok(Some(cells_of(alloc, name, &group.placed, group.places)?)),
        None => Ok(None),
    }
}

// An aggregate over the rows, where it is one over a column of FROM.
fn taken_at<'d>(
    alloc: Global,
    agg: &Agg,
    group: &Grouped<'_, 'd>,
    world: &Pinned<'d>,
    scope: &Scope<'_, 'd>,
) -> Result<Option<Cell<'d>>, Memory>
    ensures { IfOk result (λ found. IfSome found (λ cell. cell_view cell ≡ taken (agg_view agg.now) (group_at group.now world.now scope.now))) }
{
    match agg {
        Agg::CountAll => Ok(Some(Cell::Int(group.places.len() as i128))),
        Agg::Count {
            value: expr,
            distinct,
        } => match values_of(alloc, expr, group, world, scope)? {
            Some(cells) => Ok(Some(counted(alloc, *distinct, cells)?)),
            None => Ok(None),
        },
        Agg::Take {
            aggregate,
            value: expr,
        } => match values_of(alloc, expr, group, world, scope)? {
            Some(cells) => Ok(Some(aggregated(*aggregate, cells)?)),
            None => Ok(None),
        },
        Agg::JsonAgg { .. } => Ok(None),
    }
}

// Whether an expression over the rows is a column of FROM.
fn is_column(expr: &Expr, alias: &Txt, outs: &[Out], from: &Txt) -> bool {
    match output_of(expr, alias, outs) {
        Some(element) => own_name(element, from).is_some(),
        None => false,
    }
}

// Whether an aggregate is one over a column of FROM, or counts the rows.
fn is_plain(agg: &Agg, alias: &Txt, outs: &[Out], from: &Txt) -> bool {
    match agg {
        Agg::CountAll => true,
        Agg::Count { value, .. } => is_column(value, alias, outs, from),
        Agg::Take { value, .. } => is_column(value, alias, outs, from),
        Agg::JsonAgg { .. } => false,
    }
}

// Whether an expression is made of such aggregates alone.
fn is_summary(expr: &Expr, alias: &Txt, outs: &[Out], from: &Txt) -> bool {
    match expr {
        Expr::Object(pairs) => {
            for pair in pairs {
                if !is_summary(&pair.value, alias, outs, from) {
                    return false;
                }
            }
            true
        }
        Expr::Agg(agg) => is_plain(agg, alias, outs, from),
        Expr::Column { .. } | Expr::Int(_) | Expr::Text(_) | Expr::Uuid(_) | Expr::Bool(_) => false,
    }
}

/// An expression whose aggregates are taken over the rows of a select.
pub fn write_fold<'d>(
    alloc: Global,
    expr: &'d Expr,
    select: &'d Select,
    alias: &'d Txt,
    world: &Pinned<'d>,
    scope: &Scope<'_, 'd>,
    out: &mut Bytes,
) -> Result<(), Memory>
    ensures { OnOk result (out.new ≡ out.old ++ lent_fold expr.now select.now alias.now world.now scope.now) }
{
    let Some(rows) = rows_in(select) else {
        return write_made(alloc, expr, select, alias, world, scope, out);
    };
    let outs = rows.parts.outs.as_slice();
    if !rows.joins.is_empty() || !is_summary(expr, alias, outs, alias_of(rows.from)) {
        return write_made(alloc, expr, select, alias, world, scope, out);
    }
    let made = made_of(alloc, rows.from, world, scope)?;
    let stages = stages(alloc, rows.parts, rows.joins)?;
    let placed = placed_rows(&rows, &made, &stages, world);
    let places = places_of(alloc, &rows, &placed, world, &*scope)?;
    let group = Grouped {
        outs,
        alias,
        placed,
        places: places.as_slice(),
    };
    write_grouped(alloc, expr, &group, select, world, scope, out)
}

// The same where the rows are made.
fn write_made<'d>(
    alloc: Global,
    expr: &'d Expr,
    select: &'d Select,
    alias: &'d Txt,
    world: &Pinned<'d>,
    scope: &Scope<'_, 'd>,
    out: &mut Bytes,
) -> Result<(), Memory>
    ensures { OnOk result (out.new ≡ out.old ++ lent_fold expr.now select.now alias.now world.now scope.now) }
{
    let made = rows(alloc, select, world, scope)?;
    let group = Group::Of { alias, rows: &made };
    let cell = value(alloc, expr, world, group, scope)?;
    put_cell(alloc, out, &cell)
}

// The same where the rows are at places; they are made for an aggregate that is not one over a column of FROM.
#[cycle(grouped)]
fn write_grouped<'d>(
    alloc: Global,
    expr: &'d Expr,
    group: &Grouped<'_, 'd>,
    select: &'d Select,
    world: &Pinned<'d>,
    scope: &Scope<'_, 'd>,
    out: &mut Bytes,
) -> Result<(), Memory>
    requires { AreRows group.now select.now (world_of world.now) (names_of scope.now world.now) }
    ensures { OnOk result (out.new ≡ out.old ++ grouped_text (expr_view expr.now) (group_at group.now world.now scope.now) (names_of scope.now world.now)) }
{
    match expr {
        Expr::Object(pairs) => {
            out.push(b'{')?;
            write_pairs(alloc, pairs, group, select, world, scope, out)?;
            out.push(b'}')
        }
        Expr::Agg(agg) => match taken_at(alloc, agg, group, world, scope)? {
            Some(cell) => put_cell(alloc, out, &cell),
            None => write_made(alloc, expr, select, group.alias, world, scope, out),
        },
        _ => write_made(alloc, expr, select, group.alias, world, scope, out),
    }
}

// The pairs of an object, between its braces.
#[cycle(grouped)]
fn write_pairs<'d>(
    alloc: Global,
    pairs: &'d ExprPairList,
    group: &Grouped<'_, 'd>,
    select: &'d Select,
    world: &Pinned<'d>,
    scope: &Scope<'_, 'd>,
    out: &mut Bytes,
) -> Result<(), Memory>
    requires { AreRows group.now select.now (world_of world.now) (names_of scope.now world.now) }
    ensures { OnOk result (out.new ≡ out.old ++ pairs_text (map pair_view pairs.now.items) (group_at group.now world.now scope.now) (names_of scope.now world.now)) }
{
    for (at, pair) in pairs.iter().enumerate() {
        put_separator(out, false, at)?;
        put_quoted(out, &pair.name)?;
        out.push(b':')?;
        write_grouped(alloc, &pair.value, group, select, world, scope, out)?;
    }
    Ok(())
}
