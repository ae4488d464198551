//! The truth of a bound filter at a row, over all of a database (Hasura, boolean expressions).
ghost use Rattle.std.specs.Prelude.{◌≡◌, map, IfOk};
ghost use Rattle.std.specs.List.{list_any};
ghost use Rattle.hq_copy_filter.specs.Kept.{is_met, some_kept};
ghost use Rattle.hq_copy_filter.specs.Lent.{database_of};
ghost use Rattle.hq_sql_cells.specs.View.{cell_view};
ghost use Rattle.hq_model.specs.Bexp.{bexp_view, bexps_of, operands_of};
ghost use Rattle.hq_model.specs.Logic.{compared, negated_if, truth_of};
ghost use Rattle.hq_model.specs.Schema.{rel};
ghost use Rattle.hq_model.specs.Described.{scope_schema};
ghost use Rattle.hq_model.specs.Seen.{all_of};
ghost use Rattle.hq_model.specs.Tests.{test_truth};
ghost use Rattle.hq_model.specs.Truth.{operand_cell, truth, truth_of_all, truth_of_any};

use crate::cells::{are_linked, cell_at};
use crate::loaded::rows_at;
use hq_base::{Memory, Val};
use hq_load_tables::Rows;
use hq_model::{
    Bexp, BexpList, Described, Op, Operand, Operands, Pair, RelId, TableId, Test, Truth,
};
use hq_sql_cells::{Cell, test_truth};
use std::alloc::Global;
use std::slice;

// The cell of an operand; a session variable that is not bound is NULL.
fn operand_cell(operand: &Operand) -> Cell<'_>
    ensures { cell_view result ≡ operand_cell operand.now }
{
    match operand {
        Operand::Const(value) => Cell::of(value),
        Operand::Session(_) => Cell::Null,
    }
}

// The cells of the operands of a list.
fn cells_of<'d>(alloc: Global, operands: &'d [Operand]) -> Result<Vec<Cell<'d>>, Memory>
    ensures { IfOk result (λ cells. map cell_view cells.items ≡ map operand_cell operands.now) }
{
    let mut cells = Vec::with_capacity(alloc, operands.len())?;
    for operand in operands {
        cells.push(operand_cell(operand))?;
    }
    Ok(cells)
}

// The cells of operands.
fn operand_cells(alloc: Global, operands: &Operands) -> Result<Vec<Cell<'_>>, Memory>
    ensures { IfOk result (λ cells. map cell_view cells.items ≡ map operand_cell (operands_of operands.now)) }
{
    match operands {
        Operands::List(operands) => cells_of(alloc, operands.as_slice()),
        Operands::Session(_) => {
            let mut cells = Vec::new(alloc);
            cells.push(Cell::Null)?;
            Ok(cells)
        }
    }
}

// A truth, or its negation.
fn negated_if(negated: bool, truth: Truth) -> Truth
    ensures { result ≡ negated_if negated truth }
{
    if negated { truth.negated() } else { truth }
}

// What a test says of a cell, or its opposite.
fn tested(
    alloc: Global,
    cell: &Cell<'_>,
    test: Test,
    operands: &Operands,
    negated: bool,
) -> Result<Truth, Memory>
    ensures { IfOk result (λ t. t ≡ negated_if negated (test_truth test (cell_view cell.now) (map operand_cell (operands_of operands.now)))) }
{
    let operands = operand_cells(alloc, operands)?;
    let truth = test_truth(alloc, test, cell, &operands)?;
    Ok(negated_if(negated, truth))
}

// How two cells stand to each other.
fn compared(alloc: Global, op: Op, left: &Cell<'_>, right: &Cell<'_>) -> Result<Truth, Memory>
    ensures { IfOk result (λ t. t ≡ compared op (cell_view left.now) (cell_view right.now)) }
{
    test_truth(alloc, Test::Compare(op), left, slice::from_ref(right))
}

// The pairs of a relationship, none where there is no such relationship.
fn pairs_of<'s>(scope: &Described<'s>, t: TableId, r: RelId) -> &'s [Pair]
    ensures { result.now ≡ (rel (scope_schema scope.now) t r).pairs }
{
    match scope.rel(t, r) {
        Some(rel) => rel.pairs.as_slice(),
        None => &[],
    }
}

/// The truth of a filter at a row of table `t`. Its operands are bound: one that is a session variable counts as NULL.
#[cycle(truth)]
pub fn truth(
    alloc: Global,
    bexp: &Bexp,
    scope: &Described<'_>,
    tables: &[&Rows],
    t: TableId,
    row: &[Val],
) -> Result<Truth, Memory>
    ensures { IfOk result (λ found. found ≡ truth (bexp_view bexp.now) (scope_schema scope.now) (all_of (scope_schema scope.now) (database_of tables.now)) t row.now) }
{
    match bexp {
        Bexp::True => Ok(Truth::Yes),
        Bexp::And(bexps) => all_true(alloc, bexps, scope, tables, t, row),
        Bexp::Or(bexps) => any_true(alloc, bexps, scope, tables, t, row),
        Bexp::Not(inner) => Ok(truth(alloc, inner, scope, tables, t, row)?.negated()),
        Bexp::Test {
            col,
            test,
            operands,
            negated,
        } => tested(alloc, &cell_at(row, *col), *test, operands, *negated),
        Bexp::Through { rel, inner } => related(alloc, inner, scope, tables, t, *rel, row),
        Bexp::Exists { table, inner } => { some_row(alloc, inner, scope, tables, *table, &[], row) }
        Bexp::Columns { left, op, right } => {
            compared(alloc, *op, &cell_at(row, *left), &cell_at(row, *right))
        }
    }
}

// Whether a filter is true at some row behind a relationship.
#[cycle(truth)]
fn related(
    alloc: Global,
    bexp: &Bexp,
    scope: &Described<'_>,
    tables: &[&Rows],
    t: TableId,
    r: RelId,
    row: &[Val],
) -> Result<Truth, Memory>
    ensures { IfOk result
        (λ found. found
        ≡ truth_of
        (some_kept (bexp_view bexp.now) (scope_schema scope.now) (database_of tables.now) (rel (scope_schema scope.now) t r).remote
        (rel (scope_schema scope.now) t r).pairs row.now)) }
{
    let pairs = pairs_of(scope, t, r);
    let remote = scope.remote(t, r);
    some_row(alloc, bexp, scope, tables, remote, pairs, row)
}

// AND of a list, which ends where one is false.
#[cycle(truth)]
fn all_true(
    alloc: Global,
    bexps: &BexpList,
    scope: &Described<'_>,
    tables: &[&Rows],
    t: TableId,
    row: &[Val],
) -> Result<Truth, Memory>
    ensures { IfOk result (λ found. found ≡ truth_of_all (bexps_of (map bexp_view bexps.now.items)) (scope_schema scope.now) (all_of (scope_schema scope.now) (database_of tables.now)) t row.now) }
{
    let mut all = Truth::Yes;
    for bexp in bexps {
        all = all.and(truth(alloc, bexp, scope, tables, t, row)?);
        if all == Truth::No {
            return Ok(Truth::No);
        }
    }
    Ok(all)
}

// OR of a list, which ends where one is true.
#[cycle(truth)]
fn any_true(
    alloc: Global,
    bexps: &BexpList,
    scope: &Described<'_>,
    tables: &[&Rows],
    t: TableId,
    row: &[Val],
) -> Result<Truth, Memory>
    ensures { IfOk result (λ found. found ≡ truth_of_any (bexps_of (map bexp_view bexps.now.items)) (scope_schema scope.now) (all_of (scope_schema scope.now) (database_of tables.now)) t row.now) }
{
    let mut any = Truth::No;
    for bexp in bexps {
        any = any.or(truth(alloc, bexp, scope, tables, t, row)?);
        if any == Truth::Yes {
            return Ok(Truth::Yes);
        }
    }
    Ok(any)
}

// Whether a row is linked to a row by these pairs, and a filter is true at it.
#[cycle(truth)]
fn is_met(
    alloc: Global,
    bexp: &Bexp,
    scope: &Described<'_>,
    tables: &[&Rows],
    u: TableId,
    pairs: &[Pair],
    row: &[Val],
    far: &[Val],
) -> Result<bool, Memory>
    ensures { IfOk result (λ b. b ≡ is_met (bexp_view bexp.now) (scope_schema scope.now) (database_of tables.now) u pairs.now row.now far.now) }
{
    if !are_linked(pairs, row, far) {
        return Ok(false);
    }
    Ok(truth(alloc, bexp, scope, tables, u, far)?.is_yes())
}

// Whether a filter is true at some of these rows, among those that are linked to a row by these pairs.
#[cycle(truth)]
fn some_met(
    alloc: Global,
    bexp: &Bexp,
    scope: &Described<'_>,
    tables: &[&Rows],
    u: TableId,
    pairs: &[Pair],
    row: &[Val],
    rows: &Rows,
) -> Result<bool, Memory>
    ensures { IfOk result (λ b. b ≡ list_any (is_met (bexp_view bexp.now) (scope_schema scope.now) (database_of tables.now) u pairs.now row.now) rows.now) }
{
    for at in 0..rows.len() {
        if is_met(alloc, bexp, scope, tables, u, pairs, row, rows.row(at))? {
            return Ok(true);
        }
    }
    Ok(false)
}

// The same of the rows of a table.
#[cycle(truth)]
fn some_row(
    alloc: Global,
    bexp: &Bexp,
    scope: &Described<'_>,
    tables: &[&Rows],
    u: TableId,
    pairs: &[Pair],
    row: &[Val],
) -> Result<Truth, Memory>
    ensures { IfOk result (λ found. found ≡ truth_of (some_kept (bexp_view bexp.now) (scope_schema scope.now) (database_of tables.now) u pairs.now row.now)) }
{
    match rows_at(tables, u) {
        Some(rows) => {
            let met = some_met(alloc, bexp, scope, tables, u, pairs, row, rows)?;
            Ok(Truth::of(met))
        }
        None => Ok(Truth::No),
    }
}
