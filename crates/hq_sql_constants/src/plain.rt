//! Conditions that ask one column of a table for something that constants tell: the column is found once, and they are tried at the
//! values of the rows, without a scope.
ghost use Rattle.std.specs.Prelude.{◌≡◌, [], map, IfOk, IfSome};
ghost use Rattle.hq_load_index.specs.Keys.{cell_in};
ghost use Rattle.hq_sql_cells.specs.View.{cell_view};
ghost use Rattle.hq_sql_scans.specs.Links.{IsOwn};
ghost use Rattle.hq_sql_tree.specs.Meaning.{Scope as Names, value};
ghost use Rattle.hq_sql_tree.specs.Tree.{test as tested};
ghost use Rattle.hq_sql_tree.specs.View.{expr_view, pred_view};
ghost use Rattle.hq_sql_constants.specs.Plain.{IsTest, told};

use hq_base::{Memory, Txt, Val};
use hq_model::{ColId, Column, Test, Truth};
use hq_sql_cells::{Cell, test_truth};
use hq_sql_scans::links::own_column;
use hq_sql_tree::{Expr, ExprList, Pred};
use std::alloc::Global;

/// A test of a column beside constants.
#[derive(Drop)]
pub struct ColumnTest<'d> {
    pub column: ColId,
    pub test: Test,
    pub operands: Vec<Cell<'d>>,
}

/// The cell of a constant.
pub fn constant<'d>(expr: &'d Expr) -> Option<Cell<'d>>
    ensures { IfSome result (λ c. (m : Names) → value (expr_view expr.now) [] m ≡ cell_view c) }
{
    match expr {
        Expr::Int(n) => Some(Cell::Int(*n as i128)),
        Expr::Text(text) | Expr::Uuid(text) => Some(Cell::Text(text)),
        Expr::Bool(b) => Some(Cell::Bool(*b)),
        Expr::Column { .. } | Expr::Object(_) | Expr::Agg(_) => None,
    }
}

// The cells of constants; None where one is none.
fn constants<'d>(alloc: Global, exprs: &'d [Expr]) -> Result<Option<Vec<Cell<'d>>>, Memory>
    ensures { IfOk result (λ found. IfSome found (λ cs. (m : Names) → map (λ e. value (expr_view e) [] m) exprs.now ≡ map cell_view cs.items)) }
{
    let mut cells = Vec::with_capacity(alloc, exprs.len())?;
    for expr in exprs {
        match constant(expr) {
            Some(cell) => cells.push(cell)?,
            None => return Ok(None),
        }
    }
    Ok(Some(cells))
}

// Whether a test is made again at each row without what was read before.
fn is_light(test: Test) -> bool {
    match test {
        Test::Compare(_) | Test::Among | Test::IsNull => true,
        _ => false,
    }
}

// The test of a column that a test of an expression is.
fn column_test<'d>(
    alloc: Global,
    own: &Expr,
    test: Test,
    operands: &'d ExprList,
    columns: &[Column],
    alias: &Txt,
) -> Result<Option<ColumnTest<'d>>, Memory>
    ensures { IfOk result (λ found. IfSome found (λ t. IsTest columns.now alias.now (tested (expr_view own.now) test (map expr_view operands.now.items)) t)) }
{
    let Some(column) = own_column(own, columns, alias) else {
        return Ok(None);
    };
    if !is_light(test) {
        return Ok(None);
    }
    match constants(alloc, operands.as_slice())? {
        Some(operands) => Ok(Some(ColumnTest {
            column,
            test,
            operands,
        })),
        None => Ok(None),
    }
}

/// The same of a condition.
pub(crate) fn test_of<'d>(
    alloc: Global,
    pred: &'d Pred,
    columns: &[Column],
    alias: &Txt,
) -> Result<Option<ColumnTest<'d>>, Memory>
    ensures { IfOk result (λ found. IfSome found (IsTest columns.now alias.now (pred_view pred.now))) }
{
    match pred {
        Pred::Test {
            value,
            test,
            operands,
        } => column_test(alloc, value, *test, operands, columns, alias),
        Pred::True | Pred::False | Pred::Not(_) | Pred::And(_) | Pred::Or(_) | Pred::Exists(_) =>
            Ok(None),
    }
}

/// The cell of a row in a column.
pub fn cell_in<'d>(row: &'d [Val], column: ColId) -> Cell<'d>
    ensures { cell_view result ≡ cell_in row.now column }
{
    match row.get(column.at()) {
        Some(value) => Cell::of(value),
        None => Cell::Null,
    }
}

/// What a test says of a row.
pub(crate) fn told(alloc: Global, test: &ColumnTest<'_>, row: &[Val]) -> Result<Truth, Memory>
    ensures { IfOk result (λ t. t ≡ told test.now row.now) }
{
    let cell = cell_in(row, test.column);
    test_truth(alloc, test.test, &cell, &test.operands)
}
