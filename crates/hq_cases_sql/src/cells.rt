//! What the evaluator does with cells. The text `{}` stands for an empty JSON object.

use hq_base::{Aggregate, Json, Memory, Val};
use hq_cases_file::{Case, Stop, Words, push_json, value};
use hq_model::{Op, Test, Truth};
use hq_sql_cells::{Cell, aggregated, counted, test_truth};
use std::alloc::Global;

/// The values of a list.
pub fn values(alloc: Global, list: &[Json]) -> Result<Vec<Val>, Stop> {
    let mut values = Vec::new(alloc);
    for json in list {
        values.push(value(alloc, json)?)?;
    }
    Ok(values)
}

/// The cells of values.
pub fn cells<'d>(alloc: Global, values: &'d [Val]) -> Result<Vec<Cell<'d>>, Stop> {
    let mut cells = Vec::new(alloc);
    for value in values {
        cells.push(cell_of(alloc, value))?;
    }
    Ok(cells)
}

fn cell_of<'d>(alloc: Global, value: &'d Val) -> Cell<'d> {
    match value {
        Val::Text(text) if text.as_str() == "{}" => Cell::Json(Json::Obj(Vec::new(alloc))),
        _ => Cell::of(value),
    }
}

fn truth(alloc: Global, test: Test, cells: &[Cell<'_>]) -> Result<Truth, Stop> {
    match cells {
        [cell, operands @ ..] => Ok(test_truth(alloc, test, cell, operands)?),
        [] => Err(Stop::Shape),
    }
}

fn truth_of(alloc: Global, case: &Case, test: Test) -> Result<Truth, Stop> {
    let values = values(alloc, case.list("in")?)?;
    let cells = cells(alloc, &values)?;
    truth(alloc, test, &cells)
}

/// What a test says of the first cell, beside those behind it.
pub fn tell_test(alloc: Global, case: &Case, words: &mut Words) -> Result<(), Stop> {
    let name = case.text(alloc, "op")?;
    let truth = truth_of(alloc, case, test_of(name.as_str())?)?;
    words.push_debug(&truth);
    Ok(())
}

fn test_of(name: &str) -> Result<Test, Stop> {
    match name {
        "=" => Ok(Test::Compare(Op::Eq)),
        "<>" => Ok(Test::Compare(Op::Ne)),
        "<" => Ok(Test::Compare(Op::Lt)),
        "<=" => Ok(Test::Compare(Op::Le)),
        ">" => Ok(Test::Compare(Op::Gt)),
        ">=" => Ok(Test::Compare(Op::Ge)),
        "IN" => Ok(Test::Among),
        "IS NULL" => Ok(Test::IsNull),
        "LIKE" => Ok(Test::Like { fold: false }),
        "ILIKE" => Ok(Test::Like { fold: true }),
        _ => Err(Stop::Shape),
    }
}

fn push_cell(alloc: Global, cell: Cell<'_>, words: &mut Words) -> Result<(), Stop> {
    push_json(alloc, &cell.into_json(alloc)?, words);
    words.push(" ");
    Ok(())
}

fn push_copies(alloc: Global, cells: &[Cell<'_>], words: &mut Words) -> Result<(), Stop> {
    for cell in cells {
        push_cell(alloc, cell.copy(alloc)?, words)?;
    }
    Ok(())
}

/// The JSON of copies of cells.
pub fn tell_json(alloc: Global, case: &Case, words: &mut Words) -> Result<(), Stop> {
    let values = values(alloc, case.list("in")?)?;
    push_copies(alloc, &cells(alloc, &values)?, words)
}

/// A function of cells: their number, or an aggregate.
#[derive(Clone, Copy)]
pub enum Function {
    Count { distinct: bool },
    Take(Aggregate),
}

fn made_of<'d>(
    alloc: Global,
    function: Function,
    cells: Vec<Cell<'d>>,
) -> Result<Cell<'d>, Memory> {
    match function {
        Function::Count { distinct } => counted(alloc, distinct, cells),
        Function::Take(aggregate) => aggregated(aggregate, cells),
    }
}

fn push_aggregate(
    alloc: Global,
    function: Function,
    values: &[Val],
    words: &mut Words,
) -> Result<(), Stop> {
    let cells = cells(alloc, values)?;
    push_cell(alloc, made_of(alloc, function, cells)?, words)
}

/// What these functions make of the cells of a case.
pub fn tell_aggregates(
    alloc: Global,
    functions: &[Function],
    case: &Case,
    words: &mut Words,
) -> Result<(), Stop> {
    let values = values(alloc, case.list("in")?)?;
    for function in functions {
        push_aggregate(alloc, *function, &values, words)?;
    }
    Ok(())
}
