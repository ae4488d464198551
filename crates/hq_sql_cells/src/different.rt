//! How many different cells there are: whole numbers are sorted as numbers, and other cells as they are.
ghost use Rattle.std.specs.Prelude.{◌≡◌, ◌&&◌, map, filter, length, option_map, IfOk, IfSome, OnOk};
ghost use Rattle.std.specs.Ordering.{int_cmp, on};
ghost use Rattle.hq_base.specs.Aggregates.{is_taken};
ghost use Rattle.hq_base.specs.Cells.{cell_cmp, int, same_cell};
ghost use Rattle.hq_base.specs.Lists.{Ascends, firsts, sort};
ghost use Rattle.hq_sql_cells.specs.View.{cell_view};
ghost use Rattle.hq_sql_cells.specs.Totals.{same_number, starts_group, starts_run};

use crate::Cell;
use crate::aggregate::is_taken;
use crate::order::cell_cmp;
use hq_base::Memory;
use std::alloc::Global;
use std::cmp::Ordering;

/// How many different cells aggregates take.
pub(crate) fn number_of_different(alloc: Global, cells: Vec<Cell<'_>>) -> Result<usize, Memory>
    ensures { IfOk result (λ number. number ≡ length (firsts same_cell (sort cell_cmp (filter is_taken (map cell_view cells.entry.items))))) }
{
    match numbers_of(alloc, &cells)? {
        Some(numbers) => different_numbers(numbers),
        None => different_cells(cells),
    }
}

// The whole numbers that cells are, without the NULLs; None where there is another cell.
#[tactic(auto, using(crate::proofs::Numbers::numbers_taken, crate::proofs::Numbers::numbers_passed, crate::proofs::Numbers::numbers_end))]
fn numbers_of(alloc: Global, cells: &[Cell<'_>]) -> Result<Option<Vec<i128>>, Memory>
    ensures { IfOk result (λ found. IfSome found (λ numbers. map int numbers.items ≡ filter is_taken (map cell_view cells.now))) }
{
    let mut numbers = Vec::new(alloc);
    for cell in cells {
        match cell {
            Cell::Int(number) => numbers.push(*number)?,
            Cell::Null => {}
            Cell::Text(_) | Cell::Bool(_) | Cell::Json(_) => return Ok(None),
        }
    }
    Ok(Some(numbers))
}

fn different_numbers(numbers: Vec<i128>) -> Result<usize, Memory>
    ensures { IfOk result (λ number. number ≡ length (firsts same_cell (sort cell_cmp (map int numbers.items)))) }
{
    let mut sorted = numbers;
    sort_numbers(&mut sorted)?;
    Ok(number_of_runs(&sorted))
}

fn sort_numbers(numbers: &mut Vec<i128>) -> Result<(), Memory>
    ensures { OnOk result (numbers.new.items ≡ sort int_cmp numbers.old.items) }
{
    numbers.sort_by(|left, right| left.cmp(right))?;
    Ok(())
}

// How many different numbers there are, where they ascend.
fn number_of_runs(numbers: &[i128]) -> usize
    requires { Ascends int_cmp numbers.now }
    ensures { result ≡ length (firsts same_number numbers.now) }
{
    let mut number = 0;
    let mut last = None;
    for next in numbers {
        if is_other(last, *next) {
            number += 1;
            last = Some(*next);
        }
    }
    number
}

// Whether a number is another one than the last.
fn is_other(last: Option<i128>, next: i128) -> bool
    ensures { result ≡ starts_run last next }
{
    match last {
        Some(last) => last.cmp(&next) != Ordering::Equal,
        None => true,
    }
}

// How many of any cells: equal ones stand side by side once they are sorted.
fn different_cells(cells: Vec<Cell<'_>>) -> Result<usize, Memory>
    ensures { IfOk result (λ number. number ≡ length (firsts same_cell (sort cell_cmp (filter is_taken (map cell_view cells.entry.items))))) }
{
    let mut sorted = cells;
    sort_cells(&mut sorted)?;
    Ok(number_of_groups(&sorted))
}

fn sort_cells<'d>(cells: &mut Vec<Cell<'d>>) -> Result<(), Memory>
    ensures { OnOk result (cells.new.items ≡ sort (on cell_view cell_cmp) cells.old.items) }
{
    cells.sort_by(|left, right| cell_cmp(left, right))?;
    Ok(())
}

// How many different cells are taken, where the cells ascend.
fn number_of_groups<'s, 'd>(cells: &'s [Cell<'d>]) -> usize
    requires { Ascends cell_cmp (map cell_view cells.now) }
    ensures { result ≡ length (firsts same_cell (filter is_taken (map cell_view cells.now))) }
{
    let mut number = 0;
    let mut last: Option<&'s Cell<'d>> = None;
    for cell in cells {
        if starts_group(last, cell) {
            number += 1;
            last = Some(cell);
        }
    }
    number
}

// Whether a cell is taken and another one than the last that was taken.
fn starts_group(last: Option<&Cell<'_>>, cell: &Cell<'_>) -> bool
    ensures { result ≡ (is_taken (cell_view cell.now) && starts_group (option_map (λ c. cell_view c.now) last.entry) (cell_view cell.now)) }
{
    match last {
        Some(last) => is_taken(cell) && cell_cmp(last, cell) != Ordering::Equal,
        None => is_taken(cell),
    }
}
