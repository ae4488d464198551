//! What the evaluator does with rows: pages, sorts and groups. Rows are told by their places, from 0.

use crate::cells::{cells, values};
use hq_base::{Json, Val};
use hq_cases_file::{Case, Stop, Words};
use hq_sql_cells::{Direction, Kept, first_kept, paged, rows_of, sorted_kept};
use std::alloc::Global;

fn page_of(alloc: Global, offset: Option<u64>, limit: Option<u64>) -> Result<Vec<usize>, Stop> {
    let rows = vec![in alloc; 0, 1, 2, 3, 4]?;
    Ok(paged(rows, offset, limit))
}

/// What an offset and a limit leave of the rows 0 to 4.
pub fn tell_page(alloc: Global, case: &Case, words: &mut Words) -> Result<(), Stop> {
    let offset = case.number("offset")?;
    let limit = case.number("limit")?;
    let places = page_of(alloc, offset, limit)?;
    push_places(&places, words);
    Ok(())
}

fn push_places(places: &[usize], words: &mut Words) {
    for place in places {
        words.push(" ");
        words.push_place(*place);
    }
}

fn row_of(alloc: Global, json: &Json) -> Result<Vec<Val>, Stop> {
    match json {
        Json::Arr(row) => values(alloc, row),
        _ => Err(Stop::Shape),
    }
}

// The values of the rows of a case.
fn rows_of_values(alloc: Global, case: &Case) -> Result<Vec<Vec<Val>>, Stop> {
    let list = case.list("rows")?;
    let mut rows = Vec::new(alloc);
    for row in list {
        rows.push(row_of(alloc, row)?)?;
    }
    Ok(rows)
}

// A row that stands for its place. Its values are its keys and its values of DISTINCT ON.
fn kept_row<'d>(alloc: Global, row: &'d [Val], at: usize) -> Result<Kept<'d, usize>, Stop> {
    let keys = cells(alloc, row)?;
    let distinct = cells(alloc, row)?;
    Ok(Kept {
        keys,
        distinct,
        row: at,
    })
}

fn kept<'d>(alloc: Global, rows: &'d [Vec<Val>]) -> Result<Vec<Kept<'d, usize>>, Stop> {
    let mut kept = Vec::new(alloc);
    for (at, row) in rows.iter().enumerate() {
        kept.push(kept_row(alloc, row, at)?)?;
    }
    Ok(kept)
}

// Whether a direction descends, and whether NULLs come first.
fn flags_of(word: &str) -> Result<(bool, bool), Stop> {
    match word {
        "ASC NULLS LAST" => Ok((false, false)),
        "ASC NULLS FIRST" => Ok((false, true)),
        "DESC NULLS LAST" => Ok((true, false)),
        "DESC NULLS FIRST" => Ok((true, true)),
        _ => Err(Stop::Shape),
    }
}

fn direction(json: &Json) -> Result<Direction, Stop> {
    let Json::Str(word) = json else {
        return Err(Stop::Shape);
    };
    let (desc, nulls_first) = flags_of(word.as_str())?;
    Ok(Direction { desc, nulls_first })
}

fn directions(alloc: Global, case: &Case) -> Result<Vec<Direction>, Stop> {
    let list = case.list("order")?;
    let mut directions = Vec::new(alloc);
    for json in list {
        directions.push(direction(json)?)?;
    }
    Ok(directions)
}

fn sorted(alloc: Global, order: &[Direction], values: &[Vec<Val>]) -> Result<Vec<usize>, Stop> {
    let kept = sorted_kept(alloc, order, kept(alloc, values)?)?;
    Ok(rows_of(alloc, kept)?)
}

fn places_in_order(alloc: Global, case: &Case) -> Result<Vec<usize>, Stop> {
    let order = directions(alloc, case)?;
    let values = rows_of_values(alloc, case)?;
    sorted(alloc, &order, &values)
}

/// The rows in their order.
pub fn tell_sort(alloc: Global, case: &Case, words: &mut Words) -> Result<(), Stop> {
    let places = places_in_order(alloc, case)?;
    push_places(&places, words);
    Ok(())
}

fn firsts(alloc: Global, values: &[Vec<Val>]) -> Result<Vec<usize>, Stop> {
    let kept = kept(alloc, values)?;
    let firsts = first_kept(alloc, kept)?;
    Ok(rows_of(alloc, firsts)?)
}

/// The first rows of their groups.
pub fn tell_groups(alloc: Global, case: &Case, words: &mut Words) -> Result<(), Stop> {
    let values = rows_of_values(alloc, case)?;
    let places = firsts(alloc, &values)?;
    push_places(&places, words);
    Ok(())
}
