//! The places of the rows that have one of many constants in a column.
ghost use Rattle.std.specs.Prelude.{◌≡◌, ◌<◌, ◌^◌, ◌++◌, ◌==◌, ℕ, [], ◌∷◌, false, true, filter, length, map, IfOk, IfSome, OnOk, slice_index_or};
ghost use Rattle.std.specs.List.{list_any};
ghost use Rattle.hq_base.specs.Cells.{cell_of};
ghost use Rattle.hq_load_index.specs.Grids.{rows_in};
ghost use Rattle.hq_load_index.specs.Indexes.{IsOver, columns_of, rows_with};
ghost use Rattle.hq_load_index.specs.Keys.{cell_in};
ghost use Rattle.hq_sql_constants.specs.Sifted.{AreConstants, AreTaken, HasSlots, MarksAll, has_constant, slot_of, text_slot};
ghost use Rattle.hq_sql_scans.specs.Positions.{positions_of};

use hq_base::{Memory, Val};
use hq_load_index::{Grid, Index, KeyCell};
use hq_load_tables::Rows;
use hq_model::ColId;
use hq_sql_scans::positions::{Positions, number_of, position_at};
use std::alloc::Global;
use std::slice;

/// Constants, each a row of a grid, with an index over them, and of each slot whether a constant has it.
#[derive(Drop)]
pub(crate) struct Constants {
    grid: Grid,
    index: Index,
    taken: Vec<bool>,
}

// There are so many slots.
const SLOTS: usize = 65536;

// The slot of a text: a sum of its bytes, each weighed by its place.
#[tactic(auto, using(crate::proofs::Slots::slot_more, crate::proofs::Slots::slot_end))]
fn text_slot(bytes: &[u8]) -> u32
    ensures { result ≡ text_slot 0 bytes.now }
{
    let mut slot = 0u32;
    for byte in bytes {
        slot = (slot * 31 + *byte as u32) % 65536;
    }
    slot
}

// The slot of a value. Only texts are long enough for it to be worth while.
fn slot_of(value: &Val) -> u32
    ensures { result ≡ slot_of value.now }
{
    match value {
        Val::Text(text) => text_slot(text.as_bytes()),
        Val::Null | Val::Int(_) | Val::Bool(_) => 0,
    }
}

#[tactic(auto, using(crate::proofs::Slots::slots_more))]
fn slots_of(alloc: Global, values: &[Val]) -> Result<Vec<u32>, Memory>
    ensures { IfOk result (λ slots. slots.items ≡ map slot_of values.now) }
{
    let mut slots = Vec::with_capacity(alloc, values.len())?;
    for value in values {
        slots.push(slot_of(value))?;
    }
    Ok(slots)
}

/// Of so many numbers, whether each is one of these.
pub(crate) fn marks_of(alloc: Global, count: usize, found: &[u32]) -> Result<Vec<bool>, Memory>
    ensures { IfOk result (λ marks. (t : ℕ) → t < count → slice_index_or marks.items t false ≡ list_any (λ u. u == t) found.now) }
{
    let mut marks = Vec::from_elem(alloc, false, count)?;
    mark_rows(&mut marks, found);
    Ok(marks)
}

// Of each slot, whether one of these values has it.
#[tactic(auto, using(crate::proofs::Slots::taken_are))]
fn taken_by(alloc: Global, values: &[Val]) -> Result<Vec<bool>, Memory>
    ensures { IfOk result (λ taken. AreTaken values.now taken.items) }
{
    let slots = slots_of(alloc, values)?;
    marks_of(alloc, SLOTS, slots.as_slice())
}

fn first_column(alloc: Global) -> Result<Vec<ColId>, Memory>
    ensures { IfOk result (λ columns. columns.items ≡ 0 ∷ []) }
{
    let mut columns = Vec::with_capacity(alloc, 1)?;
    columns.push(ColId::new(0))?;
    Ok(columns)
}

/// These values as constants.
pub(crate) fn constants_of(alloc: Global, values: Vec<Val>) -> Result<Constants, Memory>
    requires { length values.items < 2 ^ 31 }
    ensures are { IfOk result (AreConstants values.items) }
    ensures slots { IfOk result HasSlots }
{
    let count = values.len();
    let taken = taken_by(alloc, values.as_slice())?;
    let grid = Grid::of(1, count, values);
    let columns = first_column(alloc)?;
    let index = Index::build(alloc, &grid, columns)?;
    Ok(Constants { grid, index, taken })
}

// Whether a value is one of the constants, looked up.
fn is_found(constants: &Constants, value: &Val) -> bool
    requires { IsOver (rows_in constants.now.grid) constants.now.index }
    ensures { result ≡ has_constant constants.now (cell_of value.now) }
{
    let cell = KeyCell::of(value);
    let found = constants
        .index
        .found(&constants.grid, slice::from_ref(&cell));
    !found.rows.is_empty()
}

// Whether a value is one of the constants. Most that are not have a slot that none of them has.
fn has(constants: &Constants, value: &Val) -> bool
    requires over { IsOver (rows_in constants.now.grid) constants.now.index }
    requires slots { HasSlots constants.now }
    ensures { result ≡ has_constant constants.now (cell_of value.now) }
{
    if !is_marked(constants.taken.as_slice(), slot_of(value) as usize) {
        return false;
    }
    is_found(constants, value)
}

// Whether a row has one of the constants in a column.
fn row_has(constants: &Constants, row: &[Val], column: ColId) -> bool
    requires over { IsOver (rows_in constants.now.grid) constants.now.index }
    requires slots { HasSlots constants.now }
    ensures { result ≡ has_constant constants.now (cell_in row.now column) }
{
    match row.get(column.at()) {
        Some(value) => has(constants, value),
        None => has(constants, &Val::Null),
    }
}

/// The place, in 32 bits.
pub(crate) fn as_place(position: usize) -> Result<u32, Memory>
    ensures { IfOk result (λ place. place ≡ position) }
{
    if position > u32::MAX as usize {
        return Err(Memory);
    }
    Ok(position as u32)
}

// Adds the place, where its row has one of the constants.
fn add_place(
    rows: &Rows,
    position: usize,
    column: ColId,
    constants: &Constants,
    places: &mut Vec<u32>,
) -> Result<(), Memory>
    requires over { IsOver (rows_in constants.now.grid) constants.now.index }
    requires slots { HasSlots constants.now }
    ensures { OnOk result (places.new.items ≡ places.old.items ++ filter (λ p. has_constant constants.now (cell_in (slice_index_or rows.now p []) column)) (position ∷ [])) }
{
    if row_has(constants, rows.row(position), column) {
        places.push(as_place(position)?)?;
    }
    Ok(())
}

/// Those of the places whose rows have one of the constants in a column.
#[tactic(auto, using(crate::proofs::Chosen::places_more, crate::proofs::Chosen::places_end))]
pub(crate) fn places_with(
    alloc: Global,
    rows: &Rows,
    positions: Positions<'_>,
    column: ColId,
    constants: &Constants,
) -> Result<Vec<u32>, Memory>
    requires over { IsOver (rows_in constants.now.grid) constants.now.index }
    requires slots { HasSlots constants.now }
    ensures { IfOk result (λ places. places.items ≡ filter (λ p. has_constant constants.now (cell_in (slice_index_or rows.now p []) column)) (positions_of positions.entry)) }
{
    let mut places = Vec::new(alloc);
    for turn in 0..number_of(positions) {
        let position = position_at(positions, turn);
        add_place(rows, position, column, constants, &mut places)?;
    }
    Ok(places)
}

fn is_over(index: &Index, column: ColId) -> bool
    ensures { result ≡ true → columns_of index.now ≡ column ∷ [] }
{
    match index.columns() {
        [own] => own.at() == column.at(),
        _ => false,
    }
}

/// The index over this one column of a table.
pub(crate) fn index_over(rows: &Rows, column: ColId) -> Option<&Index>
    ensures { IfSome result (λ index. (IsOver rows.now index.now) × (columns_of index.now ≡ column ∷ [])) }
{
    for index in rows.indexes() {
        if is_over(index, column) {
            return Some(index);
        }
    }
    None
}

/// Sets the marks of these rows.
pub(crate) fn mark_rows(marks: &mut Vec<bool>, found: &[u32])
    ensures count { length marks.new.items ≡ length marks.old.items }
    ensures left { (t : ℕ) → t < length marks.old.items → slice_index_or marks.new.items t false ≡ false → slice_index_or marks.old.items t false ≡ false }
    ensures set { (t : ℕ) → t < length marks.old.items → slice_index_or marks.old.items t false ≡ false → slice_index_or marks.new.items t false ≡ list_any (λ u. u == t) found.now }
{
    for row in found {
        let at = *row as usize;
        if at < marks.len() {
            marks[at] = true;
        }
    }
}

// The rows of a table that have a value in the columns of an index.
fn found_with<'i>(rows: &Rows, index: &'i Index, value: &Val) -> &'i [u32]
    requires { IsOver rows.now index.now }
    ensures { result.now ≡ rows_with (columns_of index.now) (cell_of value.now ∷ []) rows.now }
{
    let cell = KeyCell::of(value);
    let found = index.found(rows.grid(), slice::from_ref(&cell));
    found.rows
}

/// Of each row of a table, whether it has one of these values in the columns of an index.
#[tactic(auto, using(crate::proofs::Marks::marks_none, crate::proofs::Marks::marks_end))]
pub(crate) fn marks_by(
    alloc: Global,
    rows: &Rows,
    index: &Index,
    values: &[Val],
) -> Result<Vec<bool>, Memory>
    requires { IsOver rows.now index.now }
    ensures { IfOk result (λ marks. MarksAll rows.now (columns_of index.now) values.now marks.items) }
{
    let mut marks = Vec::from_elem(alloc, false, rows.len())?;
    for value in values {
        let found = found_with(rows, index, value);
        mark_rows(&mut marks, found);
    }
    Ok(marks)
}

fn is_marked(marks: &[bool], at: usize) -> bool
    ensures { result ≡ slice_index_or marks.now at false }
{
    match marks.get(at) {
        Some(mark) => *mark,
        None => false,
    }
}

// Adds the place, where its row is marked.
fn add_marked(marks: &[bool], position: usize, places: &mut Vec<u32>) -> Result<(), Memory>
    ensures { OnOk result (places.new.items ≡ places.old.items ++ filter (λ p. slice_index_or marks.now p false) (position ∷ [])) }
{
    if is_marked(marks, position) {
        places.push(as_place(position)?)?;
    }
    Ok(())
}

/// Those of the places whose rows are marked.
#[tactic(auto, using(crate::proofs::Chosen::places_more, crate::proofs::Chosen::places_end))]
pub(crate) fn places_marked(
    alloc: Global,
    positions: Positions<'_>,
    marks: &[bool],
) -> Result<Vec<u32>, Memory>
    ensures { IfOk result (λ places. places.items ≡ filter (λ p. slice_index_or marks.now p false) (positions_of positions.entry)) }
{
    let mut places = Vec::new(alloc);
    for turn in 0..number_of(positions) {
        let position = position_at(positions, turn);
        add_marked(marks, position, &mut places)?;
    }
    Ok(places)
}
