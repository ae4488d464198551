//! Indexes over the rows of a grid.
ghost use Rattle.std.specs.Prelude.{◌≡◌, ◌∷◌, [], ◌+◌, ◌*◌, ◌-◌, ◌^◌, ◌<◌, ◌≤◌, ℕ, IfOk, IfSome, length, map, take, drop, slice_index_or};
ghost use Rattle.hq_base.specs.Cells.{int};
ghost use Rattle.hq_load_index.specs.Direct.{IsSpan};
ghost use Rattle.hq_load_index.specs.Grids.{rows_in};
ghost use Rattle.hq_load_index.specs.Keys.{cell_view};
ghost use Rattle.hq_load_index.specs.Places.{IsPlace};
ghost use Rattle.hq_load_index.specs.Repeats.{TellsRepeat};

use crate::build::{indexed_rows, leave_keys, sorted_rows};
use crate::direct::{Direct, direct_of, span_of};
use crate::key::{KeyCell, key_has_null};
use crate::place::{end_of, first_behind, start_of};
use crate::repeats::first_repeat;
use crate::span::Span;
use crate::steps::compared;
use crate::{Grid, Repeat, Steps};
use hq_base::Memory;
use hq_model::ColId;
use std::alloc::Global;
use std::marker::Brand;
use std::sync::ledger::{Blank, Ledger};

/// Row numbers in the order of the rows' keys in some columns, and, of one key, in file order. Rows whose key has a NULL are
/// not among them.
#[derive(Drop)]
pub struct Index {
    columns: Vec<ColId>,
    entries: Vec<u32>,
    direct: Option<Direct>,
}

/// An index, and the first row that has the key of an earlier one, where there is one.
#[derive(Drop)]
pub struct Keyed {
    pub index: Index,
    pub repeat: Option<Repeat>,
}

/// The numbers of the rows that have a key, in file order, and how many comparisons found them.
#[derive(Clone, Copy)]
pub struct Found<'i> {
    pub rows: &'i [u32],
    pub compared: u64,
}

fn one_column(columns: &[ColId]) -> Option<ColId>
    ensures { IfSome result (λ column. columns.now ≡ column ∷ []) }
{
    match columns {
        [column] => Some(*column),
        _ => None,
    }
}

// The whole number that a key is.
fn one_number(key: &[KeyCell<'_>]) -> Option<i128>
    ensures { IfSome result (λ number. map cell_view key.now ≡ int number ∷ []) }
{
    match key {
        [cell] => match cell {
            KeyCell::Int(number) => Some(*number),
            KeyCell::Null | KeyCell::Text(_) | KeyCell::Bool(_) => None,
        },
        _ => None,
    }
}

impl Index {
    ghost use Rattle.hq_load_index.specs.Indexes.{IsOver, columns_of, entries_of, rows_with};

    /// The index over these columns. There are fewer than 2 ^ 32 rows.
    pub fn build(alloc: Global, grid: &Grid, columns: Vec<ColId>) -> Result<Index, Memory>
        requires { length (rows_in grid.now) < 2 ^ 32 }
        ensures over { IfOk result (IsOver (rows_in grid.now)) }
        ensures columns { IfOk result (λ index. columns_of index ≡ columns.items) }
    {
        let entries = indexed_rows(alloc, grid, &columns)?;
        let direct = direct_of(alloc, &columns, grid, &entries)?;
        Ok(Index {
            columns,
            entries,
            direct,
        })
    }

    /// The index over these columns, and the first row that has the key of an earlier one. There, NULL is as good a value
    /// as any other. There are fewer than 2 ^ 32 rows.
    pub fn build_keyed(alloc: Global, grid: &Grid, columns: Vec<ColId>) -> Result<Keyed, Memory>
        requires { length (rows_in grid.now) < 2 ^ 32 }
        ensures over { IfOk result (λ keyed. IsOver (rows_in grid.now) keyed.index) }
        ensures columns { IfOk result (λ keyed. columns_of keyed.index ≡ columns.items) }
        ensures repeat { IfOk result (λ keyed. TellsRepeat columns.items (rows_in grid.now) keyed.repeat) }
    {
        let mut entries = sorted_rows(alloc, grid, &columns)?;
        let repeat = first_repeat(grid, &columns, &entries);
        leave_keys(grid, &columns, &mut entries);
        let direct = direct_of(alloc, &columns, grid, &entries)?;
        Ok(Keyed {
            index: Index {
                columns,
                entries,
                direct,
            },
            repeat,
        })
    }

    /// Its columns.
    pub fn columns(&self) -> &[ColId]
        ensures { result.now ≡ columns_of self.now }
    {
        &self.columns
    }

    /// How many entries it has.
    pub fn len(&self) -> usize
        ensures { result ≡ length (entries_of self.now) }
    {
        self.entries.len()
    }

    /// The number of the row of an entry.
    pub fn at(&self, entry: usize) -> usize
        requires { entry < length (entries_of self.now) }
        ensures { result ≡ slice_index_or (entries_of self.now) entry 0 }
    {
        self.entries[entry] as usize
    }

    /// The entries of the rows that have a key, over the rows of which it is an index. A key with a NULL is no row's. Where
    /// the number of entries has b binary digits, at most 2 b + 2 comparisons are made.
    pub fn equal<L: Ledger>(&self, grid: &Grid, key: &[KeyCell<'_>], steps: &mut Steps<L>) -> Span
        requires { IsOver (rows_in grid.now) self.now }
        ensures ordered { result.from ≤ result.to }
        ensures within { result.to ≤ length (entries_of self.now) }
        ensures found { take (result.to - result.from) (drop result.from (entries_of self.now)) ≡ rows_with (columns_of self.now) (map cell_view key.now) (rows_in grid.now) }
        ensures counted { steps.new ≡ steps.old + result.compared }
        ensures few { (b : ℕ) → length (entries_of self.now) < 2 ^ b → result.compared ≤ 2 * b + 2 }
    {
        if let Some(span) = self.told(grid, key) {
            return self.with_one_compared(grid, key, span, steps);
        }
        if key_has_null(key) {
            return Span {
                from: 0,
                to: 0,
                compared: 0,
            };
        }
        let columns = self.columns.as_slice();
        let entries = self.entries.as_slice();
        let start = start_of(columns, grid, entries, key, steps);
        let end = end_of(columns, grid, entries, key, start.place, steps);
        Span {
            from: start.place,
            to: end.place,
            compared: start.compared + end.compared,
        }
    }

    // A span that was told, and one comparison, at its first entry. It finds nothing: look-ups are counted by their comparisons, so a
    // look-up that finds rows has one.
    fn with_one_compared<L: Ledger>(
        &self,
        grid: &Grid,
        key: &[KeyCell<'_>],
        span: Span,
        steps: &mut Steps<L>,
    ) -> Span
        requires within { span.to ≤ length (entries_of self.now) }
        requires free { span.compared ≡ 0 }
        ensures from { result.from ≡ span.from }
        ensures to { result.to ≡ span.to }
        ensures counted { steps.new ≡ steps.old + result.compared }
        ensures few { result.compared ≤ 1 }
    {
        if span.from >= span.to {
            return span;
        }
        let row = grid.row(self.entries[span.from] as usize);
        let _ = compared(&self.columns, row, key, steps);
        Span {
            from: span.from,
            to: span.to,
            compared: 1,
        }
    }

    // The entries of a key of one whole number, where they are told without a comparison.
    fn told(&self, grid: &Grid, key: &[KeyCell<'_>]) -> Option<Span>
        requires { IsOver (rows_in grid.now) self.now }
        ensures { IfSome result (IsSpan (columns_of self.now) (rows_in grid.now) (entries_of self.now) (map cell_view key.now)) }
    {
        let direct = self.direct.as_ref()?;
        let column = one_column(&self.columns)?;
        let number = one_number(key)?;
        span_of(direct, number)
    }

    /// The first entry that does not stand before a key, and with `after` the first one behind those that have it too.
    pub fn place(&self, grid: &Grid, key: &[KeyCell<'_>], after: bool) -> usize
        requires { IsOver (rows_in grid.now) self.now }
        ensures { IsPlace (columns_of self.now) (rows_in grid.now) (entries_of self.now) (map cell_view key.now) after result }
    {
        self.place_within::<Brand>(grid, key, after, Blank::new(1))
    }

    // The same, found with a count that begins anew.
    fn place_within<L: Ledger>(
        &self,
        grid: &Grid,
        key: &[KeyCell<'_>],
        after: bool,
        blank: Blank,
    ) -> usize
        requires over { IsOver (rows_in grid.now) self.now }
        requires name { blank.name ≡ L.name }
        requires parts { blank.parts ≡ L.parts }
        requires one { L.parts ≡ 1 }
        ensures { IsPlace (columns_of self.now) (rows_in grid.now) (entries_of self.now) (map cell_view key.now) after result }
    {
        let mut steps = Steps::<L>::new(blank);
        let columns = self.columns.as_slice();
        let entries = self.entries.as_slice();
        let found = first_behind(columns, grid, entries, key, after, 0, &mut steps);
        found.place
    }

    /// The numbers of the rows of the entries from `from` up to, and without, `to`.
    pub fn between(&self, from: usize, to: usize) -> &[u32]
        requires ordered { from ≤ to }
        requires within { to ≤ length (entries_of self.now) }
        ensures { result.now ≡ take (to - from) (drop from (entries_of self.now)) }
    {
        &self.entries[from..to]
    }

    // The rows that have a key, found with a count that begins anew.
    fn look<L: Ledger>(&self, grid: &Grid, key: &[KeyCell<'_>], blank: Blank) -> Found<'_>
        requires over { IsOver (rows_in grid.now) self.now }
        requires name { blank.name ≡ L.name }
        requires parts { blank.parts ≡ L.parts }
        requires one { L.parts ≡ 1 }
        ensures rows { result.rows.now ≡ rows_with (columns_of self.now) (map cell_view key.now) (rows_in grid.now) }
        ensures few { (b : ℕ) → length (entries_of self.now) < 2 ^ b → result.compared ≤ 2 * b + 2 }
    {
        let mut steps = Steps::<L>::new(blank);
        let span = self.equal(grid, key, &mut steps);
        Found {
            rows: &self.entries[span.from..span.to],
            compared: span.compared,
        }
    }

    /// The rows that have a key, in file order, over the rows of which it is an index. A key with a NULL is no row's.
    pub fn found(&self, grid: &Grid, key: &[KeyCell<'_>]) -> Found<'_>
        requires { IsOver (rows_in grid.now) self.now }
        ensures rows { result.rows.now ≡ rows_with (columns_of self.now) (map cell_view key.now) (rows_in grid.now) }
        ensures few { (b : ℕ) → length (entries_of self.now) < 2 ^ b → result.compared ≤ 2 * b + 2 }
    {
        self.look::<Brand>(grid, key, Blank::new(1))
    }
}
