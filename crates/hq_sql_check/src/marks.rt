//! The tables that a statement takes rows from, each told once.
ghost use Rattle.std.specs.Prelude.{◌≡◌, ◌<◌, ◌==◌, ℕ, false, true, length, IfOk, List as Items, slice_index_or};
ghost use Rattle.std.specs.List.{list_any};
ghost use Rattle.hq_sql_tree.specs.Tree.{SelectTree};
ghost use Rattle.hq_sql_tree.specs.View.{select_view};
ghost use Rattle.hq_model.specs.declared.table.Table.{Table};
ghost use Rattle.hq_sql_check.specs.Agree.{MeansAlike};
ghost use Rattle.hq_sql_check.specs.Scans.{scans};

use crate::places::add_places;
use hq_base::Memory;
use hq_sql_tree::Select;
use std::alloc::Global;

// So many marks, none of them set.
fn no_marks(alloc: Global, count: usize) -> Result<Vec<bool>, Memory>
    ensures count { IfOk result (λ marks. length marks.items ≡ count) }
    ensures none { IfOk result (λ marks. (t : ℕ) → slice_index_or marks.items t false ≡ false) }
{
    let mut marks = Vec::new(alloc);
    for _ in 0..count {
        marks.push(false)?;
    }
    Ok(marks)
}

// Sets the marks of these places.
fn mark(marks: &mut Vec<bool>, places: &[usize])
    ensures count { length marks.new.items ≡ length marks.old.items }
    ensures set { (t : ℕ) → t < length marks.old.items → slice_index_or marks.old.items t false ≡ false → slice_index_or marks.new.items t false ≡ list_any (λ u. u == t) places.now }
{
    for place in places {
        if *place < marks.len() {
            marks[*place] = true;
        }
    }
}

/// Of each table of the catalog, in order, whether a statement takes rows from it.
pub fn scanned(
    alloc: Global,
    select: &Select,
    tables: &[hq_model::Table],
) -> Result<Vec<bool>, Memory>
    ensures count { IfOk result (λ marks. length marks.items ≡ length tables.now) }
    ensures marks { IfOk result (λ marks. (t : ℕ) → slice_index_or marks.items t false ≡ scans (select_view select.now) tables.now t) }
{
    let mut places = Vec::new(alloc);
    add_places(&mut places, select, tables)?;
    let mut marks = no_marks(alloc, tables.len())?;
    mark(&mut marks, &places);
    Ok(marks)
}

/// A law: a statement means the same over two databases in which the tables that it takes rows from have the same rows.
pub fn only_scanned_tables_matter()
    ensures { (s : SelectTree) (tables : Items Table) → MeansAlike s tables }
{}
