//! Statements that are well-formed for a catalog.
ghost use Rattle.std.specs.Prelude.{◌≡◌, [], IfOk};
ghost use Rattle.hq_sql_tree.specs.View.{select_view};
ghost use Rattle.hq_sql_tree.specs.WellFormed.{is_typed, is_well_typed, is_statement};

use crate::aliases::aliases_differ;
use crate::scope::Scope;
use crate::typed::select_names;
use hq_base::Memory;
use hq_model::{Catalog, Table};
use hq_sql_tree::Select;
use std::alloc::Global;

// How many parentheses a statement opens at most at once.
const MOST_OPEN: u32 = 2000;

// Whether the parts of a select have their types, with nothing in scope around it.
fn is_typed<'d>(alloc: Global, select: &'d Select, tables: &'d [Table]) -> Result<bool, Memory>
    ensures { IfOk result (λ well. well ≡ is_typed (select_view select.now) tables.now []) }
{
    Ok(select_names(alloc, select, tables, &Scope::Nothing)?.is_some())
}

// Whether the select is one of the grammar that opens at most 2,000 parentheses at once, its aliases all differ, and its parts
// have their types.
fn is_well_typed<'d>(alloc: Global, select: &'d Select, tables: &'d [Table]) -> Result<bool, Memory>
    ensures { IfOk result (λ well. well ≡ is_well_typed (select_view select.now) tables.now) }
{
    Ok(
        select.has_form(MOST_OPEN)
            && aliases_differ(alloc, select)?
            && is_typed(alloc, select, tables)?,
    )
}

/// Whether a tree is a statement that is well-formed for a catalog: one row whose one output `v` is an object, with at
/// most 2,000 parentheses open at once, whose aliases all differ and whose parts have their types in scope.
#[tactic(auto, using(hq_sql_tree::proofs::Conjunctions::and_true, hq_sql_tree::proofs::Conjunctions::and_false))]
pub fn well_formed(alloc: Global, select: &Select, catalog: &Catalog) -> Result<bool, Memory>
    ensures { IfOk result (λ well. well ≡ is_statement (select_view select.now) catalog.now.tables) }
{
    select.fits();
    Ok(select.is_statement_form() && is_well_typed(alloc, select, catalog.tables.as_slice())?)
}
