//! The `where` of a request: the permitted rows count, with their shown cells.
ghost use Rattle.std.specs.Prelude.{◌≡◌, ◌+◌, IfOk, OnOk};
ghost use Rattle.hq_model.specs.Bexp.{bexp_view};
ghost use Rattle.hq_model.specs.Schema.{table};
ghost use Rattle.hq_sql_tree.specs.View.{pred_view};
ghost use Rattle.hq_translation.specs.Lists.{where_numbers};
ghost use Rattle.hq_translation.specs.Masks.{where_mode};
ghost use Rattle.hq_translation.specs.Predicates.{predicate};
ghost use Rattle.hq_compile_tables.specs.Contexts.{context_schema, context_granted};
ghost use Rattle.hq_compile_tables.specs.Shown.{look_in};

use crate::masks::mask_parts;
use crate::used::columns_in;
use hq_base::Memory;
use hq_compile_predicates::{Counted, MaskParts, filter_predicate, predicate_of};
use hq_compile_tables::{Context, MaskPlace};
use hq_model::{Bexp, TableId};
use hq_sql_tree::Pred;
use std::alloc::Global;

// The permitted rows, with their shown cells: inside the `where` of a request.
struct PermittedRows;

impl Counted for PermittedRows {
    ghost use Rattle.hq_translation.specs.Masks.{where_mode};

    ghost mode = { λ s g. where_mode s g };

    fn masks(
        &self,
        alloc: Global,
        context: &Context,
        table: TableId,
        number: u64,
        inner: &Bexp,
        next: &mut u64,
    ) -> Result<MaskParts, Memory> {
        let used = columns_in(alloc, inner)?;
        mask_parts(alloc, context, table, number, used.as_slice(), next)
    }

    fn condition(
        &self,
        alloc: Global,
        context: &Context,
        table: TableId,
        number: u64,
        next: &mut u64,
    ) -> Result<Pred, Memory> {
        filter_predicate(alloc, context, table, number, next)
    }
}

/// The `where` of a list of rows of a table at the alias of this number, behind the joins of its masks.
pub fn where_predicate(
    alloc: Global,
    context: &Context,
    t: TableId,
    number: u64,
    places: &[MaskPlace],
    wanted: &Bexp,
    next: &mut u64,
) -> Result<Pred, Memory>
    ensures predicate { let s = context_schema context.now in let look = look_in places.now (table s t).columns number in
        IfOk result (λ p. pred_view p ≡ predicate (bexp_view wanted.now) s (where_mode s (context_granted context.now)) look t number next.old) }
    ensures numbers { OnOk result (next.new ≡ next.old + where_numbers (bexp_view wanted.now) (context_schema context.now) (context_granted context.now) t) }
{
    predicate_of(
        alloc,
        context,
        &PermittedRows,
        t,
        number,
        places,
        wanted,
        next,
    )
}
