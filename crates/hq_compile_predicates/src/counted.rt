//! Which rows of a remote table count inside a condition, and how their columns are looked at.
ghost use Rattle.std.specs.Prelude.{◌≡◌, ◌+◌};

use hq_base::{List, Memory};
use hq_compile_tables::{Context, MaskPlaceList};
use hq_model::{Bexp, TableId};
use hq_sql_tree::{JoinList, Pred};
use std::alloc::Global;

/// The joins of masks at an alias, and where they show their columns.
#[derive(Drop)]
pub struct MaskParts {
    pub joins: JoinList,
    pub places: MaskPlaceList,
}

/// Which rows of a remote table count inside a condition: those at which a further condition holds; and how their columns
/// are looked at.
pub trait Counted {
    ghost use Rattle.std.specs.Prelude.{◌≡◌, ◌+◌, IfOk, OnOk, map};
    ghost use Rattle.hq_model.specs.Bexp.{bexp_view};
    ghost use Rattle.hq_model.specs.Schema.{Schema, table as table_of};
    ghost use Rattle.hq_sql_tree.specs.View.{join_view, pred_view};
    ghost use Rattle.hq_translation.specs.Predicates.{Mode, columns_in};
    ghost use Rattle.hq_translation.specs.GrantedTables.{GrantedTables};
    ghost use Rattle.hq_compile_tables.specs.Contexts.{context_schema, context_granted};
    ghost use Rattle.hq_compile_tables.specs.Shown.{look_in};

    /// What a remote alias has beside its link.
    ghost mode: { Schema → GrantedTables → Mode };

    /// The joins of this table's masks at the alias of this number, where the inner expression is asked of its rows.
    fn masks(
        &self,
        alloc: Global,
        context: &Context,
        table: TableId,
        number: u64,
        inner: &Bexp,
        next: &mut u64,
    ) -> Result<MaskParts, Memory>
        requires { next.old ≡ number + 1 }
        ensures joins { let m = mode (context_schema context.now) (context_granted context.now) in
            IfOk result (λ parts. map join_view parts.joins.items ≡ m.joins table (columns_in (bexp_view inner.now)) number) }
        ensures looks { let s = context_schema context.now in let m = mode s (context_granted context.now) in
            IfOk result (λ parts. look_in parts.places (table_of s table).columns number ≡ m.look table (columns_in (bexp_view inner.now)) number) }
        ensures numbers { let m = mode (context_schema context.now) (context_granted context.now) in
            OnOk result (next.new ≡ next.old + m.extra table (columns_in (bexp_view inner.now))) };

    /// The condition on rows of this table at the alias of this number.
    fn condition(
        &self,
        alloc: Global,
        context: &Context,
        table: TableId,
        number: u64,
        next: &mut u64,
    ) -> Result<Pred, Memory>
        ensures predicate { let m = mode (context_schema context.now) (context_granted context.now) in
            IfOk result (λ p. pred_view p ≡ m.guard table number next.old) }
        ensures numbers { let m = mode (context_schema context.now) (context_granted context.now) in
            OnOk result (next.new ≡ next.old + m.more table) };
}

/// All rows with their own cells: inside the filter of a permission, and inside a mask.
pub struct AllRows;

impl Counted for AllRows {
    ghost use Rattle.hq_translation.specs.Predicates.{filter_mode};

    ghost mode = { λ s g. filter_mode s };

    fn masks(
        &self,
        alloc: Global,
        _context: &Context,
        _table: TableId,
        _number: u64,
        _inner: &Bexp,
        _next: &mut u64,
    ) -> Result<MaskParts, Memory> {
        Ok(MaskParts {
            joins: Vec::new(alloc),
            places: List::new(alloc),
        })
    }

    fn condition(
        &self,
        _alloc: Global,
        _context: &Context,
        _table: TableId,
        _number: u64,
        _next: &mut u64,
    ) -> Result<Pred, Memory> {
        Ok(Pred::True)
    }
}
