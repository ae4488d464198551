//! The least place at which a document violates the rule.
ghost use Rattle.std.specs.Prelude.{◌≡◌, ◌≤◌, ℕ, Err, IfOk};
ghost use Rattle.hq_schema.specs.Schema.{schema_view};
ghost use Rattle.hq_gql_tree.specs.View.{document_view};
ghost use Rattle.hq_overlap_classes.specs.Classes.{MoreAtFault, size_at};
ghost use Rattle.hq_overlap_classes.specs.Disputes.{IsTrueOfAll, noted_in};
ghost use Rattle.hq_overlap_classes.specs.Noting.{IsSo};
ghost use Rattle.hq_overlap_sets.specs.Pairs.{IsFirst, IsOverlap};
ghost use Rattle.hq_overlap_sets.specs.Places.{overlap_place};
ghost use Rattle.hq_overlap_sets.specs.Sets.{arena_view, document_sets};

use crate::groups::{Search, first_by_groups};
use crate::refusal::OverlapRefusal;
use crate::walk::first_by_walk;
use hq_base::Memory;
use hq_gql_tree::Document;
use hq_overlap_classes::{Disputes, disputes_of};
use hq_overlap_sets::{Arena, document_arena};
use hq_schema::Schema;
use std::alloc::Global;

/// The most selection sets at fault, with their fields and spreads, that are compared in pairs where there are too many groups of those
/// that are put together.
pub const MOST_AT_FAULT: usize = 10_000;

// The least place, by groups of sets or by pairs.
fn first_among(alloc: Global, arena: &Arena<'_>) -> Result<Option<u64>, Memory>
    ensures { IfOk result (IsFirst (arena_view arena.now)) }
{
    match first_by_groups(alloc, arena)? {
        Search::First(place) => Ok(place),
        Search::Known(conflict) => first_by_walk(alloc, arena, conflict),
    }
}

// The same by what is kept of a document's sets, unless too much is at fault.
fn first_kept(
    alloc: Global,
    arena: &Arena<'_>,
    disputes: &Disputes<'_>,
    kept: &Arena<'_>,
) -> Result<Option<u64>, OverlapRefusal>
    requires so { IsSo (schema_view arena.now.schema.now) (arena_view arena.now) disputes.now }
    requires smaller { (s : ℕ) → size_at (arena_view kept.now) s ≤ size_at (arena_view arena.now) s }
    ensures first { IfOk result (IsFirst (arena_view kept.now)) }
    ensures many { result ≡ Err OverlapRefusal.TooMuchAtFault → MoreAtFault (arena_view arena.now) MOST_AT_FAULT }
{
    match first_by_groups(alloc, kept)? {
        Search::First(place) => Ok(place),
        Search::Known(conflict) => {
            if disputes.are_more_at_fault(arena, kept, MOST_AT_FAULT) {
                return Err(OverlapRefusal::TooMuchAtFault);
            }
            Ok(first_by_walk(alloc, kept, conflict)?)
        }
    }
}

// The same by the document's selection sets, without the fields that are in no dispute.
fn first_sifted<'a>(
    alloc: Global,
    arena: &Arena<'a>,
    disputes: &Disputes<'a>,
) -> Result<Option<u64>, OverlapRefusal>
    requires so { IsSo (schema_view arena.now.schema.now) (arena_view arena.now) disputes.now }
    requires known { IsTrueOfAll (noted_in (schema_view arena.now.schema.now) disputes.now) (arena_view arena.now) }
    ensures first { IfOk result (IsFirst (arena_view arena.now)) }
    ensures many { result ≡ Err OverlapRefusal.TooMuchAtFault → MoreAtFault (arena_view arena.now) MOST_AT_FAULT }
{
    let sets = disputes.kept_sets(alloc, arena)?;
    let kept = Arena {
        schema: arena.schema,
        sets,
    };
    first_kept(alloc, arena, disputes, &kept)
}

// The same by the document's selection sets.
fn first_in(alloc: Global, arena: &Arena<'_>) -> Result<Option<u64>, OverlapRefusal>
    ensures first { IfOk result (IsFirst (arena_view arena.now)) }
    ensures many { result ≡ Err OverlapRefusal.TooMuchAtFault → MoreAtFault (arena_view arena.now) MOST_AT_FAULT }
{
    let disputes = disputes_of(alloc, arena)?;
    let fits = disputes.fits_sets(alloc, arena)?;
    if fits {
        return first_sifted(alloc, arena, &disputes);
    }
    Ok(first_among(alloc, arena)?)
}

/// The least place of a later field of two that are reached together and cannot merge; None where there are no such two. It is refused
/// for another cause than want of memory only where the selection sets at fault, with their fields and spreads, are more than 10,000.
pub fn first_overlap(
    alloc: Global,
    document: &Document,
    schema: &Schema,
) -> Result<Option<u64>, OverlapRefusal>
    ensures first { IfOk result (IsOverlap (schema_view schema.now) (document_view document.now)) }
    ensures place { IfOk result (λ place. place ≡ overlap_place (schema_view schema.now) (document_view document.now)) }
    ensures many { result ≡ Err OverlapRefusal.TooMuchAtFault → MoreAtFault (document_sets (schema_view schema.now) (document_view document.now)) 10000 }
{
    let arena = document_arena(alloc, schema, document)?;
    first_in(alloc, &arena)
}
