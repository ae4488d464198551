//! Scans: which rows of FROM and its joins WHERE keeps.
ghost use Rattle.std.specs.Prelude.{◌≡◌, ◌+◌, ◌<◌, ◌≤◌, false, true, length, IfOk, IfSome, OnOk};
ghost use Rattle.hq_sql_conjuncts.specs.Conjuncts.{lent_weight};
ghost use Rattle.hq_sql_conjuncts.specs.Weight.{filter_weight};
ghost use Rattle.hq_sql_tree.specs.Tree.{no_join};
ghost use Rattle.hq_sql_tree.specs.View.{filter_view};
ghost use Rattle.hq_sql_access.specs.KnownRows.{IsKnown, Tells};
ghost use Rattle.hq_sql_scans.specs.Pages.{is_enough};
ghost use Rattle.hq_sql_scans.specs.Positions.{positions_of};
ghost use Rattle.hq_sql_access.specs.Sources.{has_items};
ghost use Rattle.hq_sql_access.specs.View.{source_view, world_of, names_of};
ghost use Rattle.hq_sql_select.specs.Gathered.{joins_view, kept_joins};
ghost use Rattle.hq_sql_select.specs.Selected.{Adds, Continues, Told, kept_from};

use crate::joins::gather;
use crate::truths::all_hold;
use hq_base::{Memory, Txt};
use hq_sql_access::pinned::{KnownRows, Pinned};
use hq_sql_access::place::{JoinedRow, add_places};
use hq_sql_access::scope::{Scope, Source, row_at};
use hq_sql_access::stages::Stage;
use hq_sql_constants::{Verdict, sieve_of, verdict_at};
use hq_sql_scans::pages::has_enough;
use hq_sql_scans::positions::{Positions, looked_at, number_of, position_at};
use hq_sql_tree::{Join, Pred};
use std::alloc::Global;

/// Places of rows that WHERE keeps, and the number of the next position.
#[derive(Drop)]
pub struct Piece<'d> {
    pub places: Vec<JoinedRow<'d>>,
    pub next: usize,
}

fn has_no_join(joins: &[Join]) -> bool
    ensures { result ≡ true → joins_view joins.now ≡ no_join }
{
    joins.is_empty()
}

// Adds the places of the rows of the joins that WHERE keeps at a row of FROM, of which something may be told.
#[cycle(eval)]
fn add_row<'d>(
    alloc: Global,
    places: &mut Vec<JoinedRow<'d>>,
    position: usize,
    verdict: Verdict,
    joins: &'d [Join],
    stages: &[Stage],
    filter: &'d Option<Pred>,
    world: &Pinned<'d>,
    scope: &Scope<'_, 'd>,
) -> Result<(), Memory>
    requires { Told (joins_view joins.now) filter.now world.now (names_of scope.now world.now) verdict }
    ensures { OnOk result (Adds (joins_view joins.now) filter.now world.now (names_of scope.now world.now) position places.old.items places.new.items) }
{
    match verdict {
        Verdict::Kept => {
            if has_no_join(joins) {
                let joined = Vec::new(alloc);
                places.push(JoinedRow { position, joined })?;
                return Ok(());
            }
            let none = None;
            let lists = gather(alloc, joins, stages, &none, world, scope)?;
            add_places(places, position, lists)
        }
        Verdict::Dropped => Ok(()),
        Verdict::Open => {
            let lists = gather(alloc, joins, stages, filter, world, scope)?;
            add_places(places, position, lists)
        }
    }
}

/// The places of the rows of FROM and the joins that WHERE keeps, among those at the positions from this one on: of all of them, or up
/// to a position behind which there are enough places.
#[cycle(eval)]
pub fn scan_from<'s, 'd>(
    alloc: Global,
    source: Source<'s, 'd>,
    alias: &'d Txt,
    joins: &'d [Join],
    stages: &[Stage],
    filter: &'d Option<Pred>,
    positions: Positions<'_>,
    from: usize,
    enough: Option<usize>,
    world: &Pinned<'d>,
    scope: &'s Scope<'s, 'd>,
) -> Result<Piece<'d>, Memory>
    requires { from ≤ length (positions_of positions) }
    ensures places { IfOk result (λ piece. Continues source.entry positions.entry from alias.now joins.now filter.now world.now scope.now piece) }
    ensures within { IfOk result (λ piece. piece.next ≤ length (positions_of positions.entry)) }
    ensures forward { IfOk result (λ piece. from < length (positions_of positions.entry) → from < piece.next) }
    ensures whole { IfOk result (λ piece. is_enough enough (length piece.places.items) ≡ false → piece.next ≡ length (positions_of positions.entry)) }
{
    let mut places = Vec::new(alloc);
    let end = number_of(positions);
    let sieve = sieve_of(alloc, source, alias, joins, filter, end - from, world)?;
    let tests = &sieve;
    for turn in from..end {
        let position = position_at(positions, turn);
        let verdict = verdict_at(alloc, source, alias, joins, filter, tests, position, world)?;
        let at = Scope::Bound {
            alias,
            row: row_at(source, position),
            outer: &*scope,
        };
        add_row(
            alloc,
            &mut places,
            position,
            verdict,
            joins,
            stages,
            filter,
            world,
            &at,
        )?;
        if has_enough(enough, places.len()) {
            let next = turn + 1;
            return Ok(Piece { places, next });
        }
    }
    Ok(Piece { places, next: end })
}

// Whether WHERE keeps a row of the joins at a row of FROM, where something may be known of the row of this position.
#[cycle(eval)]
fn keeps_some<'d>(
    alloc: Global,
    position: usize,
    joins: &'d [Join],
    stages: &[Stage],
    filter: &'d Option<Pred>,
    known: Option<&KnownRows<'d>>,
    world: &Pinned<'d>,
    scope: &Scope<'_, 'd>,
) -> Result<bool, Memory>
    requires alone { IfSome known (λ k. joins_view joins.now ≡ no_join) }
    requires tells { IfSome known (λ k. position < length k.now.truths.items → Tells (filter_view filter.now) (world_of world.now) k.now position (names_of scope.now world.now)) }
    requires lighter { IfSome known (λ k. 1 + lent_weight k.now.rest.items ≤ filter_weight filter.now) }
    ensures { IfOk result (λ b. b ≡ has_items (kept_joins (joins_view joins.now) filter.now world.now (names_of scope.now world.now))) }
{
    if let Some(known) = known {
        if let Some(truth) = known.truths.get(position) {
            if !*truth {
                return Ok(false);
            }
            return all_hold(alloc, &known.rest, world, scope);
        }
    }
    Ok(!gather(alloc, joins, stages, filter, world, scope)?.is_empty())
}

/// Whether WHERE keeps a row of FROM and the joins, of which something may be known.
#[cycle(eval)]
pub fn any_row<'s, 'd>(
    alloc: Global,
    source: Source<'s, 'd>,
    alias: &'d Txt,
    joins: &'d [Join],
    stages: &[Stage],
    filter: &'d Option<Pred>,
    known: Option<&KnownRows<'d>>,
    world: &Pinned<'d>,
    scope: &'s Scope<'s, 'd>,
) -> Result<bool, Memory>
    requires known { IfSome known (λ k. IsKnown (world_of world.now) (source_view source) alias.now (joins_view joins.now) (filter_view filter.now) k.now) }
    requires lighter { IfSome known (λ k. 1 + lent_weight k.now.rest.items ≤ filter_weight filter.now) }
    ensures { IfOk result (λ b. b ≡ has_items (kept_from (source_view source.entry) alias.now joins.now filter.now world.now scope.now)) }
{
    if !world.work.step() {
        return Err(Memory);
    }
    let looked = looked_at(
        alloc,
        source,
        alias,
        joins,
        filter,
        &world.work.looked,
        &*scope,
    )?;
    for turn in 0..number_of(looked) {
        if !world.work.step() {
            return Err(Memory);
        }
        let position = position_at(looked, turn);
        let at = Scope::Bound {
            alias,
            row: row_at(source, position),
            outer: &*scope,
        };
        let keeps = keeps_some(alloc, position, joins, stages, filter, known, world, &at)?;
        if keeps {
            return Ok(true);
        }
    }
    Ok(false)
}
