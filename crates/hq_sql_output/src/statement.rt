//! The answer that a statement means.
ghost use Rattle.std.specs.Prelude.{◌≡◌, codes, map, IfOk};
ghost use Rattle.hq_answer.specs.Answers.{IsAnswer, named_text};
ghost use Rattle.hq_sql_tree.specs.View.{pair_view, select_view};
ghost use Rattle.hq_sql_tree.specs.Meaning.{meaning, nothing};
ghost use Rattle.hq_sql_access.specs.View.{world_of};
ghost use Rattle.hq_sql_output.specs.Placed.{names_there};
ghost use Rattle.hq_sql_output.specs.Selected.{scopes_in};
ghost use Rattle.hq_sql_output.specs.Texts.{IsFirstObject, named_pair};

use crate::elements::Element;
use crate::listed::{Rows, object_named};
use crate::places::{Placed, placed_rows, places_of};
use crate::written::write_place;
use hq_answer::{Answer, AnswerMember};
use hq_base::{Bytes, Memory, Txt};
use hq_sql_access::pinned::Pinned;
use hq_sql_access::place::JoinedRow;
use hq_sql_access::row::cell_taken;
use hq_sql_access::scope::Scope;
use hq_sql_access::stages::{Parts, stages};
use hq_sql_select::{first, made_of};
use hq_sql_tree::{ExprPairList, Select};
use std::alloc::Global;

// The name of a statement's output.
fn value_name(alloc: Global) -> Result<Txt, Memory>
    ensures { IfOk result (λ name. name ≡ codes "v") }
{
    let mut name = Txt::new(alloc);
    name.push_str("v")?;
    Ok(name)
}

// The members of an object at a place.
fn members_at<'d>(
    alloc: Global,
    pairs: &'d ExprPairList,
    placed: &Placed<'_, 'd>,
    place: &JoinedRow<'d>,
    world: &Pinned<'d>,
    scope: &Scope<'_, 'd>,
) -> Result<Vec<AnswerMember>, Memory>
    ensures { IfOk result (λ members. map named_text members.items ≡ map (named_pair (names_there placed.now world.now scope.now place.now)) (map pair_view pairs.now.items)) }
{
    let mut members = Vec::with_capacity(alloc, pairs.len())?;
    for pair in pairs {
        let name = pair.name.copy(alloc)?;
        let mut text = Bytes::new(alloc);
        write_place(
            alloc,
            Element::Whole(&pair.value),
            placed,
            place,
            world,
            scope,
            &mut text,
        )?;
        members.push(AnswerMember { name, text })?;
    }
    Ok(members)
}

// An object at the first row of a select.
fn object_first<'d>(
    alloc: Global,
    rows: &Rows<'d>,
    pairs: &'d ExprPairList,
    world: &Pinned<'d>,
) -> Result<Answer, Memory>
    ensures { IfOk result (λ answer. IsFirstObject (map pair_view pairs.now.items) (scopes_in rows.now (world_of world.now) nothing) answer) }
{
    let scope = Scope::Nothing;
    let made = made_of(alloc, rows.from, world, &scope)?;
    let stages = stages(alloc, rows.parts, rows.joins)?;
    let placed = placed_rows(rows, &made, &stages, world);
    let places = places_of(alloc, rows, &placed, world, &scope)?;
    match places.first() {
        Some(place) => {
            let members = members_at(alloc, pairs, &placed, place, world, &scope)?;
            Ok(Answer::Object(members))
        }
        None => Ok(Answer::Other(Bytes::from_slice(alloc, b"null")?)),
    }
}

// The same by its tree.
fn answer_by_tree<'d>(
    alloc: Global,
    select: &'d Select,
    name: &Txt,
    world: &Pinned<'d>,
) -> Result<Answer, Memory>
    requires { name.now ≡ codes "v" }
    ensures { IfOk result (λ answer. IsAnswer answer (meaning (select_view select.now) (world_of world.now))) }
{
    let scope = Scope::Nothing;
    let row = first(alloc, select, world, &scope)?;
    let json = cell_taken(row, name).into_json(alloc)?;
    Answer::of_json(alloc, json)
}

/// The answer that a statement means: of rows with an object each member is written as it is read.
pub fn answer<'d>(alloc: Global, select: &'d Select, world: &Pinned<'d>) -> Result<Answer, Memory>
    ensures { IfOk result (λ answer. IsAnswer answer (meaning (select_view select.now) (world_of world.now))) }
{
    let name = value_name(alloc)?;
    if let Select::Rows {
        distinct,
        outs,
        from,
        joins,
        filter,
        order,
        limit,
        offset,
    } = select
    {
        if let Some(pairs) = object_named(outs.as_slice(), &name) {
            let parts = Parts {
                distinct,
                outs,
                filter,
                order,
            };
            let rows = Rows {
                parts,
                from,
                joins: joins.as_slice(),
                limit: *limit,
                offset: *offset,
            };
            return object_first(alloc, &rows, pairs, world);
        }
    }
    answer_by_tree(alloc, select, &name, world)
}
