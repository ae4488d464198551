//! The text of expressions, outputs and aggregates. Of a join that is put off no row is made: its output is written.
ghost use Rattle.std.specs.Prelude.{◌≡◌, ◌++◌, [], map, OnOk};
ghost use Rattle.hq_sql_tree.specs.View.{expr_view, pair_view, select_view};
ghost use Rattle.hq_sql_tree.specs.Meaning.{rows_of};
ghost use Rattle.hq_sql_access.specs.View.{first_row, world_of, names_of};
ghost use Rattle.hq_sql_select.specs.Gathered.{names_joined};
ghost use Rattle.hq_sql_output.specs.Elements.{content_text, element_text, row_text, text_at};
ghost use Rattle.hq_sql_output.specs.Placed.{names_there, found_in};
ghost use Rattle.hq_sql_output.specs.Selected.{page_at, scopes_in};
ghost use Rattle.hq_sql_output.specs.Texts.{cell_text, text_of, pairs_text, texts_of, more_texts, first_text, wanted_text, lent_fold};

use crate::elements::{Content, Element, TableObject, element_of, table_object};
use crate::grouped::write_fold;
use crate::listed::{Listed, Rows, list_of, output_named};
use crate::parts::{put_cell, put_separator};
use crate::places::{
    Found, Placed, Wanted, found_rows, has_begun, placed_rows, places_of, stretch,
};
use hq_base::{Bytes, Memory, Txt, Val, put_quoted};
use hq_sql_access::pinned::Pinned;
use hq_sql_access::place::JoinedRow;
use hq_sql_access::resolved::{Resolved, resolve};
use hq_sql_access::row::{Made, cell_at};
use hq_sql_access::scope::{Group, Scope, row_at};
use hq_sql_access::stages::{Parts, has_due, stages};
use hq_sql_constants::cell_in;
use hq_sql_scans::positions::{Positions, number_of};
use hq_sql_select::{made_of, value, with_due};
use hq_sql_tree::{Expr, ExprPairList, Join, Pred, Select};
use std::alloc::Global;

/// The JSON of an expression in its scope.
#[cycle(write)]
fn write_value<'d>(
    alloc: Global,
    expr: &'d Expr,
    world: &Pinned<'d>,
    scope: &Scope<'_, 'd>,
    out: &mut Bytes,
) -> Result<(), Memory>
    ensures { OnOk result (out.new ≡ out.old ++ text_of (expr_view expr.now) (names_of scope.now world.now)) }
{
    match expr {
        Expr::Column { alias, name, .. } => write_column(alloc, alias, name, world, scope, out),
        Expr::Object(pairs) => {
            out.push(b'{')?;
            write_pairs(alloc, pairs, world, scope, out)?;
            out.push(b'}')
        }
        _ => {
            let cell = value(alloc, expr, world, Group::Alone, scope)?;
            put_cell(alloc, out, &cell)
        }
    }
}

// The pairs of an object, between its braces.
#[cycle(write)]
fn write_pairs<'d>(
    alloc: Global,
    pairs: &'d ExprPairList,
    world: &Pinned<'d>,
    scope: &Scope<'_, 'd>,
    out: &mut Bytes,
) -> Result<(), Memory>
    ensures { OnOk result (out.new ≡ out.old ++ pairs_text (map pair_view pairs.now.items) [] (names_of scope.now world.now)) }
{
    for (at, pair) in pairs.iter().enumerate() {
        put_separator(out, false, at)?;
        put_quoted(out, &pair.name)?;
        out.push(b':')?;
        write_value(alloc, &pair.value, world, scope, out)?;
    }
    Ok(())
}

// A column of an alias.
#[cycle(write)]
fn write_column<'d>(
    alloc: Global,
    alias: &Txt,
    name: &Txt,
    world: &Pinned<'d>,
    scope: &Scope<'_, 'd>,
    out: &mut Bytes,
) -> Result<(), Memory>
    ensures { OnOk result (out.new ≡ out.old ++ cell_text ((names_of scope.now world.now) alias.now) name.now) }
{
    match resolve(*scope, alias) {
        Resolved::Missing => out.append(b"null"),
        Resolved::Lent(row) => {
            let cell = cell_at(alloc, row, name)?;
            put_cell(alloc, out, &cell)
        }
        Resolved::First { select, scope } => write_output(alloc, select, name, world, &scope, out),
    }
}

// The output of this name in the first row of a select.
#[cycle(write)]
fn write_output<'d>(
    alloc: Global,
    select: &'d Select,
    name: &Txt,
    world: &Pinned<'d>,
    scope: &Scope<'_, 'd>,
    out: &mut Bytes,
) -> Result<(), Memory>
    ensures { OnOk result (out.new ≡ out.old ++ cell_text (first_row (rows_of (select_view select.now) (world_of world.now) (names_of scope.now world.now))) name.now) }
{
    match select {
        Select::Fold {
            out: folded,
            rows,
            alias,
        } => {
            if folded.name == *name {
                write_folded(alloc, &folded.value, rows, alias, world, scope, out)
            } else {
                out.append(b"null")
            }
        }
        Select::Rows {
            distinct,
            outs,
            from,
            joins,
            filter,
            order,
            limit,
            offset,
        } => {
            let Some(element) = output_named(outs.as_slice(), name) else {
                return out.append(b"null");
            };
            let parts = Parts {
                distinct,
                outs,
                filter,
                order,
            };
            let rows = Rows {
                parts,
                from,
                joins: joins.as_slice(),
                limit: *limit,
                offset: *offset,
            };
            let listed = Listed { rows, element };
            write_rows(alloc, &listed, Wanted::First, world, scope, out)
        }
    }
}

// An expression whose aggregates are taken over the rows of a select.
#[cycle(write)]
fn write_folded<'d>(
    alloc: Global,
    expr: &'d Expr,
    select: &'d Select,
    alias: &'d Txt,
    world: &Pinned<'d>,
    scope: &Scope<'_, 'd>,
    out: &mut Bytes,
) -> Result<(), Memory>
    ensures { OnOk result (out.new ≡ out.old ++ lent_fold expr.now select.now alias.now world.now scope.now) }
{
    match list_of(expr, select, alias) {
        Some(listed) => {
            out.push(b'[')?;
            write_rows(alloc, &listed, Wanted::All, world, scope, out)?;
            out.push(b']')
        }
        None => write_fold(alloc, expr, select, alias, world, scope, out),
    }
}

// An expression at the rows of a select that are wanted.
#[cycle(write)]
fn write_rows<'d>(
    alloc: Global,
    listed: &Listed<'d>,
    wanted: Wanted,
    world: &Pinned<'d>,
    scope: &Scope<'_, 'd>,
    out: &mut Bytes,
) -> Result<(), Memory>
    ensures { OnOk result (out.new ≡ out.old ++ wanted_text wanted (expr_view listed.now.element.now) (scopes_in listed.now.rows (world_of world.now) (names_of scope.now world.now))) }
{
    let rows = &listed.rows;
    let made = made_of(alloc, rows.from, world, scope)?;
    let stages = stages(alloc, rows.parts, rows.joins)?;
    let placed = placed_rows(rows, &made, &stages, world);
    match wanted {
        Wanted::First => write_first(alloc, listed.element, rows, &placed, world, scope, out),
        Wanted::All => write_all(alloc, listed.element, rows, &placed, world, scope, out),
    }
}

// An expression at the first of the rows, null where there is none.
#[cycle(write)]
fn write_first<'d>(
    alloc: Global,
    expr: &'d Expr,
    rows: &Rows<'d>,
    placed: &Placed<'_, 'd>,
    world: &Pinned<'d>,
    scope: &Scope<'_, 'd>,
    out: &mut Bytes,
) -> Result<(), Memory>
    requires { placed.now.joins ≡ rows.now.joins }
    ensures { OnOk result (out.new ≡ out.old ++ first_text (expr_view expr.now) (page_at rows.now placed.now world.now scope.now)) }
{
    let places = places_of(alloc, rows, &*placed, world, &*scope)?;
    match places.first() {
        Some(place) => {
            write_place(
                alloc,
                Element::Whole(expr),
                placed,
                place,
                world,
                scope,
                out,
            )
        }
        None => out.append(b"null"),
    }
}

// An expression at all rows, with commas between: where they need no arranging they are written as they are found.
#[cycle(write)]
fn write_all<'d>(
    alloc: Global,
    expr: &'d Expr,
    rows: &Rows<'d>,
    placed: &Placed<'_, 'd>,
    world: &Pinned<'d>,
    scope: &Scope<'_, 'd>,
    out: &mut Bytes,
) -> Result<(), Memory>
    requires { placed.now.joins ≡ rows.now.joins }
    ensures { OnOk result (out.new ≡ out.old ++ texts_of (expr_view expr.now) (page_at rows.now placed.now world.now scope.now)) }
{
    match found_rows(alloc, rows, &*placed, world, &*scope)? {
        Found::Arranged(positions) => {
            let filter = rows.parts.filter;
            write_found(alloc, expr, filter, placed, positions, world, scope, out)
        }
        Found::Places(places) => write_each(alloc, expr, placed, &places, false, world, scope, out),
    }
}

// An expression at what WHERE keeps at these positions, stretch by stretch.
#[cycle(write)]
fn write_found<'d>(
    alloc: Global,
    expr: &'d Expr,
    filter: &'d Option<Pred>,
    placed: &Placed<'_, 'd>,
    positions: Positions<'d>,
    world: &Pinned<'d>,
    scope: &Scope<'_, 'd>,
    out: &mut Bytes,
) -> Result<(), Memory>
    ensures { OnOk result (out.new ≡ out.old ++ texts_of (expr_view expr.now) (found_in placed.now positions.entry filter.now world.now scope.now)) }
{
    let end = number_of(positions);
    let mut next = 0usize;
    let mut begun = false;
    while next < end {
        let piece = stretch(alloc, filter, &*placed, positions, next, world, &*scope)?;
        let places = piece.places.as_slice();
        write_each(alloc, expr, placed, places, begun, world, scope, out)?;
        begun = has_begun(begun, places);
        next = piece.next;
    }
    Ok(())
}

// An expression at each of these places, with commas between, and one before them where something was written already.
#[cycle(write)]
fn write_each<'d>(
    alloc: Global,
    expr: &'d Expr,
    placed: &Placed<'_, 'd>,
    places: &[JoinedRow<'d>],
    begun: bool,
    world: &Pinned<'d>,
    scope: &Scope<'_, 'd>,
    out: &mut Bytes,
) -> Result<(), Memory>
    ensures { OnOk result (out.new ≡ out.old ++ more_texts begun (map (text_of (expr_view expr.now)) (map (names_there placed.now world.now scope.now) places.now))) }
{
    match table_object(alloc, expr, placed, places.len())? {
        Some(object) => {
            let element = element_of(&object);
            write_elements(alloc, element, placed, places, begun, world, scope, out)
        }
        None => {
            let element = Element::Whole(expr);
            write_elements(alloc, element, placed, places, begun, world, scope, out)
        }
    }
}

// The same of what is written at each of them.
#[cycle(write)]
fn write_elements<'d>(
    alloc: Global,
    element: Element<'_, 'd>,
    placed: &Placed<'_, 'd>,
    places: &[JoinedRow<'d>],
    begun: bool,
    world: &Pinned<'d>,
    scope: &Scope<'_, 'd>,
    out: &mut Bytes,
) -> Result<(), Memory>
    ensures { OnOk result (out.new ≡ out.old ++ more_texts begun (map (text_at element.entry placed.now world.now scope.now) places.now)) }
{
    for (at, place) in places.iter().enumerate() {
        put_separator(out, begun, at)?;
        write_place(alloc, element, placed, place, world, scope, out)?;
    }
    Ok(())
}

/// What is written at a place.
#[cycle(write)]
pub fn write_place<'d>(
    alloc: Global,
    element: Element<'_, 'd>,
    placed: &Placed<'_, 'd>,
    place: &JoinedRow<'d>,
    world: &Pinned<'d>,
    scope: &Scope<'_, 'd>,
    out: &mut Bytes,
) -> Result<(), Memory>
    ensures { OnOk result (out.new ≡ out.old ++ text_at element.entry placed.now world.now scope.now place.now) }
{
    if let Element::Plain(object) = element {
        return write_object(alloc, object, place.position, world, &Scope::Nothing, out);
    }
    let at = Scope::Bound {
        alias: placed.alias,
        row: row_at(placed.source, place.position),
        outer: &*scope,
    };
    write_at(alloc, element, placed, place, world, &at, out)
}

// The same where the row is in scope.
#[cycle(write)]
fn write_at<'d>(
    alloc: Global,
    element: Element<'_, 'd>,
    placed: &Placed<'_, 'd>,
    place: &JoinedRow<'d>,
    world: &Pinned<'d>,
    scope: &Scope<'_, 'd>,
    out: &mut Bytes,
) -> Result<(), Memory>
    ensures { OnOk result (out.new ≡ out.old ++ element_text element.entry place.now.position (names_joined placed.now.joins.now place.now.joined.items world.now (names_of scope.now world.now))) }
{
    let position = place.position;
    let joins = placed.joins;
    if has_due(placed.stages) {
        let all = with_due(alloc, joins, placed.stages, &place.joined, world, scope)?;
        return write_beside(alloc, element, position, joins, &all, world, scope, out);
    }
    write_beside(
        alloc,
        element,
        position,
        joins,
        &place.joined,
        world,
        scope,
        out,
    )
}

// The same where all joins are evaluated that are to be before the outputs.
#[cycle(write)]
fn write_beside<'d>(
    alloc: Global,
    element: Element<'_, 'd>,
    position: usize,
    joins: &'d [Join],
    joined: &[Option<Made<'d>>],
    world: &Pinned<'d>,
    scope: &Scope<'_, 'd>,
    out: &mut Bytes,
) -> Result<(), Memory>
    ensures { OnOk result (out.new ≡ out.old ++ element_text element.entry position (names_joined joins.now joined.now world.now (names_of scope.now world.now))) }
{
    let at = Scope::Joined {
        joins,
        rows: joined,
        outer: &*scope,
    };
    match element {
        Element::Whole(expr) => write_value(alloc, expr, world, &at, out),
        Element::Plain(object) => {
            write_object(alloc, object, position, world, &Scope::Nothing, out)
        }
        Element::Object(object) => write_object(alloc, object, position, world, &at, out),
    }
}

// An object at a row of its table.
#[cycle(write)]
fn write_object<'d>(
    alloc: Global,
    object: &TableObject<'d>,
    position: usize,
    world: &Pinned<'d>,
    scope: &Scope<'_, 'd>,
    out: &mut Bytes,
) -> Result<(), Memory>
    ensures { OnOk result (out.new ≡ out.old ++ row_text object.now position (names_of scope.now world.now)) }
{
    let values = object.table.rows.row(position);
    out.push(b'{')?;
    for (at, member) in object.members.iter().enumerate() {
        put_separator(out, false, at)?;
        out.append(member.head.as_slice())?;
        write_content(alloc, &member.content, values, world, scope, out)?;
    }
    out.push(b'}')
}

// The value of a member.
#[cycle(write)]
fn write_content<'d>(
    alloc: Global,
    content: &Content<'d>,
    row: &[Val],
    world: &Pinned<'d>,
    scope: &Scope<'_, 'd>,
    out: &mut Bytes,
) -> Result<(), Memory>
    ensures { OnOk result (out.new ≡ out.old ++ content_text content.now row.now (names_of scope.now world.now)) }
{
    match content {
        Content::Column(column) => put_cell(alloc, out, &cell_in(row, *column)),
        Content::Constant(text) => out.append(text.as_slice()),
        Content::Other(expr) => write_value(alloc, expr, world, scope, out),
    }
}
