//! CollectFields (GraphQL October 2021, 6.3.2).
ghost use Rattle.std.specs.Prelude.{◌≡◌, map, IfOk, OnOk};
ghost use Rattle.hq_gql_tree.specs.Selections.{selection_view, field_view, spread_view};
ghost use Rattle.hq_gql_tree.specs.Selections.{spread as spread_tree};
ghost use Rattle.hq_request_collect.specs.Collect.{collect, collect_one, collect_included, none, with_field, visit};
ghost use Rattle.hq_request_collect.specs.Seen.{request_seen, groups_seen, seen};

use crate::fragments::Fragments;
use crate::groups::{Groups, add, response_key};
use crate::included::is_selected;
use crate::selections::inline_selections;
use hq_base::{Memory, Txt};
use hq_gql_nodes::{Names, note};
use hq_gql_tree::{Field, Selection, Spread};
use hq_request_coerce::VarValues;
use indexmap::IndexMap;
use std::alloc::Global;
use std::collections::HashMap;

/// A document by its fragments, with the coerced variables of its operation.
#[derive(Clone, Copy, Drop)]
pub struct Request<'b, 'a> {
    pub fragments: &'b Fragments<'a>,
    pub vars: &'b VarValues,
}

/// The fields that are collected so far, and the fragments that were put in.
#[derive(Drop)]
pub struct Collected<'a> {
    pub groups: Groups<'a>,
    pub visited: Names<'a>,
}

impl<'a> Collected<'a> {
    /// No fields. Takes no memory.
    pub fn new(alloc: Global) -> Self
        ensures { seen result ≡ none }
    {
        Collected {
            groups: IndexMap::new(alloc),
            visited: HashMap::new(alloc),
        }
    }

    fn add(&mut self, alloc: Global, field: &'a Field) -> Result<(), Memory>
        ensures { OnOk result (seen self.new ≡ with_field (field_view field.now) (seen self.old)) }
    {
        add(alloc, &mut self.groups, response_key(field), field)
    }

    // Notes that a fragment is put in. Whether it was before.
    fn visit(&mut self, name: &'a Txt) -> Result<bool, Memory>
        ensures before { IfOk result (λ before. before ≡ (seen self.old).visited name.now) }
        ensures noted { OnOk result (seen self.new ≡ visit name.now (seen self.old)) }
    {
        note(&mut self.visited, name.as_str())
    }
}

// The selections of a fragment, where it was not put in before.
#[cycle(collect)]
fn collect_spread<'b, 'a>(
    alloc: Global,
    request: &Request<'b, 'a>,
    levels: u32,
    spread: &'a Spread,
    collected: &mut Collected<'a>,
) -> Result<(), Memory>
    ensures { OnOk result (seen collected.new ≡ collect_included (collect levels (request_seen request.now)) (request_seen request.now) (spread_tree (spread_view spread.now)) (seen collected.old)) }
{
    if collected.visit(&spread.name)? {
        return Ok(());
    }
    let selections = request.fragments.selections(&spread.name);
    collect(alloc, request, levels, selections, collected)
}

// A selection that is included.
#[cycle(collect)]
fn collect_included<'b, 'a>(
    alloc: Global,
    request: &Request<'b, 'a>,
    levels: u32,
    selection: &'a Selection,
    collected: &mut Collected<'a>,
) -> Result<(), Memory>
    ensures { OnOk result (seen collected.new ≡ collect_included (collect levels (request_seen request.now)) (request_seen request.now) (selection_view selection.now) (seen collected.old)) }
{
    match selection {
        Selection::Field(field) => collected.add(alloc, field),
        Selection::Spread(spread) => collect_spread(alloc, request, levels, spread, collected),
        Selection::Inline(inline) => {
            collect(alloc, request, levels, inline_selections(inline), collected)
        }
    }
}

#[cycle(collect)]
fn collect_one<'b, 'a>(
    alloc: Global,
    request: &Request<'b, 'a>,
    levels: u32,
    selection: &'a Selection,
    collected: &mut Collected<'a>,
) -> Result<(), Memory>
    ensures { OnOk result (seen collected.new ≡ collect_one (collect levels (request_seen request.now)) (request_seen request.now) (selection_view selection.now) (seen collected.old)) }
{
    if is_selected(request.vars, selection) {
        return collect_included(alloc, request, levels, selection, collected);
    }
    Ok(())
}

/// Collects a selection set behind what is collected already, with fragments put in up to `levels` deep.
#[cycle(collect)]
pub fn collect<'b, 'a>(
    alloc: Global,
    request: &Request<'b, 'a>,
    levels: u32,
    selections: &'a [Selection],
    collected: &mut Collected<'a>,
) -> Result<(), Memory>
    ensures { OnOk result (seen collected.new ≡ collect levels (request_seen request.now) (map selection_view selections.now) (seen collected.old)) }
{
    if levels == 0 {
        return Ok(());
    }
    for selection in selections {
        collect_one(alloc, request, levels - 1, selection, collected)?;
    }
    Ok(())
}

/// The fields of a selection set under their response keys, fragments put in up to `levels` deep.
pub fn collect_fields<'b, 'a>(
    alloc: Global,
    request: &Request<'b, 'a>,
    levels: u32,
    selections: &'a [Selection],
) -> Result<Groups<'a>, Memory>
    ensures { IfOk result (λ g. groups_seen g.entries ≡ (collect levels (request_seen request.now) (map selection_view selections.now) none).groups) }
{
    let mut collected = Collected::new(alloc);
    collect(alloc, request, levels, selections, &mut collected)?;
    Ok(collected.groups)
}
