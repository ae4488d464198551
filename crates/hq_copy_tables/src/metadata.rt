//! The metadata of a copy.
ghost use Rattle.std.specs.Prelude.{◌≡◌, ◌<◌, ◌^◌, ◌++◌, ◌∷◌, [], IfOk, OnOk, map, slice_index_or};
ghost use Rattle.hq_copy_definition.specs.Extras.{extra_name};
ghost use Rattle.hq_copy_definition.specs.Metadata.{copied_entry, copied_meta, copied_names, copied_pair, copied_rel, from_place, places, reader, reader_permission, to_place, width};
ghost use Rattle.hq_copy_definition.specs.Sources.{kept_relationships, link_remote};
ghost use Rattle.hq_copy_tables.specs.Originals.{IsOriginal, meta_in, role_in, schema_in};
ghost use Rattle.hq_copy_tables.specs.Views.{extra_view, link_view, source_view};
ghost use Rattle.hq_model.specs.Meta.{meta_view, perm_view, tracked_view};
ghost use Rattle.hq_model.specs.PermView.{permission_view};
ghost use Rattle.hq_model.specs.Schema.{rel};

use crate::extras::{Extra, ends_of, extra_name, extras_of};
use crate::linked::link_remote;
use crate::places::{from_end_place, table_place, to_end_place};
use crate::relationships::kept_relationships;
use crate::{Link, Original, Source};
use hq_base::{List, Memory, Txt};
use hq_model::{
    Bexp, ColId, ColList, Meta, Pair, PairList, Perm, PermList, PermView, Rel, RelId, RelList,
    TableId, Tracked, TryCopy, TxtList,
};
use std::alloc::Global;

// The role that sees all that is copied.
fn reader(alloc: Global) -> Result<Txt, Memory>
    ensures { IfOk result (λ name. name ≡ reader) }
{
    let mut name = Txt::new(alloc);
    name.push_str("reader")?;
    Ok(name)
}

// How many columns of a table are permitted.
fn width(alloc: Global, original: &Original<'_>, t: TableId) -> Result<usize, Memory>
    ensures width { IfOk result (λ n. n ≡ width (role_in original.now) (meta_in original.now) t) }
    ensures within { IfOk result (λ n. n < 2 ^ 63) }
{
    match original.scope.meta.perm(alloc, original.role, t)? {
        Some(permission) => Ok(permission.cols.as_slice().len()),
        None => Ok(0),
    }
}

// The place in the copy of the own end of a link, in its table.
fn from_place(alloc: Global, original: &Original<'_>, link: Link) -> Result<usize, Memory>
    requires { IsOriginal original.now }
    ensures { IfOk result (λ n. n ≡ from_place (role_in original.now) (meta_in original.now) (schema_in original.now) link.table (link_view link)) }
{
    let ends = ends_of(alloc, original, link.table)?;
    Ok(width(alloc, original, link.table)? + from_end_place(&ends, link))
}

// And of its remote end, in the remote table.
fn to_place(alloc: Global, original: &Original<'_>, link: Link) -> Result<usize, Memory>
    requires { IsOriginal original.now }
    ensures { IfOk result (λ n. n ≡ to_place (role_in original.now) (meta_in original.now) (schema_in original.now) (link_remote (schema_in original.now) (link_view link)) (link_view link)) }
{
    let remote = link_remote(&original.scope, link);
    let ends = ends_of(alloc, original, remote)?;
    Ok(width(alloc, original, remote)? + to_end_place(&ends, link))
}

// The one pair of a relationship: its two ends.
fn copied_pairs(alloc: Global, original: &Original<'_>, link: Link) -> Result<PairList, Memory>
    requires { IsOriginal original.now }
    ensures { IfOk result (λ pairs. pairs ≡ copied_pair (role_in original.now) (meta_in original.now) (schema_in original.now) link.table link.relationship ∷ []) }
{
    let own = ColId::new(from_place(alloc, original, link)?);
    let remote = ColId::new(to_place(alloc, original, link)?);
    let mut pairs = List::new(alloc);
    pairs.push(Pair { own, remote })?;
    Ok(pairs)
}

// The name of a relationship and whether it is an array one; no name where it is not there.
fn name_and_kind(alloc: Global, original: &Original<'_>, link: Link) -> Result<(Txt, bool), Memory>
    ensures { IfOk result (λ found. (found.0 ≡ (rel (schema_in original.now) link.table link.relationship).name) × (found.1 ≡ (rel (schema_in original.now) link.table link.relationship).many)) }
{
    match original.scope.rel(link.table, link.relationship) {
        Some(rel) => Ok((rel.name.copy(alloc)?, rel.many)),
        None => Ok((Txt::new(alloc), true)),
    }
}

// A relationship of a table of the copy.
fn copied_rel(alloc: Global, original: &Original<'_>, link: Link) -> Result<Rel, Memory>
    requires { IsOriginal original.now }
    ensures { IfOk result (λ copied. copied ≡ copied_rel (role_in original.now) (meta_in original.now) (schema_in original.now) link.table link.relationship) }
{
    let (name, many) = name_and_kind(alloc, original, link)?;
    let remote = link_remote(&original.scope, link);
    Ok(Rel {
        name,
        remote: TableId::new(table_place(original.sources, remote)),
        pairs: copied_pairs(alloc, original, link)?,
        many,
    })
}

// A relationship of a table of the copy, behind others.
fn push_rel(
    alloc: Global,
    original: &Original<'_>,
    table: TableId,
    relationship: RelId,
    rels: &mut RelList,
) -> Result<(), Memory>
    requires { IsOriginal original.now }
    ensures { OnOk result (rels.new ≡ rels.old ++ copied_rel (role_in original.now) (meta_in original.now) (schema_in original.now) table relationship ∷ []) }
{
    let link = Link {
        table,
        relationship,
    };
    rels.push(copied_rel(alloc, original, link)?)
}

// The relationships of a table of the copy.
fn copied_rels(alloc: Global, original: &Original<'_>, table: TableId) -> Result<RelList, Memory>
    requires { IsOriginal original.now }
    ensures { IfOk result
        (λ rels. rels
        ≡ map (copied_rel (role_in original.now) (meta_in original.now) (schema_in original.now) table)
        (kept_relationships (role_in original.now) (meta_in original.now) (schema_in original.now) table)) }
{
    let kept = kept_relationships(alloc, &original.scope, original.role, table)?;
    let mut rels = List::new(alloc);
    for relationship in &kept {
        push_rel(alloc, original, table, *relationship, &mut rels)?;
    }
    Ok(rels)
}

// The first columns, as many as these.
fn first_columns(alloc: Global, columns: &[ColId]) -> Result<ColList, Memory>
    ensures { IfOk result (λ first. first ≡ places 0 columns.now) }
{
    let mut first = List::new(alloc);
    for at in 0..columns.len() {
        first.push(ColId::new(at))?;
    }
    Ok(first)
}

// What the reader may see of a table.
fn reader_permissions(alloc: Global, permission: &PermView) -> Result<PermList, Memory>
    ensures { IfOk result (λ perms. map perm_view perms ≡ reader_permission (permission_view permission.now) ∷ []) }
{
    let mut perms = List::new(alloc);
    perms.push(Perm {
        role: reader(alloc)?,
        cols: first_columns(alloc, permission.cols.as_slice())?,
        filter: Bexp::True,
        limit: permission.limit,
        aggregations: permission.aggregations,
    })?;
    Ok(perms)
}

// The GraphQL name of a column, none where it has none.
fn column_name(alloc: Global, names: &[Txt], c: ColId) -> Result<Txt, Memory>
    ensures { IfOk result (λ name. name ≡ slice_index_or names.now c []) }
{
    match names.get(c.at()) {
        Some(name) => name.copy(alloc),
        None => Ok(Txt::new(alloc)),
    }
}

// The GraphQL names of these columns.
fn permitted_names(alloc: Global, names: &[Txt], columns: &[ColId]) -> Result<TxtList, Memory>
    ensures { IfOk result (λ all. all ≡ map (λ c. slice_index_or names.now c []) columns.now) }
{
    let mut all = List::new(alloc);
    for c in columns {
        all.push(column_name(alloc, names, *c)?)?;
    }
    Ok(all)
}

// The names of added columns, behind others.
fn push_names(alloc: Global, extras: &[Extra], names: &mut TxtList) -> Result<(), Memory>
    ensures { OnOk result (names.new ≡ names.old ++ map extra_name (map extra_view extras.now)) }
{
    for extra in extras {
        names.push(extra_name(alloc, *extra)?)?;
    }
    Ok(())
}

// The GraphQL names of the columns of a table of the copy.
fn copied_names(
    alloc: Global,
    original: &Original<'_>,
    source: &Source<'_>,
) -> Result<TxtList, Memory>
    requires { IsOriginal original.now }
    ensures { IfOk result (λ names. names ≡ copied_names (role_in original.now) (meta_in original.now) (schema_in original.now) (source_view source.now)) }
{
    let names = source.entry.column_names.as_slice();
    let mut all = permitted_names(alloc, names, source.permission.cols.as_slice())?;
    let extras = extras_of(alloc, original, source)?;
    push_names(alloc, &extras, &mut all)?;
    Ok(all)
}

// The entry of the table at this place of the copy.
fn copied_entry(
    alloc: Global,
    original: &Original<'_>,
    place: usize,
    source: &Source<'_>,
) -> Result<Tracked, Memory>
    requires { IsOriginal original.now }
    ensures { IfOk result (λ entry. tracked_view entry ≡ copied_entry (role_in original.now) (meta_in original.now) (schema_in original.now) place (source_view source.now)) }
{
    Ok(Tracked {
        table: TableId::new(place),
        name: source.entry.name.copy(alloc)?,
        column_names: copied_names(alloc, original, source)?,
        roots: source.entry.roots.try_copy(alloc)?,
        rels: copied_rels(alloc, original, source.entry.table)?,
        perms: reader_permissions(alloc, &source.permission)?,
    })
}

/// The metadata of the copy.
pub fn copied_meta(alloc: Global, original: &Original<'_>) -> Result<Meta, Memory>
    requires { IsOriginal original.now }
    ensures { IfOk result (λ meta. meta_view meta ≡ copied_meta (role_in original.now) (meta_in original.now) (schema_in original.now)) }
{
    let sources = original.sources;
    let mut tracked = List::new(alloc);
    for (place, source) in sources.iter().enumerate() {
        tracked.push(copied_entry(alloc, original, place, source)?)?;
    }
    Ok(Meta {
        tracked,
        inherited: List::new(alloc),
    })
}
