//! The columns that a copy adds to a table.
ghost use Rattle.std.specs.Prelude.{◌≡◌, ◌==◌, ◌++◌, ◌∷◌, [], cond, IfOk, OnOk, map, string_bytes, false, codes};
ghost use Rattle.std.specs.Fmt.{decimal};
ghost use Rattle.hq_base.specs.Text.{has_zero};
ghost use Rattle.hq_copy_definition.specs.Extras.{ends_at, ends_of, extra_column, extra_name, extras_of, from_end, is_nullable, to_end};
ghost use Rattle.hq_copy_definition.specs.Sources.{link_remote as remote_of};
ghost use Rattle.hq_copy_tables.specs.Originals.{IsOriginal, meta_in, role_in, schema_in};
ghost use Rattle.hq_copy_tables.specs.Views.{extra_view, link_view, source_view};
ghost use Rattle.hq_model.specs.Schema.{table};
ghost use Rattle.hq_model.specs.Described.{scope_schema};

use crate::linked::link_remote;
use crate::{Link, Original, Source, keeps_key};
use hq_base::{Memory, Txt, Ty};
use hq_model::{ColId, Column, Described, TableId};
use std::alloc::Global;

/// An added column: the own end of the link of this number, its remote end, or the position of the row.
#[derive(Clone, Copy)]
pub enum Extra {
    From { number: usize, link: Link },
    To { number: usize, link: Link },
    Position,
}

// The own end of a link, behind others, where it starts at the table.
fn push_own(t: TableId, number: usize, link: &Link, ends: &mut Vec<Extra>) -> Result<(), Memory>
    ensures { OnOk result (map extra_view ends.new.items ≡ map extra_view ends.old.items ++ cond ((link_view link.now).table == t) (from_end number (link_view link.now) ∷ []) []) }
{
    if link.table.at() == t.at() {
        let end = Extra::From {
            number,
            link: *link,
        };
        ends.push(end)?;
    }
    Ok(())
}

// Its remote end, behind others, where it leads to the table.
fn push_remote(
    scope: &Described<'_>,
    t: TableId,
    number: usize,
    link: &Link,
    ends: &mut Vec<Extra>,
) -> Result<(), Memory>
    ensures { OnOk result
        (map extra_view ends.new.items
        ≡ map extra_view ends.old.items
        ++ cond (remote_of (scope_schema scope.now) (link_view link.now) == t) (to_end number (link_view link.now) ∷ []) []) }
{
    if link_remote(scope, *link).at() == t.at() {
        let end = Extra::To {
            number,
            link: *link,
        };
        ends.push(end)?;
    }
    Ok(())
}

// The ends of a link in a table, the own end first, behind others.
fn push_ends(
    scope: &Described<'_>,
    t: TableId,
    number: usize,
    link: &Link,
    ends: &mut Vec<Extra>,
) -> Result<(), Memory>
    ensures { OnOk result (map extra_view ends.new.items ≡ map extra_view ends.old.items ++ ends_at (scope_schema scope.now) t number (link_view link.now)) }
{
    push_own(t, number, link, ends)?;
    push_remote(scope, t, number, link, ends)
}

/// The ends in a table of all links, which are numbered from 1 on.
pub(crate) fn ends_of(
    alloc: Global,
    original: &Original<'_>,
    t: TableId,
) -> Result<Vec<Extra>, Memory>
    requires { IsOriginal original.now }
    ensures { IfOk result (λ ends. map extra_view ends.items ≡ ends_of (role_in original.now) (meta_in original.now) (schema_in original.now) t) }
{
    let links = original.links;
    let mut ends = Vec::new(alloc);
    for (at, link) in links.iter().enumerate() {
        push_ends(&original.scope, t, at + 1, link, &mut ends)?;
    }
    Ok(ends)
}

/// The key of a table, none where it is not in the catalog.
pub fn key_of<'a>(scope: &Described<'a>, t: TableId) -> &'a [ColId]
    ensures { result.now ≡ (table (scope_schema scope.now) t).key }
{
    match scope.catalog.table(t) {
        Some(table) => table.key.as_slice(),
        None => &[],
    }
}

/// The columns that are added to a table of the copy.
pub fn extras_of(
    alloc: Global,
    original: &Original<'_>,
    source: &Source<'_>,
) -> Result<Vec<Extra>, Memory>
    requires { IsOriginal original.now }
    ensures { IfOk result (λ extras. map extra_view extras.items ≡ extras_of (role_in original.now) (meta_in original.now) (schema_in original.now) (source_view source.now)) }
{
    let t = source.entry.table;
    let mut extras = ends_of(alloc, original, t)?;
    if !keeps_key(&source.permission, key_of(&original.scope, t)) {
        extras.push(Extra::Position)?;
    }
    Ok(extras)
}

// A number in decimal.
fn digits(alloc: Global, number: usize) -> Result<String, Memory>
    ensures text { IfOk result (λ digits. string_bytes digits ≡ decimal number) }
    ensures clean { IfOk result (λ digits. has_zero (string_bytes digits) ≡ false) }
{
    Ok(format!(in alloc; "{number}")?)
}

// The name of an end of the link of this number.
fn end_name(alloc: Global, number: usize, end: &str) -> Result<Txt, Memory>
    requires { has_zero end.now ≡ false }
    ensures { IfOk result (λ name. name ≡ codes "hq_r" ++ decimal number ++ end.now) }
{
    let mut name = Txt::new(alloc);
    name.push_str("hq_r")?;
    name.push_str(digits(alloc, number)?.as_str())?;
    name.push_str(end)?;
    Ok(name)
}

// The name of the position.
fn position_name(alloc: Global) -> Result<Txt, Memory>
    ensures { IfOk result (λ name. name ≡ codes "hq_pos") }
{
    let mut name = Txt::new(alloc);
    name.push_str("hq_pos")?;
    Ok(name)
}

/// The name of an added column, in the database and in GraphQL.
pub(crate) fn extra_name(alloc: Global, extra: Extra) -> Result<Txt, Memory>
    ensures { IfOk result (λ name. name ≡ extra_name (extra_view extra)) }
{
    match extra {
        Extra::From { number, .. } => end_name(alloc, number, "_from"),
        Extra::To { number, .. } => end_name(alloc, number, "_to"),
        Extra::Position => position_name(alloc),
    }
}

// Whether an added column may hold NULL.
fn is_nullable(extra: Extra) -> bool
    ensures { result ≡ is_nullable (extra_view extra) }
{
    match extra {
        Extra::From { .. } | Extra::To { .. } => true,
        Extra::Position => false,
    }
}

/// An added column.
pub(crate) fn extra_column(alloc: Global, extra: Extra) -> Result<Column, Memory>
    ensures { IfOk result (λ column. column ≡ extra_column (extra_view extra)) }
{
    Ok(Column {
        name: extra_name(alloc, extra)?,
        ty: Ty::Bigint,
        of: Txt::new(alloc),
        nullable: is_nullable(extra),
    })
}
