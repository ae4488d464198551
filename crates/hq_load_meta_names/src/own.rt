ghost use Rattle.std.specs.Prelude.{◌≡◌, ◌≤◌, length};
ghost use Rattle.hq_base.specs.Due.{Gives};
ghost use Rattle.hq_model.specs.Meta.{meta_view, tracked_view};
ghost use Rattle.hq_load_meta_names.specs.Repeats.{with_rel, with_shown_rel, with_rels, object_count, objects_of, arrays_of, with_all_rels, with_columns, own_names};

use crate::NameRefusal;
use crate::fixed::fixed_inputs;
use crate::known::{Own, added};
use crate::shown::{column_names_of, is_in_schema};
use crate::texts::push_name;
use crate::types::rel_fields;
use hq_base::{List, Txt, item_path, member_path};
use hq_model::{Meta, Rel, Tracked};
use std::alloc::Global;

// A relationship's field, the field for aggregates beside it, and its input.
#[tactic(auto, unfolding(crate::specs::Repeats::with_rel))]
fn with_rel(alloc: Global, path: &Txt, own: Own, rel: &Rel) -> Result<Own, NameRefusal>
    ensures { Gives (λ own. own) NameRefusal.Memory (with_rel path.now own rel.now) result }
{
    let names = rel_fields(alloc, rel)?;
    let fields = added(alloc, path, own.fields, names.as_slice())?;
    let name = push_name(alloc, List::new(alloc), &rel.name)?;
    let inputs = added(alloc, path, own.inputs, name.as_slice())?;
    Ok(Own { fields, inputs })
}

// The same, where the relationship's remote table stands in the schema.
#[tactic(auto, unfolding(crate::specs::Repeats::with_shown_rel))]
fn with_shown_rel(
    alloc: Global,
    meta: &Meta,
    path: &Txt,
    own: Own,
    rel: &Rel,
) -> Result<Own, NameRefusal>
    ensures { Gives (λ own. own) NameRefusal.Memory (with_shown_rel (meta_view meta.now) path.now own rel.now) result }
{
    if is_in_schema(meta, rel.remote) {
        with_rel(alloc, path, own, rel)
    } else {
        Ok(own)
    }
}

// The relationships of the list at a path.
fn with_rels(
    alloc: Global,
    meta: &Meta,
    path: &Txt,
    own: Own,
    rels: &[Rel],
) -> Result<Own, NameRefusal>
    ensures { Gives (λ own. own) NameRefusal.Memory (with_rels (meta_view meta.now) path.now 0 own rels.now) result }
{
    let mut own = own;
    for (place, rel) in rels.iter().enumerate() {
        let path = member_path(alloc, &item_path(alloc, path, place)?, "name")?;
        own = with_shown_rel(alloc, meta, &path, own, rel)?;
    }
    Ok(own)
}

// How many relationships are object ones.
#[tactic(auto, unfolding(crate::specs::Repeats::object_count))]
fn object_count(rels: &[Rel]) -> usize
    ensures count { result ≡ object_count rels.now }
    ensures within { result ≤ length rels.now }
{
    rels.iter().filter(|rel| !rel.many).count()
}

// The object relationships, which come first.
fn objects_of(rels: &[Rel]) -> &[Rel]
    ensures { result.now ≡ objects_of rels.now }
{
    &rels[..object_count(rels)]
}

// The array relationships, which come last.
fn arrays_of(rels: &[Rel]) -> &[Rel]
    ensures { result.now ≡ arrays_of rels.now }
{
    &rels[object_count(rels)..]
}

// All relationships of a table whose entry stands at a path.
#[tactic(auto, unfolding(crate::specs::Repeats::with_all_rels))]
fn with_all_rels(
    alloc: Global,
    meta: &Meta,
    path: &Txt,
    own: Own,
    rels: &[Rel],
) -> Result<Own, NameRefusal>
    ensures { Gives (λ own. own) NameRefusal.Memory (with_all_rels (meta_view meta.now) path.now own rels.now) result }
{
    let objects = member_path(alloc, path, "object_relationships")?;
    let own = with_rels(alloc, meta, &objects, own, objects_of(rels))?;
    let arrays = member_path(alloc, path, "array_relationships")?;
    with_rels(alloc, meta, &arrays, own, arrays_of(rels))
}

// The columns of a table whose entry stands at a path.
#[tactic(auto, unfolding(crate::specs::Repeats::with_columns))]
fn with_columns(alloc: Global, path: &Txt, names: &[Txt]) -> Result<Own, NameRefusal>
    ensures { Gives (λ own. own) NameRefusal.Memory (with_columns path.now names.now) result }
{
    let fields = added(alloc, path, List::new(alloc), names)?;
    let inputs = added(alloc, path, fixed_inputs(alloc)?, names)?;
    Ok(Own { fields, inputs })
}

/// The fields and inputs of a table whose entry stands at a path, or the first that stands twice.
#[tactic(auto, unfolding(crate::specs::Repeats::own_names))]
pub fn own_names(
    alloc: Global,
    meta: &Meta,
    path: &Txt,
    tracked: &Tracked,
) -> Result<Own, NameRefusal>
    ensures { Gives (λ own. own) NameRefusal.Memory (own_names (meta_view meta.now) path.now (tracked_view tracked.now)) result }
{
    let names = column_names_of(alloc, tracked)?;
    let own = with_columns(alloc, path, names.as_slice())?;
    with_all_rels(alloc, meta, path, own, tracked.rels.as_slice())
}
