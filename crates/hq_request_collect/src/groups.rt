//! Fields under their response keys.
ghost use Rattle.std.specs.Prelude.{◌≡◌, [], OnOk};
ghost use Rattle.hq_gql_tree.specs.Selections.{field_view};
ghost use Rattle.hq_request_collect.specs.Groups.{response_key, grouped};
ghost use Rattle.hq_request_collect.specs.Seen.{groups_seen};

use hq_base::{Memory, Txt};
use hq_gql_tree::Field;
use indexmap::IndexMap;
use std::alloc::Global;

/// The fields of one response key: the first, and the others in order.
#[derive(Drop)]
pub struct Nodes<'a> {
    pub first: &'a Field,
    pub others: Vec<&'a Field>,
}

/// The fields of each response key, in the order in which the keys first stand.
pub type Groups<'a> = IndexMap<Txt, Nodes<'a>>;

/// The alias of a field, else its name.
pub fn response_key(field: &Field) -> &Txt
    ensures { result.now ≡ response_key (field_view field.now) }
{
    match &field.alias {
        Some(alias) => alias,
        None => &field.name,
    }
}

/// A field goes last under its key.
pub fn add<'a>(
    alloc: Global,
    groups: &mut Groups<'a>,
    key: &Txt,
    field: &'a Field,
) -> Result<(), Memory>
    ensures { OnOk result (groups_seen groups.new.entries ≡ grouped (groups_seen groups.old.entries) key.now (field_view field.now)) }
{
    if let Some(nodes) = groups.get_mut(key) {
        nodes.others.push(field)?;
        return Ok(());
    }
    let name = key.copy(alloc)?;
    let nodes = Nodes {
        first: field,
        others: Vec::new(alloc),
    };
    groups.insert(name, nodes)?;
    Ok(())
}
