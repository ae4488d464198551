//! Nodes of JSON.
ghost use Rattle.std.specs.Prelude.{◌≡◌, map};
ghost use Rattle.hq_request_collect.specs.JsonNodes.{text_nodes, json_nodes, element_nodes, member_nodes};
ghost use Rattle.hq_base.specs.Json.{json_view, member_view, elements_of, members_of};
ghost use Rattle.hq_request_collect.specs.Size.{less};

use hq_base::{Json, JsonList, Members, Txt};

// Where so many nodes may still come, how many may behind these; none where these are too many.
fn without(nodes: usize, left: usize) -> Option<usize>
    ensures { result ≡ less nodes left }
{
    left.checked_sub(nodes)
}

/// The same behind a single node.
pub fn without_one(left: usize) -> Option<usize>
    ensures { result ≡ less 1 left }
{
    without(1, left)
}

/// The same behind a text.
pub fn without_text(text: &Txt, left: usize) -> Option<usize>
    ensures { result ≡ less (text_nodes text.now) left }
{
    without(1 + text.as_bytes().len() / 64, left)
}

/// The same behind a value.
#[cycle(json)]
pub fn without_json(json: &Json, left: usize) -> Option<usize>
    ensures { result ≡ less (json_nodes (json_view json.now)) left }
{
    match json {
        Json::Null | Json::Bool(_) | Json::Int(_) => without_one(left),
        Json::Str(text) => without_text(text, left),
        Json::Arr(elements) => without_elements(elements, without_one(left)?),
        Json::Obj(members) => without_members(members, without_one(left)?),
    }
}

#[cycle(json)]
fn without_elements(elements: &JsonList, left: usize) -> Option<usize>
    ensures { result ≡ less (element_nodes (elements_of (map json_view elements.now.items))) left }
{
    let mut left = left;
    for element in elements {
        left = without_json(element, left)?;
    }
    Some(left)
}

#[cycle(json)]
fn without_members(members: &Members, left: usize) -> Option<usize>
    ensures { result ≡ less (member_nodes (members_of (map member_view members.now.items))) left }
{
    let mut left = left;
    for member in members {
        left = without_json(&member.value, left)?;
    }
    Some(left)
}
