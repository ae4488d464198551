ghost use Rattle.std.specs.Prelude.{◌≡◌, IfOk, map};
ghost use Rattle.hq_base.specs.Json.{json_view, member_view};

use crate::{Memory, Txt};
use std::alloc::Global;

/// The elements of a JSON array, in order.
pub type JsonList = Vec<Json>;

/// The members of a JSON object, in order. Their names differ.
pub type Members = Vec<Member>;

/// A JSON value whose numbers are whole.
#[derive(Drop)]
#[cycle(json)]
pub enum Json {
    Null,
    Bool(bool),
    Int(i128),
    Str(Txt),
    Arr(JsonList),
    Obj(Members),
}

/// A member of a JSON object.
#[derive(Drop)]
#[cycle(json)]
pub struct Member {
    pub name: Txt,
    pub value: Json,
}

impl Json {
    /// An equal value.
    #[cycle(copy)]
    pub fn copy(&self, alloc: Global) -> Result<Json, Memory>
        ensures { IfOk result (λ copy. json_view copy ≡ json_view self.now) }
    {
        match self {
            Json::Null => Ok(Json::Null),
            Json::Bool(b) => Ok(Json::Bool(*b)),
            Json::Int(n) => Ok(Json::Int(*n)),
            Json::Str(text) => Ok(Json::Str(text.copy(alloc)?)),
            Json::Arr(elements) => Ok(Json::Arr(copy_elements(alloc, elements)?)),
            Json::Obj(members) => Ok(Json::Obj(copy_members(alloc, members)?)),
        }
    }
}

#[cycle(copy)]
fn copy_elements(alloc: Global, elements: &JsonList) -> Result<JsonList, Memory>
    ensures { IfOk result (λ copy. map json_view copy.items ≡ map json_view elements.now.items) }
{
    let mut copy = Vec::new(alloc);
    for element in elements {
        copy.push(element.copy(alloc)?)?;
    }
    Ok(copy)
}

#[cycle(copy)]
fn copy_members(alloc: Global, members: &Members) -> Result<Members, Memory>
    ensures { IfOk result (λ copy. map member_view copy.items ≡ map member_view members.now.items) }
{
    let mut copy = Vec::new(alloc);
    for member in members {
        let name = member.name.copy(alloc)?;
        let value = member.value.copy(alloc)?;
        copy.push(Member { name, value })?;
    }
    Ok(copy)
}
