//! JSON values that are built of lists.
ghost use Rattle.std.specs.Prelude.{◌≡◌, ◌++◌, ◌∷◌, [], IfOk, OnOk, false, map};
ghost use Rattle.hq_base.specs.Json.{json_view, member_view, str};
ghost use Rattle.hq_base.specs.Text.{has_zero};
ghost use Rattle.hq_laws_written.specs.Json.Building.{list, object};

use hq_base::{Json, JsonList, Member, Members, Memory, Txt};
use std::alloc::Global;

/// A text of its own.
pub fn text(alloc: Global, piece: &str) -> Result<Txt, Memory>
    requires { has_zero piece.now ≡ false }
    ensures { IfOk result (λ text. text ≡ piece.now) }
{
    let mut text = Txt::new(alloc);
    text.push_str(piece)?;
    Ok(text)
}

/// A member, behind others.
pub fn push_member(
    alloc: Global,
    name: &str,
    value: Json,
    members: &mut Members,
) -> Result<(), Memory>
    requires { has_zero name.now ≡ false }
    ensures { OnOk result (map member_view members.new.items ≡ map member_view members.old.items ++ (name.now, json_view value) ∷ []) }
{
    let name = text(alloc, name)?;
    members.push(Member { name, value })?;
    Ok(())
}

/// The object of these members.
pub fn object(members: Members) -> Json
    ensures { json_view result ≡ object (map member_view members.items) }
{
    Json::Obj(members)
}

/// The array of these elements.
pub fn array(elements: JsonList) -> Json
    ensures { json_view result ≡ list (map json_view elements.items) }
{
    Json::Arr(elements)
}

/// A text as a value.
pub fn text_json(alloc: Global, text: &Txt) -> Result<Json, Memory>
    ensures { IfOk result (λ json. json_view json ≡ str text.now) }
{
    Ok(Json::Str(text.copy(alloc)?))
}

/// A member whose value is a text, behind others.
pub fn push_text(
    alloc: Global,
    name: &str,
    value: &Txt,
    members: &mut Members,
) -> Result<(), Memory>
    requires { has_zero name.now ≡ false }
    ensures { OnOk result (map member_view members.new.items ≡ map member_view members.old.items ++ (name.now, str value.now) ∷ []) }
{
    push_member(alloc, name, text_json(alloc, value)?, members)
}

/// The object of one member.
pub fn single(alloc: Global, name: &str, value: Json) -> Result<Json, Memory>
    requires { has_zero name.now ≡ false }
    ensures { IfOk result (λ json. json_view json ≡ object ((name.now, json_view value) ∷ [])) }
{
    let mut members = Vec::new(alloc);
    push_member(alloc, name, value, &mut members)?;
    Ok(object(members))
}
