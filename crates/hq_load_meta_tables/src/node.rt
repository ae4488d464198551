ghost use Rattle.std.specs.Prelude.{◌≡◌, map, option_map, IfOk};
ghost use Rattle.hq_base.specs.Due.{Gives};
ghost use Rattle.hq_base.specs.Json.{json_view};
ghost use Rattle.hq_base.specs.Path.{member_path};
ghost use Rattle.hq_load_meta_tables.specs.Node.{at, object_at, text_at, list_at, free_name_at, member_at, text_member, list_member, object_member, entries_member, unless_null, named_value, given_value, given_object};

use crate::MetaRefusal;
use crate::field::Field;
use hq_base::{Json, Memory, Txt, member_path};
use hq_model::is_free_name;
use std::alloc::Global;

/// The path of a member of the object at a path.
pub fn at(alloc: Global, path: &Txt, field: Field) -> Result<Txt, Memory>
    ensures { IfOk result (λ joined. joined ≡ at path.now field) }
{
    member_path(alloc, path, field.name())
}

/// The path of the member of a name, of the object at a path.
pub fn named_path(alloc: Global, path: &Txt, name: &Txt) -> Result<Txt, Memory>
    ensures { IfOk result (λ joined. joined ≡ member_path path.now name.now) }
{
    name.is_text();
    member_path(alloc, path, name.as_str())
}

/// A node that must be an object.
#[tactic(auto, unfolding(crate::specs::Node::object_at))]
pub fn object_at<'a>(alloc: Global, path: &Txt, json: &'a Json) -> Result<&'a Json, MetaRefusal>
    ensures { Gives (λ j. json_view j.now) MetaRefusal.Memory (object_at path.now (json_view json.now)) result }
{
    match json.as_object() {
        Some(_) => Ok(json),
        None => Err(MetaRefusal::Shape {
            path: path.copy(alloc)?,
        }),
    }
}

/// A node that must be a text.
#[tactic(auto, unfolding(crate::specs::Node::text_at))]
pub fn text_at<'a>(alloc: Global, path: &Txt, json: &'a Json) -> Result<&'a Txt, MetaRefusal>
    ensures { Gives (λ text. text.now) MetaRefusal.Memory (text_at path.now (json_view json.now)) result }
{
    match json.as_txt() {
        Some(text) => Ok(text),
        None => Err(MetaRefusal::Shape {
            path: path.copy(alloc)?,
        }),
    }
}

/// A node that must be a list.
#[tactic(auto, unfolding(crate::specs::Node::list_at))]
pub fn list_at<'a>(alloc: Global, path: &Txt, json: &'a Json) -> Result<&'a [Json], MetaRefusal>
    ensures { Gives (λ js. map json_view js.now) MetaRefusal.Memory (list_at path.now (json_view json.now)) result }
{
    match json.as_array() {
        Some(list) => Ok(list),
        None => Err(MetaRefusal::Shape {
            path: path.copy(alloc)?,
        }),
    }
}

/// A node that must be a Name which does not begin with two underscores.
#[tactic(auto, unfolding(crate::specs::Node::free_name_at))]
pub fn free_name_at<'a>(alloc: Global, path: &Txt, json: &'a Json) -> Result<&'a Txt, MetaRefusal>
    ensures { Gives (λ name. name.now) MetaRefusal.Memory (free_name_at path.now (json_view json.now)) result }
{
    let name = text_at(alloc, path, json)?;
    if !is_free_name(name) {
        return Err(MetaRefusal::Shape {
            path: path.copy(alloc)?,
        });
    }
    Ok(name)
}

/// A member that must be there.
#[tactic(auto, unfolding(crate::specs::Node::member_at))]
pub fn member_at<'a>(
    alloc: Global,
    path: &Txt,
    object: &'a Json,
    field: Field,
) -> Result<&'a Json, MetaRefusal>
    ensures { Gives (λ j. json_view j.now) MetaRefusal.Memory (member_at path.now (json_view object.now) field) result }
{
    match object.member(field.name()) {
        Some(value) => Ok(value),
        None => Err(MetaRefusal::Shape {
            path: at(alloc, path, field)?,
        }),
    }
}

/// A member that must be a text.
#[tactic(auto, unfolding(crate::specs::Node::text_member))]
pub fn text_member<'a>(
    alloc: Global,
    path: &Txt,
    object: &'a Json,
    field: Field,
) -> Result<&'a Txt, MetaRefusal>
    ensures { Gives (λ text. text.now) MetaRefusal.Memory (text_member path.now (json_view object.now) field) result }
{
    let value = member_at(alloc, path, object, field)?;
    text_at(alloc, &at(alloc, path, field)?, value)
}

/// A member that must be a list.
#[tactic(auto, unfolding(crate::specs::Node::list_member))]
pub fn list_member<'a>(
    alloc: Global,
    path: &Txt,
    object: &'a Json,
    field: Field,
) -> Result<&'a [Json], MetaRefusal>
    ensures { Gives (λ js. map json_view js.now) MetaRefusal.Memory (list_member path.now (json_view object.now) field) result }
{
    let value = member_at(alloc, path, object, field)?;
    list_at(alloc, &at(alloc, path, field)?, value)
}

/// A member that must be an object.
#[tactic(auto, unfolding(crate::specs::Node::object_member))]
pub fn object_member<'a>(
    alloc: Global,
    path: &Txt,
    object: &'a Json,
    field: Field,
) -> Result<&'a Json, MetaRefusal>
    ensures { Gives (λ j. json_view j.now) MetaRefusal.Memory (object_member path.now (json_view object.now) field) result }
{
    let value = member_at(alloc, path, object, field)?;
    object_at(alloc, &at(alloc, path, field)?, value)
}

/// A member that must be a list, and has no element where it is absent.
#[tactic(auto, unfolding(crate::specs::Node::entries_member))]
pub fn entries_member<'a>(
    alloc: Global,
    path: &Txt,
    object: &'a Json,
    field: Field,
) -> Result<&'a [Json], MetaRefusal>
    ensures { Gives (λ js. map json_view js.now) MetaRefusal.Memory (entries_member path.now (json_view object.now) field) result }
{
    match object.member(field.name()) {
        Some(value) => list_at(alloc, &at(alloc, path, field)?, value),
        None => Ok(&[]),
    }
}

/// A value that is not null.
pub fn unless_null(json: &Json) -> Option<&Json>
    ensures { option_map (λ j. json_view j.now) result ≡ unless_null (json_view json.now) }
{
    match json {
        Json::Null => None,
        _ => Some(json),
    }
}

/// The value of a name in an object that is given, where null counts as absent.
#[tactic(auto, unfolding(crate::specs::Node::named_value))]
pub fn named_value<'a>(given: Option<&'a Json>, name: &str) -> Option<&'a Json>
    ensures { option_map (λ j. json_view j.now) result ≡ named_value (option_map (λ j. json_view j.now) given.entry) name.now }
{
    match given {
        Some(object) => match object.member(name) {
            Some(value) => unless_null(value),
            None => None,
        },
        None => None,
    }
}

/// The value of a member of an object that is given, where null counts as absent.
pub fn given_value<'a>(given: Option<&'a Json>, field: Field) -> Option<&'a Json>
    ensures { option_map (λ j. json_view j.now) result ≡ given_value (option_map (λ j. json_view j.now) given.entry) field }
{
    named_value(given, field.name())
}

/// A node that must be an object where it is given.
pub fn given_object<'a>(
    alloc: Global,
    path: &Txt,
    given: Option<&'a Json>,
) -> Result<Option<&'a Json>, MetaRefusal>
    ensures { Gives (option_map (λ j. json_view j.now)) MetaRefusal.Memory (given_object path.now (option_map (λ j. json_view j.now) given.entry)) result }
{
    match given {
        Some(json) => Ok(Some(object_at(alloc, path, json)?)),
        None => Ok(None),
    }
}
