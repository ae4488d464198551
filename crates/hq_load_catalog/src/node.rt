ghost use Rattle.std.specs.Prelude.{◌≡◌, ◌⊎◌, map, option_map, option_copied, option_and_then};
ghost use Rattle.hq_base.specs.Due.{Gives};
ghost use Rattle.hq_base.specs.Json.{json_view};
ghost use Rattle.hq_base.specs.Look.{str_in, array_in};
ghost use Rattle.hq_load_catalog.specs.Each.{each};
ghost use Rattle.hq_load_catalog.specs.Node.{at, value_of, object_at, text_at, text_member, list_member, names_member, object_member};

use crate::CatalogRefusal;
use crate::field::Field;
use crate::written::NameList;
use hq_base::{Json, List, Txt, item_path, member_path};
use std::alloc::Global;

/// The refusal of the node at this path.
pub fn misshaped(alloc: Global, path: &Txt) -> CatalogRefusal
    ensures { (result ≡ CatalogRefusal.Memory) ⊎ (result ≡ CatalogRefusal.Shape path.now) }
{
    match path.copy(alloc) {
        Ok(path) => CatalogRefusal::Shape { path },
        Err(_) => CatalogRefusal::Memory,
    }
}

/// The refusal of a member of the object at this path.
pub fn misshaped_member(alloc: Global, path: &Txt, field: Field) -> CatalogRefusal
    ensures { (result ≡ CatalogRefusal.Memory) ⊎ (result ≡ CatalogRefusal.Shape (at path.now field)) }
{
    match member_path(alloc, path, field.name()) {
        Ok(path) => CatalogRefusal::Shape { path },
        Err(_) => CatalogRefusal::Memory,
    }
}

/// A node that must be an object.
#[tactic(auto, unfolding(crate::specs::Node::object_at))]
pub fn object_at<'a>(alloc: Global, path: &Txt, json: &'a Json) -> Result<&'a Json, CatalogRefusal>
    ensures { Gives (λ j. json_view j.now) CatalogRefusal.Memory (object_at path.now (json_view json.now)) result }
{
    match json.as_object() {
        Some(_) => Ok(json),
        None => Err(misshaped(alloc, path)),
    }
}

// A node that must be a text.
#[tactic(auto, unfolding(crate::specs::Node::text_at))]
fn text_at(alloc: Global, path: &Txt, json: &Json) -> Result<Txt, CatalogRefusal>
    ensures { Gives (λ text. text) CatalogRefusal.Memory (text_at path.now (json_view json.now)) result }
{
    match json.as_txt() {
        Some(text) => Ok(text.copy(alloc)?),
        None => Err(misshaped(alloc, path)),
    }
}

/// The text of a member, where it is one.
pub fn text_in(object: &Json, field: Field) -> Option<&Txt>
    ensures { option_copied result ≡ option_and_then str_in (value_of (json_view object.now) field) }
{
    match object.member(field.name()) {
        Some(value) => value.as_txt(),
        None => None,
    }
}

/// A member that must be a text.
#[tactic(auto, unfolding(crate::specs::Node::text_member))]
pub fn text_member(
    alloc: Global,
    path: &Txt,
    object: &Json,
    field: Field,
) -> Result<Txt, CatalogRefusal>
    ensures { Gives (λ text. text) CatalogRefusal.Memory (text_member path.now (json_view object.now) field) result }
{
    match text_in(object, field) {
        Some(text) => Ok(text.copy(alloc)?),
        None => Err(misshaped_member(alloc, path, field)),
    }
}

// The elements of a member, where it is a list.
fn list_in(object: &Json, field: Field) -> Option<&[Json]>
    ensures { option_map (λ js. map json_view js.now) result ≡ option_and_then array_in (value_of (json_view object.now) field) }
{
    match object.member(field.name()) {
        Some(value) => value.as_array(),
        None => None,
    }
}

/// A member that must be a list.
#[tactic(auto, unfolding(crate::specs::Node::list_member))]
pub fn list_member<'a>(
    alloc: Global,
    path: &Txt,
    object: &'a Json,
    field: Field,
) -> Result<&'a [Json], CatalogRefusal>
    ensures { Gives (λ js. map json_view js.now) CatalogRefusal.Memory (list_member path.now (json_view object.now) field) result }
{
    match list_in(object, field) {
        Some(list) => Ok(list),
        None => Err(misshaped_member(alloc, path, field)),
    }
}

// The texts of the list at a path.
fn texts(alloc: Global, path: &Txt, list: &[Json]) -> Result<NameList, CatalogRefusal>
    ensures { Gives (λ texts. texts) CatalogRefusal.Memory (each text_at path.now (map json_view list.now)) result }
{
    let mut texts = List::new(alloc);
    for (place, json) in list.iter().enumerate() {
        let text = text_at(alloc, &item_path(alloc, path, place)?, json)?;
        texts.push(text)?;
    }
    Ok(texts)
}

/// A member that must be a list of texts.
#[tactic(auto, unfolding(crate::specs::Node::names_member))]
pub fn names_member(
    alloc: Global,
    path: &Txt,
    object: &Json,
    field: Field,
) -> Result<NameList, CatalogRefusal>
    ensures { Gives (λ names. names) CatalogRefusal.Memory (names_member path.now (json_view object.now) field) result }
{
    let list = list_member(alloc, path, object, field)?;
    texts(alloc, &member_path(alloc, path, field.name())?, list)
}

/// A member that must be an object.
#[tactic(auto, unfolding(crate::specs::Node::object_member))]
pub fn object_member<'a>(
    alloc: Global,
    path: &Txt,
    object: &'a Json,
    field: Field,
) -> Result<&'a Json, CatalogRefusal>
    ensures { Gives (λ j. json_view j.now) CatalogRefusal.Memory (object_member path.now (json_view object.now) field) result }
{
    match object.member(field.name()) {
        Some(value) => object_at(alloc, &member_path(alloc, path, field.name())?, value),
        None => Err(misshaped_member(alloc, path, field)),
    }
}
