ghost use Rattle.serde_json.specs.View.{view, items_view, members_view};
ghost use Rattle.std.specs.Prelude.{◌≡◌, IfOk, map, true};
ghost use Rattle.hq_base.specs.declared.body.JsonRefusal.TheVariants as refusal;
ghost use Rattle.hq_base.specs.Due.{Gives};
ghost use Rattle.hq_base.specs.Json.{json_view, member_view, has_distinct_names, elements_have_distinct_names, elements_of, members_of, obj};
ghost use Rattle.hq_base.specs.Body.{refusal_of, body_of, value_of, elements_in, members_in, clean};

use crate::{Json, JsonList, Member, Members, Txt, TxtRefusal};
use serde_json::{Map, Value};
use std::alloc::{AllocFailed, Global};
use thiserror::Error;

/// Why bytes are no JSON value of whole numbers.
#[derive(Clone, Copy, Debug, PartialEq, Eq, Error)]
pub enum JsonRefusal {
    /// The bytes are not one JSON text in UTF-8, nested at most 127 deep.
    #[error("not JSON")]
    NotJson,
    /// A number is not a whole number of 64 bits with sign.
    #[error("a number is not a whole number of 64 bits")]
    Fraction,
    /// A name or text has a zero byte.
    #[error("a name or text has a zero byte")]
    ZeroByte,
    #[error("out of memory")]
    Memory,
}

impl<T: Drop> From<AllocFailed<T>> for JsonRefusal {
    ghost from_gives = { λ _ e. e ≡ refusal.Memory };

    fn from(_: AllocFailed<T>) -> Self {
        JsonRefusal::Memory
    }
}

impl From<TxtRefusal> for JsonRefusal {
    ghost from_gives = { λ cause e. e ≡ refusal_of cause };

    fn from(cause: TxtRefusal) -> Self {
        match cause {
            TxtRefusal::NotUtf8 => JsonRefusal::NotJson,
            TxtRefusal::ZeroByte => JsonRefusal::ZeroByte,
            TxtRefusal::Memory => JsonRefusal::Memory,
        }
    }
}

impl Json {
    /// The value that a body of JSON has. Members stand in ascending order of their names' bytes; of a name that
    /// stands twice the last value counts. The refusal is NotJson, or that of the first bad node: Fraction or
    /// ZeroByte, a member's name before its value.
    pub fn from_body(alloc: Global, bytes: &[u8]) -> Result<Json, JsonRefusal>
        ensures due { Gives json_view JsonRefusal.Memory (body_of bytes.now) result }
        ensures names { IfOk result (λ value. has_distinct_names (json_view value) ≡ true) }
    {
        match Value::from_slice(alloc, bytes) {
            Ok(value) => json_of(alloc, &value),
            Err(error) => {
                if error.is_memory() {
                    Err(JsonRefusal::Memory)
                } else {
                    Err(JsonRefusal::NotJson)
                }
            }
        }
    }
}

// A name or text, which has no zero byte.
fn clean_text(alloc: Global, text: &str) -> Result<Txt, JsonRefusal>
    ensures { Gives (λ t. t) JsonRefusal.Memory (clean text.now) result }
{
    Ok(Txt::of(alloc, text.as_bytes())?)
}

// The value of what serde_json holds.
#[cycle(walk)]
fn json_of(alloc: Global, value: &Value) -> Result<Json, JsonRefusal>
    ensures due { Gives json_view JsonRefusal.Memory (value_of (view value.now)) result }
    ensures names { IfOk result (λ v. has_distinct_names (json_view v) ≡ true) }
{
    match value {
        Value::Null => Ok(Json::Null),
        Value::Bool(b) => Ok(Json::Bool(*b)),
        Value::Number(number) => match number.as_i64() {
            Some(whole) => Ok(Json::Int(whole as i128)),
            None => Err(JsonRefusal::Fraction),
        },
        Value::String(text) => Ok(Json::Str(clean_text(alloc, text.as_str())?)),
        Value::Array(items) => Ok(Json::Arr(elements(alloc, items)?)),
        Value::Object(entries) => Ok(Json::Obj(members(alloc, entries)?)),
    }
}

#[cycle(walk)]
fn elements(alloc: Global, items: &Vec<Value>) -> Result<JsonList, JsonRefusal>
    ensures due { Gives (λ v. map json_view v.items) JsonRefusal.Memory (elements_in (items_view items.now.items)) result }
    ensures names { IfOk result (λ v. elements_have_distinct_names (elements_of (map json_view v.items)) ≡ true) }
{
    let mut list = Vec::new(alloc);
    for item in items {
        list.push(json_of(alloc, item)?)?;
    }
    Ok(list)
}

#[cycle(walk)]
fn members(alloc: Global, entries: &Map<String, Value>) -> Result<Members, JsonRefusal>
    ensures due { Gives (λ v. map member_view v.items) JsonRefusal.Memory (members_in (members_view entries.now.entries)) result }
    ensures names { IfOk result (λ v. has_distinct_names (obj (members_of (map member_view v.items))) ≡ true) }
{
    let mut list = Vec::new(alloc);
    for (name, value) in entries.iter() {
        let name = clean_text(alloc, name.as_str())?;
        let value = json_of(alloc, value)?;
        list.push(Member { name, value })?;
    }
    Ok(list)
}
