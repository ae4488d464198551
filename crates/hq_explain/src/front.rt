//! The front of what is told of a fault.
ghost use Rattle.std.specs.Prelude.{◌≡◌, ◌++◌, [], IfOk, OnOk, codes, option_and_then, option_copied, unwrap_or};
ghost use Rattle.hq_base.specs.Look.{member_in, str_in};
ghost use Rattle.hq_base.specs.Json.{json_view};
ghost use Rattle.hq_explain.specs.Fronts.{fault_front, place_front, query_text, rule_front};

use hq_base::{Bytes, Json, JsonRefusal, Memory, Txt};
use hq_explain_places::place_of;
use hq_faults::RequestFault;
use itoa::Buffer;
use std::alloc::Global;

// The text of the member `query`.
fn query_of(json: &Json) -> Option<&Txt>
    ensures { option_copied result ≡ option_and_then str_in (member_in (json_view json.now) (codes "query")) }
{
    match json.member("query") {
        Some(query) => query.as_txt(),
        None => None,
    }
}

// A copy of a text, or no text.
fn copied(alloc: Global, text: Option<&Txt>) -> Result<Bytes, Memory>
    ensures { IfOk result (λ copy. copy ≡ unwrap_or (option_copied text.entry) []) }
{
    match text {
        Some(text) => Bytes::from_slice(alloc, text.as_bytes()),
        None => Ok(Bytes::new(alloc)),
    }
}

// The query's text of a body.
fn query_text(alloc: Global, body: &[u8]) -> Result<Bytes, Memory>
    ensures { IfOk result (λ text. text ≡ query_text body.now) }
{
    match Json::from_body(alloc, body) {
        Ok(json) => copied(alloc, query_of(&json)),
        Err(JsonRefusal::Memory) => Err(Memory),
        Err(JsonRefusal::NotJson | JsonRefusal::Fraction | JsonRefusal::ZeroByte) => {
            Ok(Bytes::new(alloc))
        }
    }
}

// Adds a place in a text, as line and column.
fn put_place(out: &mut Bytes, text: &[u8], at: Option<u64>) -> Result<(), Memory>
    ensures { OnOk result (out.new ≡ out.old ++ place_front text.now at) }
{
    let Some(at) = at else {
        return Ok(());
    };
    let place = place_of(text, at as usize);
    out.append(b"query:")?;
    out.append(Buffer::new().format(place.line).as_bytes())?;
    out.append(b":")?;
    out.append(Buffer::new().format(place.column).as_bytes())?;
    out.append(b": ")
}

// Adds the rule of a fault.
fn put_rule(out: &mut Bytes, fault: &RequestFault) -> Result<(), Memory>
    ensures { OnOk result (out.new ≡ out.old ++ rule_front fault.now) }
{
    out.append(b"error[")?;
    out.append(fault.rule().text().as_bytes())?;
    out.append(b"]: ")
}

/// The front of what is told of a fault of a body: `query:LINE:COLUMN: error[RULE]: `, without a place where it has none.
pub fn fault_front(alloc: Global, body: &[u8], fault: &RequestFault) -> Result<Bytes, Memory>
    ensures { IfOk result (λ front. front ≡ fault_front body.now fault.now) }
{
    let text = query_text(alloc, body)?;
    let mut front = Bytes::new(alloc);
    put_place(&mut front, text.as_slice(), fault.place())?;
    put_rule(&mut front, fault)?;
    Ok(front)
}
