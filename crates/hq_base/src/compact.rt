ghost use Rattle.std.specs.Prelude.{◌≡◌, ◌++◌, OnOk, OnErr, map};
ghost use Rattle.std.specs.Fmt.{signed_decimal};
ghost use Rattle.std.specs.List.{join_with_byte};
ghost use Rattle.hq_base.specs.Json.{json_view, member_view, elements_of, members_of, bool};
ghost use Rattle.hq_base.specs.Compact.{compact, element_texts, member_texts};

use crate::parts::{put_comma, put_quoted};
use crate::{Bytes, Json, JsonList, Members, Memory};
use itoa::Buffer;
use std::alloc::Global;

impl Json {
    /// Appends the compact text of the value: no spaces, and the escapes that serde_json writes. Where memory runs
    /// out, `out` stays as it was.
    pub fn write_to(&self, alloc: Global, out: &mut Bytes) -> Result<(), Memory>
        ensures ok { OnOk result (out.new ≡ out.old ++ compact (json_view self.now)) }
        ensures err { OnErr result (out.new ≡ out.old) }
    {
        let mut text = Bytes::new(alloc);
        put(&mut text, self)?;
        out.append(text.as_slice())
    }
}

#[cycle(put)]
fn put(out: &mut Bytes, json: &Json) -> Result<(), Memory>
    ensures { OnOk result (out.new ≡ out.old ++ compact (json_view json.now)) }
{
    match json {
        Json::Null => out.append(b"null"),
        Json::Bool(b) => put_bool(out, *b),
        Json::Int(whole) => put_whole(out, *whole),
        Json::Str(text) => put_quoted(out, text),
        Json::Arr(elements) => {
            out.push(b'[')?;
            put_elements(out, elements)?;
            out.push(b']')
        }
        Json::Obj(members) => {
            out.push(b'{')?;
            put_members(out, members)?;
            out.push(b'}')
        }
    }
}

#[cycle(put)]
fn put_elements(out: &mut Bytes, elements: &JsonList) -> Result<(), Memory>
    ensures { OnOk result (out.new ≡ out.old ++ join_with_byte 44 (element_texts (elements_of (map json_view elements.now.items)))) }
{
    for (at, element) in elements.iter().enumerate() {
        put_comma(out, at)?;
        put(out, element)?;
    }
    Ok(())
}

#[cycle(put)]
fn put_members(out: &mut Bytes, members: &Members) -> Result<(), Memory>
    ensures { OnOk result (out.new ≡ out.old ++ join_with_byte 44 (member_texts (members_of (map member_view members.now.items)))) }
{
    for (at, member) in members.iter().enumerate() {
        put_comma(out, at)?;
        put_quoted(out, &member.name)?;
        out.push(b':')?;
        put(out, &member.value)?;
    }
    Ok(())
}

fn put_bool(out: &mut Bytes, b: bool) -> Result<(), Memory>
    ensures { OnOk result (out.new ≡ out.old ++ compact (bool b)) }
{
    if b {
        out.append(b"true")
    } else {
        out.append(b"false")
    }
}

fn put_whole(out: &mut Bytes, whole: i128) -> Result<(), Memory>
    ensures { OnOk result (out.new ≡ out.old ++ signed_decimal whole) }
{
    let mut buffer = Buffer::new();
    out.append(buffer.format(whole).as_bytes())
}
