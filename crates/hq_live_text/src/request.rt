ghost use Rattle.std.specs.Prelude.{◌≡◌, IfOk, map, option_copied};
ghost use Rattle.hq_base.specs.Json.{json_view, member_view};
ghost use Rattle.hq_live_text.specs.LiveText.{query_in, query_of, live_text, is_lasting, with_query_text, with_member_text};

use crate::document::live_query;
use hq_base::{Bytes, Json, Member, Members, Memory, Txt};
use std::alloc::Global;

/// The live text of a request, and whether it lasts: one that does is answered anew when its reply changes, and any other once.
#[derive(Drop)]
pub struct LiveText {
    pub body: Bytes,
    pub is_lasting: bool,
}

// The query text of a request.
fn query_in(request: &Json) -> Option<&Txt>
    ensures { option_copied result ≡ query_in (json_view request.now) }
{
    request.member("query")?.as_txt()
}

// The live text of the query text of a request, where a keyword of it is to be written anew.
fn query_of(alloc: Global, request: &Json) -> Result<Option<Txt>, Memory>
    ensures { IfOk result (λ live. live ≡ query_of (json_view request.now)) }
{
    let Some(query) = query_in(request) else {
        return Ok(None);
    };
    live_query(alloc, query)
}

// A member with this text, where it is the query text.
fn with_member_text(alloc: Global, member: &Member, query: &Txt) -> Result<Member, Memory>
    ensures { IfOk result (λ made. member_view made ≡ with_member_text query.now (member_view member.now)) }
{
    let name = member.name.copy(alloc)?;
    if name.as_str() == "query" {
        let value = Json::Str(query.copy(alloc)?);
        return Ok(Member { name, value });
    }
    let value = member.value.copy(alloc)?;
    Ok(Member { name, value })
}

// Members with this query text.
fn with_texts(alloc: Global, members: &[Member], query: &Txt) -> Result<Members, Memory>
    ensures { IfOk result (λ made. map member_view made.items ≡ map (with_member_text query.now) (map member_view members.now)) }
{
    let mut made = Vec::new(alloc);
    'members: for member in members {
        made.push(with_member_text(alloc, member, query)?)?;
    }
    Ok(made)
}

// A request with this query text.
fn with_query_text(alloc: Global, request: &Json, query: &Txt) -> Result<Json, Memory>
    ensures { IfOk result (λ made. json_view made ≡ with_query_text query.now (json_view request.now)) }
{
    match request.as_object() {
        Some(members) => Ok(Json::Obj(with_texts(alloc, members, query)?)),
        None => request.copy(alloc),
    }
}

/// The live text of a request, and whether it lasts.
pub fn live_text(alloc: Global, request: &Json) -> Result<LiveText, Memory>
    ensures body { IfOk result (λ live. live.body ≡ live_text (json_view request.now)) }
    ensures lasting { IfOk result (λ live. live.is_lasting ≡ is_lasting (json_view request.now)) }
{
    let mut body = Bytes::new(alloc);
    match query_of(alloc, request)? {
        Some(query) => {
            with_query_text(alloc, request, &query)?.write_to(alloc, &mut body)?;
            Ok(LiveText {
                body,
                is_lasting: true,
            })
        }
        None => {
            request.write_to(alloc, &mut body)?;
            Ok(LiveText {
                body,
                is_lasting: false,
            })
        }
    }
}
