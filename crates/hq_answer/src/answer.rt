//! An answer: made of a JSON value, and written.
ghost use Rattle.std.specs.Prelude.{◌≡◌, ◌++◌, IfOk, OnOk, map};
ghost use Rattle.std.specs.List.{join_with_byte};
ghost use Rattle.hq_base.specs.Compact.{compact};
ghost use Rattle.hq_base.specs.Json.{JsonTree, json_view, member_view, members_of};
ghost use Rattle.hq_answer.specs.Answers.{IsAnswer, answer_view, answer_text, named_text, named_texts, member_text};

use hq_base::{Bytes, Json, Members, Memory, Txt, put_comma, put_quoted};
use std::alloc::Global;

/// A member of a JSON object: its name, and the compact text of its value.
#[derive(Drop)]
pub struct AnswerMember {
    pub name: Txt,
    pub text: Bytes,
}

/// A JSON value as text.
#[derive(Drop)]
pub enum Answer {
    /// The members of an object, in order.
    Object(Vec<AnswerMember>),
    /// The compact text of a value that is no object.
    Other(Bytes),
}

// The compact text of a value.
fn text_of(alloc: Global, json: &Json) -> Result<Bytes, Memory>
    ensures { IfOk result (λ text. text ≡ compact (json_view json.now)) }
{
    let mut text = Bytes::new(alloc);
    json.write_to(alloc, &mut text)?;
    Ok(text)
}

// Each member with the text of its value.
fn texts_of(alloc: Global, members: &Members) -> Result<Vec<AnswerMember>, Memory>
    ensures { IfOk result (λ texts. map named_text texts.items ≡ named_texts (members_of (map member_view members.now.items))) }
{
    let mut texts = Vec::new(alloc);
    for member in members {
        let name = member.name.copy(alloc)?;
        let text = text_of(alloc, &member.value)?;
        texts.push(AnswerMember { name, text })?;
    }
    Ok(texts)
}

// The members in an object's text, between its braces.
fn put_members(out: &mut Bytes, members: &[AnswerMember]) -> Result<(), Memory>
    ensures { OnOk result (out.new ≡ out.old ++ join_with_byte 44 (map member_text (map named_text members.now))) }
{
    for (at, member) in members.iter().enumerate() {
        put_comma(out, at)?;
        put_quoted(out, &member.name)?;
        out.push(b':')?;
        out.append(member.text.as_slice())?;
    }
    Ok(())
}

fn put_answer(out: &mut Bytes, answer: &Answer) -> Result<(), Memory>
    ensures { OnOk result (out.new ≡ out.old ++ answer_text (answer_view answer.now)) }
{
    match answer {
        Answer::Object(members) => {
            out.push(b'{')?;
            put_members(out, members)?;
            out.push(b'}')
        }
        Answer::Other(text) => out.append(text.as_slice()),
    }
}

impl Answer {
    /// The answer that a value is.
    pub fn of_json(alloc: Global, json: Json) -> Result<Answer, Memory>
        ensures { IfOk result (λ answer. IsAnswer answer (json_view json)) }
    {
        match &json {
            Json::Obj(members) => Ok(Answer::Object(texts_of(alloc, members)?)),
            Json::Null | Json::Bool(_) | Json::Int(_) | Json::Str(_) | Json::Arr(_) => {
                Ok(Answer::Other(text_of(alloc, &json)?))
            }
        }
    }

    /// Appends the answer's text, which is the compact text of the value that it answers with. Where memory runs out, a
    /// part of it may stand behind `out`.
    pub fn write_to(&self, out: &mut Bytes) -> Result<(), Memory>
        ensures text { OnOk result (out.new ≡ out.old ++ answer_text (answer_view self.now)) }
        ensures value { OnOk result ((j : JsonTree) → IsAnswer self.now j → out.new ≡ out.old ++ compact j) }
    {
        put_answer(out, self)
    }
}
