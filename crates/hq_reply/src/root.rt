//! The text of the object of root fields.
ghost use Rattle.std.specs.Prelude.{◌≡◌, ◌++◌, IfOk, OnOk, map};
ghost use Rattle.hq_request_tree.specs.Fields.{fields_of, field_view, keyed_field_view};
ghost use Rattle.hq_base.specs.Compact.{compact};
ghost use Rattle.hq_base.specs.Json.{str};
ghost use Rattle.hq_schema.specs.Schema.{schema_view};
ghost use Rattle.hq_reply.specs.RootObject.{no_queries_text};
ghost use Rattle.hq_reply.specs.RootTexts.{field_text, keyed_text, members_text, texts_behind, texts_in, texts_of};

use crate::tables::put_next;
use hq_answer::AnswerMember;
use hq_base::{Bytes, Memory, Txt, put_comma, put_quoted};
use hq_request_introspect::put_answer;
use hq_request_tree::{AskField, AskFields, KeyedAskField};
use hq_schema::Schema;
use std::alloc::Global;
use std::vec::IntoIter;

fn no_queries_text(alloc: Global) -> Result<Txt, Memory>
    ensures { IfOk result (λ text. text ≡ no_queries_text) }
{
    let mut text = Txt::new(alloc);
    text.push_str("There are no queries available to the current role.")?;
    Ok(text)
}

// Appends a text in quotes.
fn put_text(out: &mut Bytes, text: &Txt) -> Result<(), Memory>
    ensures { OnOk result (out.new ≡ out.old ++ compact (str text.now)) }
{
    put_quoted(out, text)
}

// Appends the value of a root field: its own, which is written as it is made, or the next of the members that are left.
fn put_value(
    alloc: Global,
    out: &mut Bytes,
    schema: &Schema,
    field: &AskField,
    left: &mut IntoIter<AnswerMember>,
) -> Result<(), Memory>
    ensures text { OnOk result (out.new ≡ out.old ++ field_text (schema_view schema.now) (texts_in left.old) (field_view field.now)) }
    ensures left { OnOk result (texts_in left.new ≡ texts_behind (schema_view schema.now) (texts_in left.old) (field_view field.now)) }
{
    match field {
        AskField::Typename { name } => put_text(out, name),
        AskField::NoQueries => {
            let text = no_queries_text(alloc)?;
            put_text(out, &text)
        }
        AskField::Introspect { field } => put_answer(alloc, out, schema, field),
        AskField::List { .. } | AskField::ByPk { .. } | AskField::Aggregate { .. } => {
            put_next(out, left)
        }
        AskField::Column { .. } | AskField::Object { .. } => out.append(b"null"),
    }
}

// The same with the field's key before it.
fn put_field(
    alloc: Global,
    out: &mut Bytes,
    schema: &Schema,
    keyed: &KeyedAskField,
    left: &mut IntoIter<AnswerMember>,
) -> Result<(), Memory>
    ensures text { OnOk result (out.new ≡ out.old ++ keyed_text (schema_view schema.now) (texts_in left.old) (keyed_field_view keyed.now)) }
    ensures left { OnOk result (texts_in left.new ≡ texts_behind (schema_view schema.now) (texts_in left.old) (keyed_field_view keyed.now).1) }
{
    put_quoted(out, keyed.key())?;
    out.push(b':')?;
    put_value(alloc, out, schema, keyed.field(), left)
}

/// Appends the members of the object of root fields for a role with this schema, where `tables` are those of the fields that start
/// at a table. Each of these is let go when it is written.
pub(crate) fn put_fields(
    alloc: Global,
    out: &mut Bytes,
    schema: &Schema,
    fields: &AskFields,
    tables: Vec<AnswerMember>,
) -> Result<(), Memory>
    ensures { let fs = fields_of (map keyed_field_view fields.now.items) in
        OnOk result (out.new ≡ out.old ++ members_text (schema_view schema.now) (texts_of tables.items) fs) }
{
    let mut left = tables.into_iter();
    for (at, keyed) in fields.iter().enumerate() {
        put_comma(out, at)?;
        put_field(alloc, out, schema, keyed, &mut left)?;
    }
    Ok(())
}
