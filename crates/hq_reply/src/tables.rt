//! Root fields that start at a table, and the members of the object that their one statement gives.
ghost use Rattle.std.specs.Prelude.{◌≡◌, ◌++◌, List as Items, None, OnOk, map, false};
ghost use Rattle.hq_answer.specs.Answers.{IsAnswer, named_text, named_texts};
ghost use Rattle.hq_request_tree.specs.Fields.{FieldTree, FieldTrees, fields_of, field_view, keyed_field_view};
ghost use Rattle.hq_request_tree.specs.Root.{is_table_field};
ghost use Rattle.hq_base.specs.Json as tree;
ghost use Rattle.hq_base.specs.Json.{JsonTree, MemberTrees};
ghost use Rattle.hq_model.specs.Database.{Row};
ghost use Rattle.hq_model.specs.Grants.{Grants};
ghost use Rattle.hq_model.specs.Schema.{Schema};
ghost use Rattle.hq_reply.specs.RootObject.{has_table_field};
ghost use Rattle.hq_reply.specs.RootTexts.{texts_in, texts_left, value_text};
ghost use Rattle.hq_reply.specs.TableObject.{IsResolved, table_object};

use hq_answer::{Answer, AnswerMember};
use hq_base::{Bytes, Memory};
use hq_request_tree::{AskField, AskFields};
use std::alloc::Global;
use std::vec::IntoIter;

fn is_table_field(field: &AskField) -> bool
    ensures { result ≡ is_table_field (field_view field.now) }
{
    match field {
        AskField::List { .. } | AskField::ByPk { .. } | AskField::Aggregate { .. } => true,
        AskField::Column { .. }
        | AskField::Typename { .. }
        | AskField::NoQueries
        | AskField::Object { .. }
        | AskField::Introspect { .. } => false,
    }
}

/// Whether a root field starts at a table.
pub fn has_table_field(fields: &AskFields) -> bool
    ensures { result ≡ has_table_field (fields_of (map keyed_field_view fields.now.items)) }
{
    for keyed in fields {
        if is_table_field(keyed.field()) {
            return true;
        }
    }
    false
}

/// The members of an object; another value has none.
pub(crate) fn members_in(alloc: Global, answer: Answer) -> Vec<AnswerMember>
    ensures { (ms : MemberTrees) → IsAnswer answer (tree.obj ms) → map named_text result.items ≡ named_texts ms }
{
    match answer {
        Answer::Object(members) => members,
        Answer::Other(_) => Vec::new(alloc),
    }
}

/// Appends the text of the next member, which is let go, and `null` where there is none.
pub(crate) fn put_next(out: &mut Bytes, left: &mut IntoIter<AnswerMember>) -> Result<(), Memory>
    ensures text { OnOk result (out.new ≡ out.old ++ value_text None (texts_in left.old)) }
    ensures left { OnOk result (texts_in left.new ≡ texts_left None (texts_in left.old)) }
{
    match left.next() {
        Some(member) => out.append(member.text.as_slice()),
        None => out.append(b"null"),
    }
}

/// The laws: what nested resolvers give for the root fields that start at a table has the value of each under its key; and it has
/// no member where none starts at one.
pub fn tables_are_resolved()
    ensures values { (s : Schema) (g : Grants) (d : Items (Items Row)) (fs : FieldTrees) → IsResolved s g d fs }
    ensures none { (of_table : FieldTree → JsonTree) (fs : FieldTrees) → has_table_field fs ≡ false → table_object of_table fs ≡ tree.obj tree.no_member }
{}
