//! The reply of data, and that of a fault.
ghost use Rattle.std.specs.Prelude.{◌≡◌, IfOk, map, true, false};
ghost use Rattle.hq_request_tree.specs.Fields.{fields_of, keyed_field_view};
ghost use Rattle.hq_base.specs.Compact.{compact};
ghost use Rattle.hq_base.specs.Json.{json_view};
ghost use Rattle.hq_faults.specs.FaultTexts.{fault_text, tells_fault};
ghost use Rattle.hq_reply.specs.DataTexts.{HasData};
ghost use Rattle.hq_schema.specs.Schema.{schema_view};

use crate::root::put_fields;
use crate::tables::members_in;
use hq_answer::Answer;
use hq_base::{Bytes, Json, Memory, Reply};
use hq_faults::{RequestFault, fault_json};
use hq_request_tree::AskFields;
use hq_schema::Schema;
use std::alloc::Global;

// The reply whose body is a JSON value.
fn reply_of(alloc: Global, json: &Json) -> Result<Reply, Memory>
    ensures status { IfOk result (λ reply. reply.status ≡ 200) }
    ensures body { IfOk result (λ reply. reply.body ≡ compact (json_view json.now)) }
{
    let mut body = Bytes::new(alloc);
    json.write_to(alloc, &mut body)?;
    Ok(Reply { status: 200, body })
}

/// The reply whose data is the object of root fields for a role with this schema, where `tables` answers with the object of those
/// that start at a table. Their text is copied once, into the body.
pub fn data_reply(
    alloc: Global,
    schema: &Schema,
    fields: &AskFields,
    tables: Answer,
) -> Result<Reply, Memory>
    ensures status { IfOk result (λ reply. reply.status ≡ 200) }
    ensures body { let fs = fields_of (map keyed_field_view fields.now.items) in IfOk result (λ reply. HasData (schema_view schema.now) fs tables reply.body) }
    ensures kind { IfOk result (λ reply. tells_fault reply.body ≡ false) }
{
    let mut body = Bytes::new(alloc);
    body.append(br#"{"data":{"#)?;
    put_fields(alloc, &mut body, schema, fields, members_in(alloc, tables))?;
    body.append(b"}}")?;
    Ok(Reply { status: 200, body })
}

/// The reply that tells a fault.
#[tactic(auto, using(crate::proofs::Told::tells))]
pub fn fault_reply(alloc: Global, fault: &RequestFault) -> Result<Reply, Memory>
    ensures status { IfOk result (λ reply. reply.status ≡ 200) }
    ensures body { IfOk result (λ reply. reply.body ≡ fault_text fault.now) }
    ensures kind { IfOk result (λ reply. tells_fault reply.body ≡ true) }
{
    let json = fault_json(alloc, fault)?;
    reply_of(alloc, &json)
}

/// Whether a reply tells a fault, and has no data: its body begins so.
pub fn tells_fault(reply: &Reply) -> bool
    ensures { result ≡ tells_fault reply.now.body }
{
    reply.body.as_slice().starts_with(br#"{"errors":"#)
}
