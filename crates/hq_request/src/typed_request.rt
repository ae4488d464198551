//! The typed request of a body.
ghost use Rattle.hq_request_tree.specs.Request.{ask_view};
ghost use Rattle.hq_base.specs.Due.{Gives};
ghost use Rattle.hq_schema.specs.Schema.{schema_view};
ghost use Rattle.hq_model.specs.Meta.{meta_view};
ghost use Rattle.hq_request.specs.Request.{request_by};

use crate::operation::operation_ask;
use crate::reading::{document_due, json_due, query_due};
use crate::refusal::RequestRefusal;
use crate::validation::valid_due;
use hq_model::{Catalog, Meta, Session};
use hq_request_tree::Ask;
use hq_schema::Schema;
use std::alloc::Global;

/// The typed request that a body makes for a session whose role has this schema, or the first fault: of the body (F1, F2), of
/// its text (F3, F4), of the rules of validation, of the operation and its variables (F30, F35, F31), and of the request (F32 to
/// F34, F36 to F42).
#[tactic(auto, unfolding(crate::specs::Request::request_by))]
pub fn request(
    alloc: Global,
    schema: &Schema,
    catalog: &Catalog,
    meta: &Meta,
    session: &Session,
    body: &[u8],
) -> Result<Ask, RequestRefusal>
    ensures { Gives ask_view RequestRefusal.Memory (request_by (schema_view schema.now) catalog.now.tables (meta_view meta.now) session.now body.now) result }
{
    let json = json_due(alloc, body)?;
    let text = query_due(&json)?;
    let document = document_due(alloc, text.as_bytes())?;
    valid_due(alloc, schema, &document)?;
    operation_ask(alloc, schema, catalog, meta, session, &json, &document)
}
