//! The steps by which a request is read.
ghost use Rattle.std.specs.Prelude.{◌≡◌};
ghost use Rattle.hq_base.specs.Due.{Gives};
ghost use Rattle.hq_base.specs.Json.{json_view};
ghost use Rattle.hq_gql_tree.specs.View.{document_view};
ghost use Rattle.hq_request.specs.Reading.{json_due, query_due, document_due};

use crate::body::query_in;
use crate::refusal::RequestRefusal;
use hq_base::{Json, JsonRefusal, Txt};
use hq_faults::{BodyFault, RequestFault, fault_at};
use hq_gql_lexer::{LexRefusal, lex};
use hq_gql_parser::{ParseRefusal, parse};
use hq_gql_tree::{Document, RuleId};
use std::alloc::Global;

impl From<JsonRefusal> for RequestRefusal {
    ghost use Rattle.std.specs.Prelude.{◌≡◌};
    ghost use Rattle.hq_request.specs.Reading.{of_json};

    ghost from_gives = { λ cause e. e ≡ of_json cause };

    fn from(cause: JsonRefusal) -> Self {
        match cause {
            JsonRefusal::NotJson => RequestRefusal::Fault(RequestFault::Body(BodyFault::NotJson)),
            JsonRefusal::Fraction => RequestRefusal::Fault(RequestFault::Body(BodyFault::Fraction)),
            JsonRefusal::ZeroByte => RequestRefusal::Fault(RequestFault::Body(BodyFault::ZeroByte)),
            JsonRefusal::Memory => RequestRefusal::Memory,
        }
    }
}

impl From<LexRefusal> for RequestRefusal {
    ghost use Rattle.std.specs.Prelude.{◌≡◌};
    ghost use Rattle.hq_request.specs.Reading.{of_lex};

    ghost from_gives = { λ cause e. e ≡ of_lex cause };

    fn from(cause: LexRefusal) -> Self {
        match cause {
            LexRefusal::BadByte { at }
            | LexRefusal::BadEscape { at }
            | LexRefusal::OpenString { at }
            | LexRefusal::BadNumber { at }
            | LexRefusal::NotUtf8 { at } => {
                RequestRefusal::Fault(fault_at(RuleId::InvalidToken, Some(at)))
            }
            LexRefusal::Memory => RequestRefusal::Memory,
        }
    }
}

impl From<ParseRefusal> for RequestRefusal {
    ghost use Rattle.std.specs.Prelude.{◌≡◌};
    ghost use Rattle.hq_request.specs.Reading.{of_parse};

    ghost from_gives = { λ cause e. e ≡ of_parse cause };

    fn from(cause: ParseRefusal) -> Self {
        match cause {
            ParseRefusal::Unexpected { at } | ParseRefusal::TooDeep { at } => {
                RequestRefusal::Fault(fault_at(RuleId::SyntaxError, Some(at)))
            }
            ParseRefusal::Empty => RequestRefusal::Fault(fault_at(RuleId::SyntaxError, Some(0))),
            ParseRefusal::Memory => RequestRefusal::Memory,
        }
    }
}

/// A body as JSON.
#[tactic(auto, using(crate::proofs::Refusals::refused))]
pub(crate) fn json_due(alloc: Global, body: &[u8]) -> Result<Json, RequestRefusal>
    ensures { Gives json_view RequestRefusal.Memory (json_due body.now) result }
{
    Ok(Json::from_body(alloc, body)?)
}

/// The query text of a request.
pub(crate) fn query_due(body: &Json) -> Result<&Txt, RequestRefusal>
    ensures { Gives (λ text. text.now) RequestRefusal.Memory (query_due (json_view body.now)) result }
{
    match query_in(body) {
        Some(text) => Ok(text),
        None => Err(RequestRefusal::Fault(fault_at(RuleId::RequestForm, None))),
    }
}

/// The document of a query text.
#[tactic(auto, using(crate::proofs::Refusals::refused))]
pub(crate) fn document_due(alloc: Global, text: &[u8]) -> Result<Document, RequestRefusal>
    ensures { Gives document_view RequestRefusal.Memory (document_due text.now) result }
{
    let tokens = lex(alloc, text)?;
    Ok(parse(alloc, &tokens, text.len() as u64)?)
}
