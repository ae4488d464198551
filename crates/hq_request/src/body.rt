//! The form of a request.
ghost use Rattle.std.specs.Prelude.{◌≡◌, option_map, option_copied, option_and_then};
ghost use Rattle.hq_base.specs.Json.{json_view};
ghost use Rattle.hq_base.specs.Look.{str_in};
ghost use Rattle.hq_request.specs.RequestForm.{may_be_variables, may_be_name, query_in};

use hq_base::{Json, Txt};

// An object, null or absent.
fn may_be_variables(value: Option<&Json>) -> bool
    ensures { result ≡ may_be_variables (option_map (λ j. json_view j.now) value.entry) }
{
    match value {
        None | Some(Json::Null) | Some(Json::Obj(_)) => true,
        Some(_) => false,
    }
}

// A text, null or absent.
fn may_be_name(value: Option<&Json>) -> bool
    ensures { result ≡ may_be_name (option_map (λ j. json_view j.now) value.entry) }
{
    match value {
        None | Some(Json::Null) | Some(Json::Str(_)) => true,
        Some(_) => false,
    }
}

/// The text that a value is.
pub(crate) fn text_of(value: Option<&Json>) -> Option<&Txt>
    ensures { option_copied result ≡ option_and_then str_in (option_map (λ j. json_view j.now) value.entry) }
{
    match value {
        Some(value) => value.as_txt(),
        None => None,
    }
}

/// The query text of a body that has the form of a request.
pub(crate) fn query_in(body: &Json) -> Option<&Txt>
    ensures { option_copied result ≡ query_in (json_view body.now) }
{
    if may_be_variables(body.member("variables")) && may_be_name(body.member("operationName")) {
        return text_of(body.member("query"));
    }
    None
}
