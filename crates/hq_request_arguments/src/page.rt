//! The arguments `limit` and `offset`.
ghost use Rattle.std.specs.Prelude.{◌≡◌, true, option_map};
ghost use Rattle.hq_model.specs.Database.{int_fits};
ghost use Rattle.hq_base.specs.Json.{json_view};
ghost use Rattle.hq_request_arguments.specs.Given.{given_view};
ghost use Rattle.hq_request_arguments.specs.Page.{not_negative, rows_of, rows_in, rows_due};

use crate::ArgRefusal;
use crate::reading::Given;
use hq_base::{Json, Ty};
use hq_gql_tree::RuleId;

// Whether a number has 32 bits.
fn is_int(n: i128) -> bool
    ensures { result ≡ int_fits Ty.Integer n }
{
    i128::from(i32::MIN) <= n && n <= i128::from(i32::MAX)
}

// A number of rows, of a number that has 32 bits.
fn not_negative(n: i128) -> Result<Option<u32>, ArgRefusal>
    requires { int_fits Ty.Integer n ≡ true }
    ensures { result ≡ not_negative n }
{
    match u32::try_from(n) {
        Ok(n) => Ok(Some(n)),
        Err(_) => Err(ArgRefusal::Rule(RuleId::NegativeLimit)),
    }
}

fn rows_of(n: i128) -> Result<Option<u32>, ArgRefusal>
    ensures { result ≡ rows_of n }
{
    if is_int(n) {
        not_negative(n)
    } else {
        Err(ArgRefusal::Rule(RuleId::ValuesOfCorrectType))
    }
}

fn rows_in(json: &Json) -> Result<Option<u32>, ArgRefusal>
    ensures { result ≡ rows_in (json_view json.now) }
{
    match json {
        Json::Int(n) => rows_of(*n),
        _ => Err(ArgRefusal::Rule(RuleId::ValuesOfCorrectType)),
    }
}

/// A number of rows, None where the argument is not given.
pub fn rows(given: Option<Given<'_>>) -> Result<Option<u32>, ArgRefusal>
    ensures { result ≡ rows_due (option_map given_view given.entry) }
{
    match given {
        Some(given) => rows_in(&given.value),
        None => Ok(None),
    }
}
