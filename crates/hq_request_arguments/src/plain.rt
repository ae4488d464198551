//! Arguments that name no column.
ghost use Rattle.std.specs.Prelude.{◌≡◌, option_map};
ghost use Rattle.hq_base.specs.Due.{Gives};
ghost use Rattle.hq_request_arguments.specs.Given.{given_view};
ghost use Rattle.hq_request_arguments.specs.Plain.{flag_due, text_due};
ghost use Rattle.hq_request_arguments.specs.declared.refusal.ArgRefusal.TheVariants as refusal;

use crate::ArgRefusal;
use crate::reading::Given;
use hq_base::{Json, Txt};
use hq_gql_tree::RuleId;
use std::alloc::Global;

/// A truth value, false where the argument is not given.
pub fn flag(given: Option<Given<'_>>) -> Result<bool, ArgRefusal>
    ensures { result ≡ flag_due (option_map given_view given.entry) }
{
    let Some(given) = given else {
        return Ok(false);
    };
    match given.value.as_bool() {
        Some(b) => Ok(b),
        None => Err(ArgRefusal::Rule(RuleId::ValuesOfCorrectType)),
    }
}

/// A text, which must be given.
pub fn text(alloc: Global, given: Option<Given<'_>>) -> Result<Txt, ArgRefusal>
    ensures { Gives (λ t. t) refusal.Memory (text_due (option_map given_view given.entry)) result }
{
    let Some(given) = given else {
        return Err(ArgRefusal::Rule(RuleId::RequiredArguments));
    };
    match given.value.as_txt() {
        Some(text) => Ok(text.copy(alloc)?),
        None => Err(ArgRefusal::Rule(RuleId::ValuesOfCorrectType)),
    }
}
