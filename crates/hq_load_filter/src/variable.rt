ghost use Rattle.std.specs.Prelude.{◌≡◌, IfOk, is_some, codes};
ghost use Rattle.std.specs.Str.{str_to_ascii_lowercase};
ghost use Rattle.hq_base.specs.Text.{after};
ghost use Rattle.hq_load_filter.specs.Variable.{variable_named};

use hq_base::{Memory, Txt};
use std::alloc::Global;

/// What the name of a session variable begins with.
const PREFIX: &str = "x-hasura-";

// A text whose letters A to Z are in lower case.
fn lower_case(alloc: Global, text: &Txt) -> Result<Txt, Memory>
    ensures { IfOk result (λ lower. lower ≡ str_to_ascii_lowercase text.now) }
{
    text.is_text();
    let mut lower = Txt::new(alloc);
    lower.push_str(text.as_str().to_ascii_lowercase(alloc)?.as_str())?;
    Ok(lower)
}

// Whether a text in lower case names a session variable.
fn names_variable(lower: &Txt) -> bool
    ensures { result ≡ is_some (after (codes "x-hasura-") lower.now) }
{
    lower.as_str().starts_with(PREFIX)
}

/// The name in lower case of the session variable that a text names, where it names one.
#[tactic(auto, unfolding(crate::specs::Variable::variable_named))]
pub fn variable_named(alloc: Global, text: &Txt) -> Result<Option<Txt>, Memory>
    ensures { IfOk result (λ name. name ≡ variable_named text.now) }
{
    let lower = lower_case(alloc, text)?;
    if names_variable(&lower) {
        Ok(Some(lower))
    } else {
        Ok(None)
    }
}
