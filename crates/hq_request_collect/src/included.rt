//! `@skip` and `@include`.
ghost use Rattle.std.specs.Prelude.{◌≡◌, map, find, option_copied, codes, bytes_eq};
ghost use Rattle.hq_base.specs.Json.{json_view};
ghost use Rattle.hq_gql_tree.specs.Values.{value_view, argument_view, directive_view};
ghost use Rattle.hq_request_coerce.specs.Variables.{var_view};
ghost use Rattle.hq_request_collect.specs.Included.{is_true_json, variable_holds, value_holds, if_holds, condition, directives_in, is_included};
ghost use Rattle.hq_gql_tree.specs.Selections.{selection_view, field_view, inline_view};

use hq_base::{Json, Txt};
use hq_gql_tree::{Argument, Directive, Field, Inline, Selection, Value};
use hq_request_coerce::{VarValue, VarValues};

fn is_true(json: &Json) -> bool
    ensures { result ≡ is_true_json (json_view json.now) }
{
    match json {
        Json::Bool(b) => *b,
        Json::Null | Json::Int(_) | Json::Str(_) | Json::Arr(_) | Json::Obj(_) => false,
    }
}

fn variable_named<'a>(vars: &'a VarValues, name: &Txt) -> Option<&'a VarValue>
    ensures { option_copied result ≡ find (λ v. bytes_eq v.name name.now) vars.now }
{
    vars.find(name)
}

#[tactic(auto, unfolding(crate::specs::Included::variable_holds))]
fn variable_holds(vars: &VarValues, name: &Txt) -> bool
    ensures { result ≡ variable_holds (map var_view vars.now) name.now }
{
    match variable_named(vars, name) {
        Some(var) => is_true(&var.value),
        None => false,
    }
}

fn value_holds(vars: &VarValues, value: &Value) -> bool
    ensures { result ≡ value_holds (map var_view vars.now) (value_view value.now) }
{
    match value {
        Value::Bool(b) => *b,
        Value::Variable(name) => variable_holds(vars, name),
        _ => false,
    }
}

fn argument_if(args: &[Argument]) -> Option<&Argument>
    ensures { option_copied result ≡ find (λ a. bytes_eq a.name (codes "if")) args.now }
{
    args.iter()
        .find(|arg| arg.name.as_bytes() == b"if".as_slice())
}

#[tactic(auto, unfolding(crate::specs::Included::if_holds))]
fn if_holds(vars: &VarValues, args: &[Argument]) -> bool
    ensures { result ≡ if_holds (map var_view vars.now) (map argument_view args.now) }
{
    match argument_if(args) {
        Some(arg) => value_holds(vars, &arg.value.value),
        None => false,
    }
}

fn directive_named<'a>(directives: &'a [Directive], name: &[u8]) -> Option<&'a Directive>
    ensures { option_copied result ≡ find (λ d. bytes_eq d.name name.now) directives.now }
{
    directives
        .iter()
        .find(|directive| directive.name.as_bytes() == name)
}

#[tactic(auto, unfolding(crate::specs::Included::condition))]
fn condition(vars: &VarValues, name: &[u8], directives: &[Directive]) -> Option<bool>
    ensures { result ≡ condition (map var_view vars.now) name.now (map directive_view directives.now) }
{
    match directive_named(directives, name) {
        Some(directive) => Some(if_holds(vars, &directive.args)),
        None => None,
    }
}

/// Whether a selection with these directives is included and not skipped.
#[tactic(auto, unfolding(crate::specs::Included::is_included))]
pub fn is_included(vars: &VarValues, directives: &[Directive]) -> bool
    ensures { result ≡ is_included (map var_view vars.now) (map directive_view directives.now) }
{
    let skipped = condition(vars, b"skip", directives).unwrap_or(false);
    let included = condition(vars, b"include", directives).unwrap_or(true);
    !skipped && included
}

fn field_directives(field: &Field) -> &[Directive]
    ensures { map directive_view result.now ≡ (field_view field.now).0.directives }
{
    &field.directives
}

fn inline_directives(inline: &Inline) -> &[Directive]
    ensures { map directive_view result.now ≡ (inline_view inline.now).0.directives }
{
    &inline.directives
}

fn directives_in(selection: &Selection) -> &[Directive]
    ensures { map directive_view result.now ≡ directives_in (selection_view selection.now) }
{
    match selection {
        Selection::Field(field) => field_directives(field),
        Selection::Spread(spread) => &spread.directives,
        Selection::Inline(inline) => inline_directives(inline),
    }
}

/// Whether a selection is included and not skipped.
pub fn is_selected(vars: &VarValues, selection: &Selection) -> bool
    ensures { result ≡ is_included (map var_view vars.now) (directives_in (selection_view selection.now)) }
{
    is_included(vars, directives_in(selection))
}
