//! The parts of values, and the arguments of a field by their names.
ghost use Rattle.std.specs.Prelude.{◌≡◌, map, IfOk, option_map};
ghost use Rattle.hq_base.specs.Json.{json_view};
ghost use Rattle.hq_gql_tree.specs.Selections.{field_view};
ghost use Rattle.hq_gql_tree.specs.Values.{argument_view};
ghost use Rattle.hq_schema.specs.Schema.{arg_view};
ghost use Rattle.hq_request_arguments.specs.Context.{context_view};
ghost use Rattle.hq_request_arguments.specs.Given.{given_view};
ghost use Rattle.hq_request_arguments.specs.Reading.{items_in, misfit, given, argument_named, given_named};

use crate::{ArgRefusal, Context};
use hq_base::{Json, Memory};
use hq_gql_tree::{Argument, Field, RuleId};
use hq_request_coerce::source;
use hq_schema::{ArgDef, ArgDefList, arg_named};
use std::alloc::Global;
use std::slice;

/// An argument that is given, with its definition. Its value is not null, and lies in a box, so that it is let go in one step.
#[derive(Drop)]
pub struct Given<'a> {
    pub arg: &'a ArgDef,
    pub value: Box<Json>,
}

/// The elements of a list; a single value stands for a list of one.
pub fn items_in(json: &Json) -> &[Json]
    ensures { map json_view result.now ≡ items_in (json_view json.now) }
{
    match json.as_array() {
        Some(elements) => elements,
        None => slice::from_ref(json),
    }
}

/// The refusal of a value where another kind of value is wanted.
pub fn misfit(json: &Json) -> ArgRefusal
    ensures { result ≡ misfit (json_view json.now) }
{
    match json {
        Json::Null => ArgRefusal::Rule(RuleId::NullOperand),
        _ => ArgRefusal::Rule(RuleId::ValuesOfCorrectType),
    }
}

/// The arguments that are given to a field.
pub fn arguments_of(field: &Field) -> &[Argument]
    ensures { map argument_view result.now ≡ (field_view field.now).0.args }
{
    &field.args
}

/// The place of a field.
pub fn place_of(field: &Field) -> u64
    ensures { result ≡ (field_view field.now).0.at }
{
    field.at
}

/// The argument of a name; of two of one name the first counts.
pub fn argument_named<'a>(arguments: &'a [Argument], name: &str) -> Option<&'a Argument>
    ensures { option_map (λ x. argument_view x.now) result ≡ argument_named (map argument_view arguments.now) name.now }
{
    for argument in arguments {
        if argument.name.as_str() == name {
            return Some(argument);
        }
    }
    None
}

/// An argument with its definition, None where its value is null or there is none.
pub fn given_of<'a>(
    alloc: Global,
    context: &Context<'_>,
    arg: &'a ArgDef,
    argument: &Argument,
) -> Result<Option<Given<'a>>, Memory>
    ensures { IfOk result (λ o. option_map given_view o ≡ given (context_view context.now) (arg_view arg.now) (argument_view argument.now)) }
{
    match source(alloc, context.vars, &argument.value.value)? {
        None | Some(Json::Null) => Ok(None),
        Some(value) => Ok(Some(Given {
            arg,
            value: Box::new(alloc, value)?,
        })),
    }
}

/// The argument of a name among those of this definition, None where it is not given.
pub fn given_named<'a>(
    alloc: Global,
    context: &Context<'_>,
    args: &'a ArgDefList,
    arguments: &[Argument],
    name: &str,
) -> Result<Option<Given<'a>>, Memory>
    ensures { IfOk result (λ o. option_map given_view o ≡ given_named (context_view context.now) (map arg_view args.now) (map argument_view arguments.now) name.now) }
{
    let Some(argument) = argument_named(arguments, name) else {
        return Ok(None);
    };
    match arg_named(args, &argument.name) {
        Some(arg) => given_of(alloc, context, arg, argument),
        None => Ok(None),
    }
}
