//! Values of a document with variables put in.
ghost use Rattle.std.specs.Prelude.{◌≡◌, map, IfOk, option_map};
ghost use Rattle.hq_base.specs.Json.{json_view, member_view};
ghost use Rattle.hq_gql_tree.specs.Values.{value_view, placed_view, argument_view, elements_of, members_of};
ghost use Rattle.hq_request_coerce.specs.Variables.{var_view, var_value};
ghost use Rattle.hq_request_coerce.specs.Sources.{number_of, source_of, element_sources, member_sources};

use crate::VarValues;
use hq_base::{Json, JsonList, Member, Members, Memory, Txt, Ty};
use hq_gql_tree::{Argument, Placed, Value};
use hq_model::whole_number;
use std::alloc::Global;

// A copy of the value of a variable, None where it has none.
fn variable(alloc: Global, vars: &VarValues, name: &Txt) -> Result<Option<Json>, Memory>
    ensures { IfOk result (λ o. option_map json_view o ≡ var_value (map var_view vars.now) name.now) }
{
    match vars.find(name) {
        Some(var) => Ok(Some(var.value.copy(alloc)?)),
        None => Ok(None),
    }
}

#[tactic(auto, unfolding(crate::specs::Sources::number_of))]
fn number(text: &Txt) -> Json
    ensures { json_view result ≡ number_of text.now }
{
    match whole_number(Ty::Bigint, text.as_str()) {
        Some(n) => Json::Int(i128::from(n)),
        None => Json::Null,
    }
}

/// The JSON that a value writes with these variables, None where it is a variable without a value.
#[cycle(source)]
pub fn source(alloc: Global, vars: &VarValues, value: &Value) -> Result<Option<Json>, Memory>
    ensures { IfOk result (λ o. option_map json_view o ≡ source_of (map var_view vars.now) (value_view value.now)) }
{
    match value {
        Value::Int(text) => Ok(Some(number(text))),
        Value::Float(_) => Ok(Some(Json::Null)),
        Value::Str(text) => Ok(Some(Json::Str(text.copy(alloc)?))),
        Value::Bool(b) => Ok(Some(Json::Bool(*b))),
        Value::Null => Ok(Some(Json::Null)),
        Value::Enum(name) => Ok(Some(Json::Str(name.copy(alloc)?))),
        Value::List(values) => Ok(Some(Json::Arr(element_sources(alloc, vars, values)?))),
        Value::Object(members) => Ok(Some(Json::Obj(member_sources(alloc, vars, members)?))),
        Value::Variable(name) => variable(alloc, vars, name),
    }
}

#[cycle(source)]
fn element_sources(
    alloc: Global,
    vars: &VarValues,
    values: &Vec<Placed>,
) -> Result<JsonList, Memory>
    ensures { IfOk result (λ js. map json_view js.items ≡ element_sources (map var_view vars.now) (elements_of (map placed_view values.now.items))) }
{
    let mut elements = Vec::new(alloc);
    for placed in values {
        if let Some(json) = source(alloc, vars, &placed.value)? {
            elements.push(json)?;
        }
    }
    Ok(elements)
}

#[cycle(source)]
fn member_sources(
    alloc: Global,
    vars: &VarValues,
    arguments: &Vec<Argument>,
) -> Result<Members, Memory>
    ensures { IfOk result (λ ms. map member_view ms.items ≡ member_sources (map var_view vars.now) (members_of (map argument_view arguments.now.items))) }
{
    let mut members = Vec::new(alloc);
    for argument in arguments {
        if let Some(value) = source(alloc, vars, &argument.value.value)? {
            members.push(Member {
                name: argument.name.copy(alloc)?,
                value,
            })?;
        }
    }
    Ok(members)
}
