//! Nodes of a document's values, with variables put in.
ghost use Rattle.std.specs.Prelude.{◌≡◌, map};
ghost use Rattle.hq_request_collect.specs.ValueNodes.{put_in_nodes, value_nodes, element_nodes, member_nodes};
ghost use Rattle.hq_request_coerce.specs.Variables.{var_view, var_value};
ghost use Rattle.hq_request_collect.specs.Size.{less};
ghost use Rattle.hq_gql_tree.specs.Values.{value_view, placed_view, argument_view, elements_of, members_of};

use crate::json::{without_json, without_one, without_text};
use hq_base::Txt;
use hq_gql_tree::{Argument, Placed, Value};
use hq_request_coerce::VarValues;

// How many nodes may still come behind the value of a variable.
fn without_variable(vars: &VarValues, name: &Txt, left: usize) -> Option<usize>
    ensures { result ≡ less (put_in_nodes (var_value (map var_view vars.now) name.now)) left }
{
    match vars.find(name) {
        Some(var) => without_json(&var.value, left),
        None => without_one(left),
    }
}

/// The same behind a value.
#[cycle(value)]
pub fn without_value(vars: &VarValues, value: &Value, left: usize) -> Option<usize>
    ensures { result ≡ less (value_nodes (map var_view vars.now) (value_view value.now)) left }
{
    match value {
        Value::Int(_) | Value::Float(_) | Value::Bool(_) | Value::Null => without_one(left),
        Value::Str(text) => without_text(text, left),
        Value::Enum(name) => without_text(name, left),
        Value::List(values) => without_elements(vars, values, without_one(left)?),
        Value::Object(members) => without_members(vars, members, without_one(left)?),
        Value::Variable(name) => without_variable(vars, name, left),
    }
}

#[cycle(value)]
fn without_elements(vars: &VarValues, values: &Vec<Placed>, left: usize) -> Option<usize>
    ensures { result ≡ less (element_nodes (map var_view vars.now) (elements_of (map placed_view values.now.items))) left }
{
    let mut left = left;
    for placed in values {
        left = without_value(vars, &placed.value, left)?;
    }
    Some(left)
}

/// The same behind the values of members or arguments.
#[cycle(value)]
pub fn without_members(vars: &VarValues, members: &Vec<Argument>, left: usize) -> Option<usize>
    ensures { result ≡ less (member_nodes (map var_view vars.now) (members_of (map argument_view members.now.items))) left }
{
    let mut left = left;
    for member in members {
        left = without_value(vars, &member.value.value, left)?;
    }
    Some(left)
}
