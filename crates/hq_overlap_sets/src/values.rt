//! Values as arguments compare them.
ghost use Rattle.std.specs.Prelude.{◌≡◌, ◌∷◌, [], length, map, nat_le, option_map, if◌then◌else◌};
ghost use Rattle.hq_gql_tree.specs.Values.{value_view, placed_view, argument_view, elements_of, members_of};
ghost use Rattle.hq_overlap_sets.specs.Literals.{leaf, bare, bare_elements, bare_members, same_value, same_elements, same_members, same_at, same_member_at};

use hq_base::Txt;
use hq_gql_tree::{Argument, Placed, Value};

fn is_int(value: &Value, text: &Txt) -> bool
    ensures { result ≡ same_value (leaf 0 text.now) (bare (value_view value.now)) }
{
    match value {
        Value::Int(other) => *text == *other,
        _ => false,
    }
}

fn is_float(value: &Value, text: &Txt) -> bool
    ensures { result ≡ same_value (leaf 1 text.now) (bare (value_view value.now)) }
{
    match value {
        Value::Float(other) => *text == *other,
        _ => false,
    }
}

fn is_str(value: &Value, text: &Txt) -> bool
    ensures { result ≡ same_value (leaf 2 text.now) (bare (value_view value.now)) }
{
    match value {
        Value::Str(other) => *text == *other,
        _ => false,
    }
}

fn is_enum(value: &Value, text: &Txt) -> bool
    ensures { result ≡ same_value (leaf 5 text.now) (bare (value_view value.now)) }
{
    match value {
        Value::Enum(other) => *text == *other,
        _ => false,
    }
}

fn is_variable(value: &Value, text: &Txt) -> bool
    ensures { result ≡ same_value (leaf 6 text.now) (bare (value_view value.now)) }
{
    match value {
        Value::Variable(other) => *text == *other,
        _ => false,
    }
}

fn is_bool(value: &Value, b: bool) -> bool
    ensures { result ≡ same_value (leaf 3 (if b then (1 ∷ []) else [])) (bare (value_view value.now)) }
{
    match value {
        Value::Bool(other) => b == *other,
        _ => false,
    }
}

fn is_null(value: &Value) -> bool
    ensures { result ≡ same_value (leaf 4 []) (bare (value_view value.now)) }
{
    match value {
        Value::Null => true,
        _ => false,
    }
}

/// Whether two values are equal without where they stand.
#[cycle(same_value)]
pub fn same_value(left: &Value, right: &Value) -> bool
    ensures { result ≡ same_value (bare (value_view left.now)) (bare (value_view right.now)) }
{
    match left {
        Value::Int(text) => is_int(right, text),
        Value::Float(text) => is_float(right, text),
        Value::Str(text) => is_str(right, text),
        Value::Bool(b) => is_bool(right, *b),
        Value::Null => is_null(right),
        Value::Enum(name) => is_enum(right, name),
        Value::Variable(name) => is_variable(right, name),
        Value::List(elements) => match right {
            Value::List(others) => same_elements(elements, others),
            _ => false,
        },
        Value::Object(members) => match right {
            Value::Object(others) => same_members(members, others),
            _ => false,
        },
    }
}

// Whether a list of elements, and of members, is no longer than another.
fn has_no_more_elements(right: &Vec<Placed>, left: &Vec<Placed>) -> bool
    ensures { result ≡ nat_le (length right.now.items) (length left.now.items) }
{
    right.len() <= left.len()
}

fn has_no_more_members(right: &Vec<Argument>, left: &Vec<Argument>) -> bool
    ensures { result ≡ nat_le (length right.now.items) (length left.now.items) }
{
    right.len() <= left.len()
}

#[cycle(same_value)]
fn same_placed(left: &Placed, right: Option<&Placed>) -> bool
    ensures { result ≡ same_at (placed_view left.now) (option_map (λ p. placed_view p.now) right.entry) }
{
    match right {
        Some(other) => same_value(&left.value, &other.value),
        None => false,
    }
}

#[cycle(same_value)]
fn same_elements(left: &Vec<Placed>, right: &Vec<Placed>) -> bool
    ensures { result ≡ same_elements (bare_elements (elements_of (map placed_view left.now.items))) (bare_elements (elements_of (map placed_view right.now.items))) }
{
    for (at, element) in left.iter().enumerate() {
        if !same_placed(element, right.get(at)) {
            return false;
        }
    }
    has_no_more_elements(right, left)
}

#[cycle(same_value)]
fn same_member(left: &Argument, right: Option<&Argument>) -> bool
    ensures { result ≡ same_member_at (argument_view left.now) (option_map (λ a. argument_view a.now) right.entry) }
{
    match right {
        Some(other) => {
            left.name == other.name && same_value(&left.value.value, &other.value.value)
        }
        None => false,
    }
}

#[cycle(same_value)]
fn same_members(left: &Vec<Argument>, right: &Vec<Argument>) -> bool
    ensures { result ≡ same_members (bare_members (members_of (map argument_view left.now.items))) (bare_members (members_of (map argument_view right.now.items))) }
{
    for (at, member) in left.iter().enumerate() {
        if !same_member(member, right.get(at)) {
            return false;
        }
    }
    has_no_more_members(right, left)
}
