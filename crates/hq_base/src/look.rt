ghost use Rattle.std.specs.Prelude.{◌≡◌, Some, map, option_map, option_copied, bytes_eq};
ghost use Rattle.std.specs.Map.{lookup};
ghost use Rattle.hq_base.specs.Json.{json_view, member_view};
ghost use Rattle.hq_base.specs.Look.{bool_in, int_in, str_in, array_in, object_in, member_in};

use crate::{Json, Member, Txt};

impl Json {
    /// The truth value, where the value is one.
    pub fn as_bool(&self) -> Option<bool>
        ensures { result ≡ bool_in (json_view self.now) }
    {
        match self {
            Json::Bool(b) => Some(*b),
            _ => None,
        }
    }

    /// The whole number, where the value is one.
    pub fn as_int(&self) -> Option<i128>
        ensures { result ≡ int_in (json_view self.now) }
    {
        match self {
            Json::Int(n) => Some(*n),
            _ => None,
        }
    }

    /// The text, where the value is one.
    pub fn as_txt(&self) -> Option<&Txt>
        ensures { option_copied result ≡ str_in (json_view self.now) }
    {
        match self {
            Json::Str(s) => Some(s),
            _ => None,
        }
    }

    /// The elements, in order, where the value is an array.
    pub fn as_array(&self) -> Option<&[Json]>
        ensures { option_map (λ js. map json_view js.now) result ≡ array_in (json_view self.now) }
    {
        match self {
            Json::Arr(js) => Some(js.as_slice()),
            _ => None,
        }
    }

    /// The members, in order, where the value is an object.
    pub fn as_object(&self) -> Option<&[Member]>
        ensures { option_map (λ ms. map member_view ms.now) result ≡ object_in (json_view self.now) }
    {
        match self {
            Json::Obj(ms) => Some(ms.as_slice()),
            _ => None,
        }
    }

    /// The value of the member of this name, where the value is an object that has it.
    pub fn member(&self, name: &str) -> Option<&Json>
        ensures { option_map (λ j. json_view j.now) result ≡ member_in (json_view self.now) name.now }
    {
        match self.as_object() {
            Some(members) => member_named(members, name),
            None => None,
        }
    }
}

// The value of the first member of this name.
fn member_named<'a>(members: &'a [Member], name: &str) -> Option<&'a Json>
    ensures { option_map (λ j. json_view j.now) result ≡ lookup (λ n. bytes_eq n name.now) (map member_view members.now) }
{
    for member in members {
        if member.name.as_str() == name {
            return Some(&member.value);
        }
    }
    None
}
