//! The variables of a request, each found by its name.
ghost use Rattle.std.specs.Prelude.{◌≡◌, Some, map, option_map, bytes_eq, IfOk};
ghost use Rattle.std.specs.Map.{lookup};
ghost use Rattle.hq_base.specs.Json.{json_view, member_view};
ghost use Rattle.hq_request_coerce.specs.Due.{given_members};
ghost use Rattle.hq_request_coerce.specs.Given.{given_seen};

use hq_base::{Json, Member, Memory, Txt};
use hq_schema::{Named, NamedList};
use std::alloc::Global;

/// A variable of a request.
#[derive(Drop)]
pub struct GivenMember<'a> {
    member: &'a Member,
}

impl Named for GivenMember<'_> {
    ghost name_of = { λ g. g.member.now.name };

    fn name(&self) -> &Txt {
        &self.member.name
    }
}

/// The variables of a request, with an index of their names.
pub type Given<'a> = NamedList<GivenMember<'a>>;

// Each of these members.
fn each_of<'a>(alloc: Global, members: &'a [Member]) -> Result<Vec<GivenMember<'a>>, Memory>
    ensures { IfOk result (λ all. map given_seen all.items ≡ map member_view members.now) }
{
    let mut all = Vec::new(alloc);
    for member in members {
        all.push(GivenMember { member })?;
    }
    Ok(all)
}

// The members of a value, none where it is no object.
fn members_in<'a>(alloc: Global, json: &'a Json) -> Result<Vec<GivenMember<'a>>, Memory>
    ensures { IfOk result (λ all. map given_seen all.items ≡ given_members (Some (json_view json.now))) }
{
    match json.as_object() {
        Some(members) => each_of(alloc, members),
        None => Ok(Vec::new(alloc)),
    }
}

/// The variables of a request, none where it has none.
pub fn given_members<'a>(alloc: Global, given: Option<&'a Json>) -> Result<Given<'a>, Memory>
    ensures { IfOk result (λ all. map given_seen all ≡ given_members (option_map (λ j. json_view j.now) given.entry)) }
{
    let all = match given {
        Some(json) => members_in(alloc, json)?,
        None => Vec::new(alloc),
    };
    NamedList::new(alloc, all)
}

/// What the variable of this name is given, where it is.
pub fn given_value<'a>(given: &Given<'a>, name: &Txt) -> Option<&'a Json>
    ensures { option_map (λ j. json_view j.now) result ≡ lookup (λ n. bytes_eq n name.now) (map given_seen given.now) }
{
    match given.find(name) {
        Some(found) => Some(&found.member.value),
        None => None,
    }
}
