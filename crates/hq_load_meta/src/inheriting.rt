ghost use Rattle.std.specs.Prelude.{◌≡◌, [], map, position, option_map, option_and_then, bytes_eq, IfOk};
ghost use Rattle.std.specs.List.{list_any};
ghost use Rattle.hq_base.specs.Due.{Gives};
ghost use Rattle.hq_base.specs.Json.{json_view};
ghost use Rattle.hq_base.specs.Look.{str_in};
ghost use Rattle.hq_base.specs.Path.{top_path};
ghost use Rattle.hq_model.specs.Names.{is_admin_name};
ghost use Rattle.hq_load_meta_tables.specs.declared.field.Field.TheVariants as field;
ghost use Rattle.hq_load_meta_tables.specs.Each.{each, each_after};
ghost use Rattle.hq_load_meta_tables.specs.Node.{at, text_at, value_of};
ghost use Rattle.hq_load_meta_tables.specs.Top.{is_empty};
ghost use Rattle.hq_load_meta.specs.Inheriting.{is_named, is_entered, inherited_form, unless_at, plain_names, own_roles, new_role, inherited_at, inherited_due};

use hq_base::{Json, List, Memory, Txt, item_path, top_path};
use hq_load_meta_tables::MetaRefusal;
use hq_load_meta_tables::field::Field;
use hq_load_meta_tables::node::{at, list_member, object_at, text_at, text_member};
use hq_model::{Inherited, InheritedList, TxtList};
use std::alloc::Global;

// The name that an entry gives its role.
fn given_name(entry: &Json) -> Option<&Txt>
    ensures { option_map (λ name. name.now) result ≡ option_and_then str_in (value_of (json_view entry.now) field.RoleName) }
{
    match entry.member(Field::RoleName.name()) {
        Some(json) => json.as_txt(),
        None => None,
    }
}

// An entry is for a role of this name.
fn is_for(entry: &Json, name: &Txt) -> bool
    ensures { result ≡ is_named name.now (option_and_then str_in (value_of (json_view entry.now) field.RoleName)) }
{
    match given_name(entry) {
        Some(given) => *given == *name,
        None => false,
    }
}

// Some entry of the file is for a role of this name.
fn is_entered(entries: &[Json], name: &Txt) -> bool
    ensures { result ≡ is_entered (map json_view entries.now) name.now }
{
    for entry in entries {
        if is_for(entry, name) {
            return true;
        }
    }
    false
}

fn is_admin(name: &Txt) -> bool
    ensures { result ≡ is_admin_name name.now }
{
    name.as_str() == "admin"
}

fn name_at(alloc: Global, path: &Txt, json: &Json) -> Result<Txt, MetaRefusal>
    ensures { Gives (λ name. name) MetaRefusal.Memory (text_at path.now (json_view json.now)) result }
{
    Ok(text_at(alloc, path, json)?.copy(alloc)?)
}

// The names that the elements of the list at a path are.
fn listed_names(alloc: Global, path: &Txt, list: &[Json]) -> Result<TxtList, MetaRefusal>
    ensures { Gives (λ names. names) MetaRefusal.Memory (each text_at path.now (map json_view list.now)) result }
{
    let mut names = List::new(alloc);
    for (place, json) in list.iter().enumerate() {
        let path = item_path(alloc, path, place)?;
        let name = name_at(alloc, &path, json)?;
        names.push(name)?;
    }
    Ok(names)
}

// The form of an entry: the name of a role, and a list of names.
#[tactic(auto, unfolding(crate::specs::Inheriting::inherited_form))]
fn inherited_form(alloc: Global, path: &Txt, json: &Json) -> Result<Inherited, MetaRefusal>
    ensures { Gives (λ i. i) MetaRefusal.Memory (inherited_form path.now (json_view json.now)) result }
{
    let object = object_at(alloc, path, json)?;
    let role = text_member(alloc, path, object, Field::RoleName)?;
    let list = list_member(alloc, path, object, Field::RoleSet)?;
    let set = listed_names(alloc, &at(alloc, path, Field::RoleSet)?, list)?;
    Ok(Inherited {
        role: role.copy(alloc)?,
        set,
    })
}

// An element of the list at a path is refused.
fn check_none(alloc: Global, path: &Txt, place: Option<usize>) -> Result<(), MetaRefusal>
    ensures { Gives (λ done. done) MetaRefusal.Memory (unless_at path.now place) result }
{
    match place {
        Some(place) => Err(MetaRefusal::Shape {
            path: item_path(alloc, path, place)?,
        }),
        None => Ok(()),
    }
}

// The first of these names that is admin's.
fn admin_place(names: &[Txt]) -> Option<usize>
    ensures { result ≡ position is_admin_name names.now }
{
    names.iter().position(|name| is_admin(name))
}

// The first of these names that some entry is for.
fn entered_place(entries: &[Json], names: &[Txt]) -> Option<usize>
    ensures { result ≡ position (is_entered (map json_view entries.now)) names.now }
{
    names.iter().position(|name| is_entered(entries, name))
}

fn is_empty(names: &[Txt]) -> bool
    ensures { result ≡ is_empty names.now }
{
    matches!(names, [])
}

// No name is that of admin.
fn check_plain(alloc: Global, path: &Txt, entry: &Inherited) -> Result<(), MetaRefusal>
    ensures { Gives (λ done. done) MetaRefusal.Memory (plain_names path.now entry.now) result }
{
    if is_admin(&entry.role) {
        return Err(MetaRefusal::Shape {
            path: at(alloc, path, Field::RoleName)?,
        });
    }
    let place = admin_place(entry.set.as_slice());
    check_none(alloc, &at(alloc, path, Field::RoleSet)?, place)
}

// The set has a role at least, none of which is inherited itself.
fn check_set(
    alloc: Global,
    entries: &[Json],
    path: &Txt,
    entry: &Inherited,
) -> Result<(), MetaRefusal>
    ensures { Gives (λ done. done) MetaRefusal.Memory (own_roles (map json_view entries.now) path.now entry.now) result }
{
    let path = at(alloc, path, Field::RoleSet)?;
    if is_empty(entry.set.as_slice()) {
        return Err(MetaRefusal::Shape { path });
    }
    let place = entered_place(entries, entry.set.as_slice());
    check_none(alloc, &path, place)
}

// Whether one of these is of this name.
fn has_role(inherited: &[Inherited], role: &Txt) -> bool
    ensures { result ≡ list_any (λ i. bytes_eq i.role role.now) inherited.now }
{
    inherited.iter().any(|one| one.role == *role)
}

// The role is none of those before it.
fn check_new(alloc: Global, before: &[Inherited], path: &Txt, role: &Txt) -> Result<(), MetaRefusal>
    ensures { Gives (λ done. done) MetaRefusal.Memory (new_role before.now path.now role.now) result }
{
    if has_role(before, role) {
        return Err(MetaRefusal::RepeatedRole {
            path: path.copy(alloc)?,
        });
    }
    Ok(())
}

// The inherited role that the entry at a path gives, behind those before it.
#[tactic(auto, unfolding(crate::specs::Inheriting::inherited_at))]
fn inherited_at(
    alloc: Global,
    entries: &[Json],
    before: &[Inherited],
    path: &Txt,
    json: &Json,
) -> Result<Inherited, MetaRefusal>
    ensures { Gives (λ i. i) MetaRefusal.Memory (inherited_at (map json_view entries.now) before.now path.now (json_view json.now)) result }
{
    let entry = inherited_form(alloc, path, json)?;
    check_plain(alloc, path, &entry)?;
    check_set(alloc, entries, path, &entry)?;
    let named = at(alloc, path, Field::RoleName)?;
    check_new(alloc, before, &named, &entry.role)?;
    Ok(entry)
}

// The inherited roles that the entries of the list at a path give.
fn listed_inherited(
    alloc: Global,
    path: &Txt,
    entries: &[Json],
) -> Result<InheritedList, MetaRefusal>
    ensures { let js = map json_view entries.now in Gives (λ is. is) MetaRefusal.Memory (each_after (inherited_at js) path.now 0 [] js) result }
{
    let mut inherited = List::new(alloc);
    for (place, json) in entries.iter().enumerate() {
        let path = item_path(alloc, path, place)?;
        let one = inherited_at(alloc, entries, inherited.as_slice(), &path, json)?;
        inherited.push(one)?;
    }
    Ok(inherited)
}

fn roles_path(alloc: Global) -> Result<Txt, Memory>
    ensures { IfOk result (λ path. path ≡ at top_path field.InheritedRoles) }
{
    let top = top_path(alloc)?;
    at(alloc, &top, Field::InheritedRoles)
}

/// The inherited roles that the entries give, in order.
#[tactic(auto, unfolding(crate::specs::Inheriting::inherited_due))]
pub fn inherited_roles(alloc: Global, entries: &[Json]) -> Result<InheritedList, MetaRefusal>
    ensures { Gives (λ is. is) MetaRefusal.Memory (inherited_due (map json_view entries.now)) result }
{
    listed_inherited(alloc, &roles_path(alloc)?, entries)
}
