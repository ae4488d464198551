ghost use Rattle.std.specs.Prelude.{◌≡◌, ◌++◌, map, option_map, option_copied, false, IfOk};
ghost use Rattle.hq_base.specs.Due.{Gives};
ghost use Rattle.hq_base.specs.Json.{json_view, member_view};
ghost use Rattle.hq_base.specs.Text.{has_zero};
ghost use Rattle.hq_model.specs.Names.{is_table_name};
ghost use Rattle.hq_load_meta_tables.specs.Configured.{own_name, own_name_due, table_name_at, table_name_due, given_text_due, column_config_at, column_text_at, column_due, member_due, members_due, text_or, column_name_of, column_names_due, root_text_due, root_in, root_due, roots_due};
ghost use Rattle.hq_load_meta_tables.specs.Each.{all_pass};
ghost use Rattle.hq_load_meta_tables.specs.Node.{at, checked, given_value, unless_null, named_value};

use crate::MetaRefusal;
use crate::field::Field;
use crate::found::column_named;
use crate::node::{
    at, free_name_at, given_object, given_value, named_path, named_value, object_at, text_at,
    unless_null,
};
use hq_base::{Json, List, Member, Memory, Txt};
use hq_model::{Column, RootNames, Table, TxtList, is_free_name};
use std::alloc::Global;

// Whether a table may have this name.
fn is_table_name(name: &Txt) -> bool
    ensures { result ≡ is_table_name name.now }
{
    is_free_name(name) && name.as_str() != "_"
}

// A table's name where no other is given.
fn own_name(alloc: Global, table: &Table) -> Result<Txt, Memory>
    ensures { IfOk result (λ name. name ≡ own_name table.now) }
{
    if table.schema.as_str() == "public" {
        return table.name.copy(alloc);
    }
    let mut name = table.schema.copy(alloc)?;
    name.push_str("_")?;
    name.push_txt(&table.name)?;
    Ok(name)
}

// A name at a path must be one that a table may have.
fn check_table_name(alloc: Global, path: &Txt, name: &Txt) -> Result<(), MetaRefusal>
    ensures { Gives (λ done. done) MetaRefusal.Memory (checked path.now (is_table_name name.now)) result }
{
    if is_table_name(name) {
        return Ok(());
    }
    Err(MetaRefusal::Shape {
        path: path.copy(alloc)?,
    })
}

/// A table's own name is tested where no other is given.
pub fn check_own_name(
    alloc: Global,
    path: &Txt,
    custom: Option<&Json>,
    table: &Table,
) -> Result<(), MetaRefusal>
    ensures { Gives (λ done. done) MetaRefusal.Memory (own_name_due path.now (option_map (λ j. json_view j.now) custom.entry) table.now) result }
{
    match custom {
        Some(_) => Ok(()),
        None => check_table_name(alloc, path, &own_name(alloc, table)?),
    }
}

// A table's name that is given at a path.
#[tactic(auto, unfolding(crate::specs::Configured::table_name_at))]
fn table_name_at<'a>(alloc: Global, path: &Txt, json: &'a Json) -> Result<&'a Txt, MetaRefusal>
    ensures { Gives (λ name. name.now) MetaRefusal.Memory (table_name_at path.now (json_view json.now)) result }
{
    let name = text_at(alloc, path, json)?;
    check_table_name(alloc, path, name)?;
    Ok(name)
}

/// The name of a table: the one that is given at a path, else its own.
pub fn table_name(
    alloc: Global,
    path: &Txt,
    custom: Option<&Json>,
    table: &Table,
) -> Result<Txt, MetaRefusal>
    ensures { Gives (λ name. name) MetaRefusal.Memory (table_name_due path.now (option_map (λ j. json_view j.now) custom.entry) table.now) result }
{
    match custom {
        Some(json) => Ok(table_name_at(alloc, path, json)?.copy(alloc)?),
        None => Ok(own_name(alloc, table)?),
    }
}

// A text that may be absent.
fn check_given_text(alloc: Global, path: &Txt, given: Option<&Json>) -> Result<(), MetaRefusal>
    ensures { Gives (λ done. done) MetaRefusal.Memory (given_text_due path.now (option_map (λ j. json_view j.now) given.entry)) result }
{
    if let Some(json) = given {
        text_at(alloc, path, json)?;
    }
    Ok(())
}

// A member of `column_config`, an object at a path, is named for a column.
#[tactic(auto, unfolding(crate::specs::Configured::column_config_at))]
fn check_column_config(
    alloc: Global,
    columns: &[Column],
    path: &Txt,
    name: &Txt,
    json: &Json,
) -> Result<(), MetaRefusal>
    ensures { Gives (λ done. done) MetaRefusal.Memory (column_config_at columns.now path.now name.now (json_view json.now)) result }
{
    let object = object_at(alloc, path, json)?;
    column_named(alloc, columns, path, name)?;
    check_given_text(
        alloc,
        &at(alloc, path, Field::CustomName)?,
        given_value(Some(object), Field::CustomName),
    )
}

// A member of `custom_column_names`, a text at a path, is named for a column.
#[tactic(auto, unfolding(crate::specs::Configured::column_text_at))]
fn check_column_text(
    alloc: Global,
    columns: &[Column],
    path: &Txt,
    name: &Txt,
    json: &Json,
) -> Result<(), MetaRefusal>
    ensures { Gives (λ done. done) MetaRefusal.Memory (column_text_at columns.now path.now name.now (json_view json.now)) result }
{
    text_at(alloc, path, json)?;
    column_named(alloc, columns, path, name)?;
    Ok(())
}

// A member of `column_config`, or of `custom_column_names`, is named for a column.
fn check_column(
    alloc: Global,
    columns: &[Column],
    which: Field,
    path: &Txt,
    name: &Txt,
    json: &Json,
) -> Result<(), MetaRefusal>
    ensures { Gives (λ done. done) MetaRefusal.Memory (column_due which columns.now path.now name.now (json_view json.now)) result }
{
    match which {
        Field::ColumnConfig => check_column_config(alloc, columns, path, name, json),
        _ => check_column_text(alloc, columns, path, name, json),
    }
}

// A member of the object at a path.
fn check_member(
    alloc: Global,
    columns: &[Column],
    which: Field,
    path: &Txt,
    member: &Member,
) -> Result<(), MetaRefusal>
    ensures { Gives (λ done. done) MetaRefusal.Memory (member_due (column_due which columns.now) path.now (member_view member.now).0 (unless_null (member_view member.now).1)) result }
{
    match unless_null(&member.value) {
        Some(json) => {
            let path = named_path(alloc, path, &member.name)?;
            check_column(alloc, columns, which, &path, &member.name, json)
        }
        None => Ok(()),
    }
}

// The members of the object at a path.
fn check_members(
    alloc: Global,
    columns: &[Column],
    which: Field,
    path: &Txt,
    members: &[Member],
) -> Result<(), MetaRefusal>
    ensures { Gives (λ done. done) MetaRefusal.Memory (all_pass (λ m. member_due (column_due which columns.now) path.now m.0 (unless_null m.1)) (map member_view members.now)) result }
{
    for member in members {
        check_member(alloc, columns, which, path, member)?;
    }
    Ok(())
}

// What stands at a path, where it is given.
fn check_named(
    alloc: Global,
    columns: &[Column],
    which: Field,
    path: &Txt,
    given: Option<&Json>,
) -> Result<(), MetaRefusal>
    ensures { Gives (λ done. done) MetaRefusal.Memory (members_due (column_due which columns.now) path.now (option_map (λ j. json_view j.now) given.entry)) result }
{
    let Some(json) = given else {
        return Ok(());
    };
    match json.as_object() {
        Some(members) => check_members(alloc, columns, which, path, members),
        None => Err(MetaRefusal::Shape {
            path: path.copy(alloc)?,
        }),
    }
}

// `column_config` or `custom_column_names` of the configuration at a path.
fn check_columns(
    alloc: Global,
    columns: &[Column],
    which: Field,
    path: &Txt,
    given: Option<&Json>,
) -> Result<(), MetaRefusal>
    ensures { Gives (λ done. done) MetaRefusal.Memory (members_due (column_due which columns.now) (at path.now which) (given_value (option_map (λ j. json_view j.now) given.entry) which)) result }
{
    let named = given_value(given, which);
    check_named(alloc, columns, which, &at(alloc, path, which)?, named)
}

// A text that is given, else the other one.
fn text_or<'a>(given: Option<&'a Json>, other: &'a Txt) -> &'a Txt
    ensures { result.now ≡ text_or (option_map (λ j. json_view j.now) given.entry) other.now }
{
    match given {
        Some(json) => match json.as_txt() {
            Some(text) => text,
            None => other,
        },
        None => other,
    }
}

// The name of a column: the one that its member of `column_config` gives; where it has no such member, its member of
// `custom_column_names`; else its own.
fn column_name<'a>(config: Option<&'a Json>, texts: Option<&'a Json>, column: &'a Column) -> &'a Txt
    ensures { result.now ≡ column_name_of (option_map (λ j. json_view j.now) config.entry) (option_map (λ j. json_view j.now) texts.entry) column.now }
{
    let own = &column.name;
    match named_value(config, own.as_str()) {
        Some(object) => text_or(given_value(Some(object), Field::CustomName), own),
        None => text_or(named_value(texts, own.as_str()), own),
    }
}

// The names of columns, in order.
fn listed_names(
    alloc: Global,
    config: Option<&Json>,
    texts: Option<&Json>,
    columns: &[Column],
) -> Result<TxtList, Memory>
    ensures { IfOk result (λ names. names ≡ map (column_name_of (option_map (λ j. json_view j.now) config.entry) (option_map (λ j. json_view j.now) texts.entry)) columns.now) }
{
    let mut names = List::new(alloc);
    for column in columns {
        names.push(column_name(config, texts, column).copy(alloc)?)?;
    }
    Ok(names)
}

/// The names of a table's columns, in the catalog's order, where the configuration at a path is given.
#[tactic(auto, unfolding(crate::specs::Configured::column_names_due))]
pub fn column_names(
    alloc: Global,
    columns: &[Column],
    path: &Txt,
    given: Option<&Json>,
) -> Result<TxtList, MetaRefusal>
    ensures { Gives (λ names. names) MetaRefusal.Memory (column_names_due columns.now path.now (option_map (λ j. json_view j.now) given.entry)) result }
{
    check_columns(alloc, columns, Field::ColumnConfig, path, given)?;
    check_columns(alloc, columns, Field::CustomColumnNames, path, given)?;
    let config = given_value(given, Field::ColumnConfig);
    let texts = given_value(given, Field::CustomColumnNames);
    Ok(listed_names(alloc, config, texts, columns)?)
}

// The name of a root field, where a text gives it.
fn root_text<'a>(
    alloc: Global,
    path: &Txt,
    given: Option<&'a Json>,
) -> Result<Option<&'a Txt>, MetaRefusal>
    ensures { Gives option_copied MetaRefusal.Memory (root_text_due path.now (option_map (λ j. json_view j.now) given.entry)) result }
{
    match given {
        Some(json) => Ok(Some(free_name_at(alloc, path, json)?)),
        None => Ok(None),
    }
}

// The name of a root field that is given as a text, or as an object with a text `name`.
fn root_in<'a>(
    alloc: Global,
    path: &Txt,
    given: Option<&'a Json>,
) -> Result<Option<&'a Txt>, MetaRefusal>
    ensures { Gives option_copied MetaRefusal.Memory (root_in path.now (option_map (λ j. json_view j.now) given.entry)) result }
{
    let Some(json) = given else {
        return Ok(None);
    };
    if json.as_txt().is_some() {
        return root_text(alloc, path, given);
    }
    let object = object_at(alloc, path, json)?;
    root_text(
        alloc,
        &at(alloc, path, Field::Name)?,
        given_value(Some(object), Field::Name),
    )
}

// The name of a root field that the object at a path gives.
fn given_root<'a>(
    alloc: Global,
    path: &Txt,
    custom: Option<&'a Json>,
    which: Field,
) -> Result<Option<&'a Txt>, MetaRefusal>
    ensures { Gives option_copied MetaRefusal.Memory (root_in (at path.now which) (given_value (option_map (λ j. json_view j.now) custom.entry) which)) result }
{
    root_in(alloc, &at(alloc, path, which)?, given_value(custom, which))
}

// A table's name with an end.
fn ended(alloc: Global, name: &Txt, end: &str) -> Result<Txt, Memory>
    requires { has_zero end.now ≡ false }
    ensures { IfOk result (λ ended. ended ≡ name.now ++ end.now) }
{
    let mut ended = name.copy(alloc)?;
    ended.push_str(end)?;
    Ok(ended)
}

// The name of a root field that the object at a path gives, or else a table's name with an end.
#[tactic(auto, unfolding(crate::specs::Configured::root_due))]
fn root(
    alloc: Global,
    path: &Txt,
    custom: Option<&Json>,
    which: Field,
    name: &Txt,
    end: &str,
) -> Result<Txt, MetaRefusal>
    requires { has_zero end.now ≡ false }
    ensures { Gives (λ name. name) MetaRefusal.Memory (root_due path.now (option_map (λ j. json_view j.now) custom.entry) which name.now end.now) result }
{
    match given_root(alloc, path, custom, which)? {
        Some(given) => Ok(given.copy(alloc)?),
        None => Ok(ended(alloc, name, end)?),
    }
}

/// The names of the root fields of a table of this name, where the object at a path gives some.
#[tactic(auto, unfolding(crate::specs::Configured::roots_due))]
pub fn roots(
    alloc: Global,
    path: &Txt,
    name: &Txt,
    given: Option<&Json>,
) -> Result<RootNames, MetaRefusal>
    ensures { Gives (λ names. names) MetaRefusal.Memory (roots_due path.now name.now (option_map (λ j. json_view j.now) given.entry)) result }
{
    let custom = given_object(alloc, path, given)?;
    let select = root(alloc, path, custom, Field::Select, name, "")?;
    let select_by_pk = root(alloc, path, custom, Field::SelectByPk, name, "_by_pk")?;
    let select_aggregate = root(
        alloc,
        path,
        custom,
        Field::SelectAggregate,
        name,
        "_aggregate",
    )?;
    Ok(RootNames {
        select,
        select_aggregate,
        select_by_pk,
    })
}
