//! A refused metadata in words.

use crate::known::{
    compares_columns, has_column, is_operator, put_columns, put_foreign_keys, put_operators,
    put_table, put_tables, text_of,
};
use crate::node::{Node, put_written_table};
use crate::path::{behind, has, has_connectives_alone, is_element, last_name, parent};
use hq_base::{Bytes, Json, JsonRefusal, Memory};
use hq_explain_places::{Words, put_not_json};
use hq_load_meta_tables::MetaRefusal;
use hq_model::{Catalog, Table, table_place};
use std::alloc::Global;

// The text of a member, or another one.
fn text_or<'a>(object: &'a Json, member: &str, other: &'static str) -> &'a str {
    match object.member(member) {
        Some(Json::Str(text)) => text.as_str(),
        _ => other,
    }
}

// The table of the catalog that an entry tracks.
fn tracked<'a>(catalog: &'a Catalog, node: &Node<'_>) -> Option<&'a Table> {
    let table = node.table_entry()?.member("table")?;
    let tables = catalog.tables.as_slice();
    let at = match table {
        Json::Str(name) => table_place(tables, "public", name.as_str()),
        table => table_place(
            tables,
            text_or(table, "schema", ""),
            text_or(table, "name", ""),
        ),
    };
    tables.get(at?)
}

// What an element of a member of this name is to be.
static ELEMENTS: [(&str, &str); 11] = [
    ("sources", "a list of one source"),
    ("tables", "an object with a member \"table\""),
    ("columns", "the name of a column"),
    ("foreign_key_constraint_on", "the name of a column"),
    (
        "object_relationships",
        "an object with \"name\" and \"using\"",
    ),
    (
        "array_relationships",
        "an object with \"name\" and \"using\"",
    ),
    (
        "select_permissions",
        "an object with \"role\" and \"permission\"",
    ),
    (
        "role_set",
        "the name of a role that is neither \"admin\" nor inherited",
    ),
    (
        "inherited_roles",
        "an object with \"role_name\" and \"role_set\"",
    ),
    ("_and", "a filter: an object"),
    ("_or", "a filter: an object"),
];

const NAME: &str =
    "a name of GraphQL: letters, digits and _, not a digit first, and not __ in front";

const NONE: &str = "none: hq would answer otherwise than Hasura";

// What a member of this name is to be.
static MEMBERS: [(&str, &str); 35] = [
    (
        "$",
        "an object with \"version\", and \"sources\" or \"tables\"",
    ),
    ("sources", "a list of one source"),
    ("kind", "\"postgres\""),
    ("tables", "a list of tables"),
    ("table", "a text, or {\"schema\": .., \"name\": ..}"),
    ("remote_table", "a text, or {\"schema\": .., \"name\": ..}"),
    ("columns", "a list of columns, or \"*\""),
    ("filter", "an object"),
    ("limit", "a whole number, not negative"),
    ("allow_aggregations", "true or false"),
    ("role", "the name of a role, not \"admin\""),
    ("permission", "an object with \"columns\" and \"filter\""),
    (
        "using",
        "either \"foreign_key_constraint_on\" or \"manual_configuration\"",
    ),
    (
        "foreign_key_constraint_on",
        "a column, a list of columns, or a table with its columns",
    ),
    (
        "column_mapping",
        "an object of columns, each with a column of the other table",
    ),
    ("object_relationships", "a list"),
    ("array_relationships", "a list"),
    ("select_permissions", "a list"),
    ("inherited_roles", "a list"),
    ("role_name", "the name of a role, not \"admin\""),
    ("role_set", "a list of roles, at least one"),
    ("customization", NONE),
    ("query_root_fields", NONE),
    ("subscription_root_fields", NONE),
    ("_and", "a list of filters"),
    ("_or", "a list of filters"),
    ("_not", "a filter: an object"),
    ("_where", "a filter: an object"),
    ("_exists", "an object with \"_table\" and \"_where\""),
    (
        "_table",
        "a tracked table: a text, or {\"schema\": .., \"name\": ..}",
    ),
    ("name", NAME),
    ("custom_name", NAME),
    ("select", NAME),
    ("select_by_pk", NAME),
    ("select_aggregate", NAME),
];

fn expected(name: &[u8], element: bool) -> &'static str {
    let text = if element {
        text_of(&ELEMENTS, name)
    } else {
        text_of(&MEMBERS, name)
    };
    if compares_columns(name) {
        "the name of another column of the table"
    } else {
        text.unwrap_or("another form")
    }
}

// Adds the table, the role or relationship, and the path of a node.
fn put_path(words: &mut Words, node: &Node<'_>) {
    words.put("  = at ");
    words.put_bytes(node.path);
    if let Some(entry) = node.table_entry()
        && let Some(table) = entry.member("table")
    {
        words.put(", of table ");
        put_written_table(words, table);
    }
    if let Some(role) = node.role() {
        words.put(", role ");
        words.put_shown(role.as_bytes());
    }
    if let Some(name) = node.relationship() {
        words.put(", relationship ");
        words.put_shown(name.as_bytes());
    }
    words.put("\n");
}

// Adds the columns of the table that an entry tracks, where the node is of that table itself.
fn put_known_columns(words: &mut Words, node: &Node<'_>, catalog: &Catalog) {
    if let Some(table) = tracked(catalog, node)
        && is_of_own_table(node)
    {
        words.put("; ");
        put_table(words, table);
        words.put(" has: ");
        put_columns(words, table);
    }
}

// The parts of a relationship that name columns of the other table.
const REMOTE: [&str; 3] = [
    ".foreign_key_constraint_on.column",
    ".remote_table",
    ".column_mapping.",
];

fn is_remote(path: &[u8]) -> bool {
    REMOTE.iter().any(|part| has(path, part.as_bytes()))
}

// Whether a node is of the table itself: no relationship and no `_exists` stands between a permission's filter and it.
fn is_of_own_table(node: &Node<'_>) -> bool {
    match behind(node.path, b".filter") {
        Some(inside) => has_connectives_alone(condition(inside)),
        None => !is_remote(node.path),
    }
}

// What stands before the name of a column in a path.
fn condition(path: &[u8]) -> &[u8] {
    if compares_columns(last_name(path)) {
        parent(parent(path))
    } else {
        parent(path)
    }
}

// Whether a node that names no column does so by its own name, and not by its value: as a member of a filter, of the custom names, or
// of a mapping where the table lacks it.
fn is_named_by_name(node: &Node<'_>, catalog: &Catalog) -> bool {
    if has(node.path, b".column_mapping.") {
        return match tracked(catalog, node) {
            Some(table) => !has_column(table, node.name()),
            None => false,
        };
    }
    if has(node.path, b".filter.") {
        return !compares_columns(node.name());
    }
    has(node.path, b".custom_column_names.") || has(node.path, b".column_config.")
}

// Adds the name of a column that is unknown.
fn put_column_name(words: &mut Words, node: &Node<'_>, catalog: &Catalog) {
    match node.value() {
        Some([b'"', name @ .., b'"']) if !is_named_by_name(node, catalog) => words.put_quoted(name),
        _ => words.put_quoted(node.name()),
    }
}

fn unknown_column(words: &mut Words, node: &Node<'_>, catalog: &Catalog) {
    words.put("no column ");
    put_column_name(words, node, catalog);
    put_known_columns(words, node, catalog);
}

fn unknown_table(words: &mut Words, node: &Node<'_>, catalog: &Catalog) {
    words.put("the catalog has no table ");
    node.put_value(words);
    words.put(", or it is not tracked; the catalog has: ");
    put_tables(words, catalog);
}

// Whether an object stands at a node.
fn is_object(node: &Node<'_>) -> bool {
    matches!(node.value(), Some([b'{', ..]))
}

fn no_foreign_key(words: &mut Words, node: &Node<'_>, catalog: &Catalog) {
    words.put("no foreign key ");
    node.put_value(words);
    if let Some(table) = tracked(catalog, node)
        && !is_object(node)
    {
        words.put("; ");
        put_table(words, table);
        words.put(" has: ");
        put_foreign_keys(words, catalog, table);
    }
}

fn repeated_role(words: &mut Words, node: &Node<'_>) {
    words.put("role ");
    node.put_value(words);
    words.put(if node.name() == b"role_name".as_slice() {
        " is inherited already"
    } else {
        " has a permission on this table already"
    });
}

fn bad_operand(words: &mut Words, node: &Node<'_>) {
    let name = node.name();
    if compares_columns(name) {
        words.put("a column of another type is no operand of ");
        words.put_quoted(name);
        words.put(": ");
        node.put_value(words);
        return;
    }
    if !name.starts_with(b"_") || is_operator(name) {
        node.put_value(words);
        words.put(" is no operand of ");
        words.put_quoted(name);
        words.put(" for a column of this type");
        return;
    }
    words.put("no operator ");
    words.put_quoted(name);
    words.put("; there are: ");
    put_operators(words);
}

fn bad_shape(words: &mut Words, node: &Node<'_>) {
    if parent(node.path).ends_with(b"._exists") && node.name().first() != Some(&b'_') {
        words.put("no member ");
        words.put_quoted(node.name());
        words.put(" of \"_exists\"; it has: _table, _where");
        return;
    }
    words.put("expected ");
    words.put(expected(node.name(), is_element(node.path)));
    words.put("; found ");
    node.put_value(words);
}

// What is wrong with a node.
fn put_refusal(words: &mut Words, node: &Node<'_>, catalog: &Catalog, refusal: &MetaRefusal) {
    match refusal {
        MetaRefusal::UnknownTable { .. } => unknown_table(words, node, catalog),
        MetaRefusal::UnknownColumn { .. } => unknown_column(words, node, catalog),
        MetaRefusal::NoForeignKey { .. } => no_foreign_key(words, node, catalog),
        MetaRefusal::BadOperand { .. } => bad_operand(words, node),
        MetaRefusal::BadMapping { .. } => {
            words.put(
                "a mapping has columns whose values can be compared, and at least one pair; found ",
            );
            node.put_value(words);
        }
        MetaRefusal::RepeatedName { .. } => {
            words.put("the name ");
            node.put_value(words);
            words.put(" stands in the schema already");
        }
        MetaRefusal::RepeatedRole { .. } => repeated_role(words, node),
        MetaRefusal::Version { .. } => {
            words.put("expected version 2 or 3; found ");
            node.put_value(words);
        }
        MetaRefusal::Sources { count } => {
            words.put("expected one source; found ");
            words.put_number(*count);
        }
        _ => bad_shape(words, node),
    }
}

// Whether what is read stands in a wrapper.
fn is_wrapped(json: &Json) -> bool {
    match (json.member("version"), json.member("metadata")) {
        (None, Some(metadata)) => metadata.as_object().is_some(),
        _ => false,
    }
}

fn of_node(
    words: &mut Words,
    text: &[u8],
    json: &Json,
    path: &[u8],
    catalog: &Catalog,
    refusal: &MetaRefusal,
) {
    let node = Node {
        text,
        json,
        wrapped: is_wrapped(json),
        path,
    };
    node.put_place(words);
    put_refusal(words, &node, catalog, refusal);
    words.put("\n");
    node.put_excerpt(words);
    put_path(words, &node);
}

// The path of the node that is refused.
fn path_of(refusal: &MetaRefusal) -> &[u8] {
    match refusal {
        MetaRefusal::Shape { path }
        | MetaRefusal::UnknownTable { path }
        | MetaRefusal::UnknownColumn { path }
        | MetaRefusal::NoForeignKey { path }
        | MetaRefusal::BadOperand { path }
        | MetaRefusal::BadMapping { path }
        | MetaRefusal::RepeatedName { path }
        | MetaRefusal::RepeatedRole { path } => path.as_bytes(),
        MetaRefusal::Version { .. } => b"$.version",
        MetaRefusal::Sources { .. } => b"$.sources",
        MetaRefusal::NotJson | MetaRefusal::Memory => b"$",
    }
}

/// Why the text of a metadata over a catalog is refused, and where.
pub fn metadata_words(
    alloc: Global,
    text: &[u8],
    catalog: &Catalog,
    refusal: &MetaRefusal,
) -> Result<Bytes, Memory> {
    let mut words = Words::new(alloc);
    words.put("metadata.json:");
    match Json::from_body(alloc, text) {
        Ok(json) => of_node(&mut words, text, &json, path_of(refusal), catalog, refusal),
        Err(JsonRefusal::Memory) => return Err(Memory),
        Err(_) => put_not_json(alloc, &mut words, text),
    }
    words.told()
}
