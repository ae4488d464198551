//! The path of what a catalog's refusal tells by its name alone.

use hq_base::{Bytes, Json, Memory, Txt};
use hq_explain_places::Words;
use hq_load_catalog::CatalogRefusal;
use std::alloc::Global;

// A part of a table: a member of it, and what stands in that.
#[derive(Clone, Copy)]
struct Spot {
    table: usize,
    member: &'static str,
    element: Option<usize>,
    behind: &'static str,
}

fn list_in<'a>(object: &'a Json, member: &str) -> &'a [Json] {
    match object.member(member) {
        Some(Json::Arr(list)) => list.as_slice(),
        _ => &[],
    }
}

// Whether a member is this text.
fn is_text(object: &Json, member: &str, text: &Txt) -> bool {
    match object.member(member) {
        Some(Json::Str(found)) => found == text,
        _ => false,
    }
}

// Whether a table has this name, schema and name joined by a point.
fn is_named(table: &Json, full: &Txt) -> bool {
    let (Some(Json::Str(schema)), Some(Json::Str(name))) = (
        table.member("schema"),
        table.member("name"),
    ) else {
        return false;
    };
    match full.as_bytes().strip_prefix(schema.as_bytes()) {
        Some([b'.', rest @ ..]) => rest == name.as_bytes(),
        _ => false,
    }
}

// The place of the element behind so many for which a test holds.
fn among<F: Fn(&Json) -> bool>(list: &[Json], skipped: usize, test: F) -> Option<usize>
    requires { F.IsAlwaysCallable test }
{
    let mut left = skipped;
    for (at, item) in list.iter().enumerate() {
        if test(item) {
            if left == 0 {
                return Some(at);
            }
            left = left.saturating_sub(1);
        }
    }
    None
}

fn whole(table: usize, member: &'static str) -> Spot {
    Spot {
        table,
        member,
        element: None,
        behind: "",
    }
}

// The column of this name of a table, behind so many.
fn column_spot(table: usize, entry: &Json, name: &Txt, skipped: usize) -> Option<Spot> {
    let at = among(list_in(entry, "columns"), skipped, |column| {
        is_text(column, "name", name)
    })?;
    Some(Spot {
        table,
        member: "columns",
        element: Some(at),
        behind: ".name",
    })
}

fn is_string(json: &Json, text: &Txt) -> bool {
    match json {
        Json::Str(found) => found == text,
        _ => false,
    }
}

// The second column of this name in a table's key.
fn key_spot(table: usize, entry: &Json, name: &Txt) -> Option<Spot> {
    let at = among(
        list_in(entry, "primary_key"),
        1,
        |column| is_string(column, name),
    )?;
    Some(Spot {
        table,
        member: "primary_key",
        element: Some(at),
        behind: "",
    })
}

// The second table, or else the second column, of this name.
fn repeated_spot(tables: &[Json], name: &Txt) -> Option<Spot> {
    if let Some(at) = among(tables, 1, |table| is_named(table, name)) {
        return Some(whole(at, "name"));
    }
    for (at, entry) in tables.iter().enumerate() {
        if let Some(spot) = column_spot(at, entry, name, 1) {
            return Some(spot);
        }
        if let Some(spot) = key_spot(at, entry, name) {
            return Some(spot);
        }
    }
    None
}

// The first schema, table or column of this name.
fn name_spot(tables: &[Json], name: &Txt) -> Option<Spot> {
    for (at, entry) in tables.iter().enumerate() {
        if is_text(entry, "schema", name) {
            return Some(whole(at, "schema"));
        }
        if is_text(entry, "name", name) {
            return Some(whole(at, "name"));
        }
        if let Some(spot) = column_spot(at, entry, name, 0) {
            return Some(spot);
        }
    }
    None
}

// The most columns of a table.
const COLUMNS: usize = 200;

fn spot_of(tables: &[Json], refusal: &CatalogRefusal) -> Option<Spot> {
    match refusal {
        CatalogRefusal::Repeated { name } => repeated_spot(tables, name),
        CatalogRefusal::NameLength { name } => name_spot(tables, name),
        CatalogRefusal::NoKey { table } => {
            let at = among(tables, 0, |entry| is_named(entry, table))?;
            Some(whole(at, "primary_key"))
        }
        CatalogRefusal::TooMany { .. } => {
            let at = among(tables, 0, |entry| list_in(entry, "columns").len() > COLUMNS)?;
            Some(whole(at, "columns"))
        }
        _ => None,
    }
}

fn put_spot(words: &mut Words, spot: Spot) {
    words.put("$.tables[");
    words.put_count(spot.table);
    words.put("].");
    words.put(spot.member);
    if let Some(element) = spot.element {
        words.put("[");
        words.put_count(element);
        words.put("]");
    }
    words.put(spot.behind);
}

/// The path of what a refusal of a catalog is of.
pub fn path_of(alloc: Global, json: &Json, refusal: &CatalogRefusal) -> Result<Bytes, Memory> {
    let mut words = Words::new(alloc);
    match (refusal, spot_of(list_in(json, "tables"), refusal)) {
        (CatalogRefusal::Shape { path }, _) => words.put_bytes(path.as_bytes()),
        (_, Some(spot)) => put_spot(&mut words, spot),
        (CatalogRefusal::TooMany { .. }, None) => words.put("$.tables"),
        _ => words.put("$"),
    }
    words.told()
}
