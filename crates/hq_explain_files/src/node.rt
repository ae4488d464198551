//! A node of a JSON file: its place, its text, and the table that it is of.

use crate::path::{last_name, number_behind};
use hq_base::{Json, Txt};
use hq_explain_places::{Found, Words, find, piece, place_of, put_excerpt, value_at};

/// A JSON file, and the path of a node in it.
#[derive(Clone, Copy)]
pub struct Node<'a> {
    pub text: &'a [u8],
    pub json: &'a Json,
    /// Whether what the path begins in stands in a wrapper.
    pub wrapped: bool,
    pub path: &'a [u8],
}

// The element of this number of a list.
fn element(list: Option<&Json>, number: usize) -> Option<&Json> {
    list?.as_array()?.get(number)
}

impl<'a> Node<'a> {
    // The text in which the path is looked for: what stands in the wrapper, where there is one.
    fn inner(&self) -> (usize, &'a [u8]) {
        if self.wrapped {
            let start = find(self.text, b"$.metadata").at;
            (start, piece(self.text, start, self.text.len()))
        } else {
            (0, self.text)
        }
    }

    /// The place of the node, or of the one that it is missing in.
    pub fn found(&self) -> Found<'a> {
        let (start, text) = self.inner();
        let found = find(text, self.path);
        Found {
            at: found.at.saturating_add(start),
            missing: found.missing,
        }
    }

    /// The text of the node, None where it is missing.
    pub fn value(&self) -> Option<&'a [u8]> {
        let found = self.found();
        if found.missing.is_empty() {
            Some(value_at(self.text, found.at))
        } else {
            None
        }
    }

    // The value in which paths begin.
    fn top(&self) -> Option<&'a Json> {
        if self.wrapped {
            self.json.member("metadata")
        } else {
            Some(self.json)
        }
    }

    // The list of tables.
    fn tables(&self) -> Option<&'a Json> {
        let top = self.top()?;
        match top.member("tables") {
            Some(tables) => Some(tables),
            None => element(top.member("sources"), 0)?.member("tables"),
        }
    }

    /// The entry of the table that the node is of.
    pub fn table_entry(&self) -> Option<&'a Json> {
        let number = number_behind(self.path, b".tables[")?;
        element(self.tables(), number)
    }

    /// The role of the permission that the node is of.
    pub fn role(&self) -> Option<&'a Txt> {
        let number = number_behind(self.path, b".select_permissions[")?;
        let permissions = self.table_entry()?.member("select_permissions");
        element(permissions, number)?.member("role")?.as_txt()
    }

    /// The relationship that the node is of.
    pub fn relationship(&self) -> Option<&'a Txt> {
        let (name, number) = match number_behind(self.path, b".object_relationships[") {
            Some(number) => ("object_relationships", number),
            None => (
                "array_relationships",
                number_behind(self.path, b".array_relationships[")?,
            ),
        };
        let relationships = self.table_entry()?.member(name);
        element(relationships, number)?.member("name")?.as_txt()
    }

    /// Adds the line and column of the node.
    pub fn put_place(&self, words: &mut Words) {
        words.put_place(place_of(self.text, self.found().at));
        words.put(": ");
    }

    /// Adds what stands there, or that it is missing.
    pub fn put_value(&self, words: &mut Words) {
        match self.value() {
            Some(value) => words.put_shown(value),
            None => words.put("nothing"),
        }
    }

    /// Adds the line of the node.
    pub fn put_excerpt(&self, words: &mut Words) {
        put_excerpt(words, self.text, self.found().at);
    }

    /// The name of the node.
    pub fn name(&self) -> &'a [u8] {
        last_name(self.path)
    }
}

/// Adds the name of a table, as a file writes it: a text, or an object of a schema and a name.
pub fn put_written_table(words: &mut Words, table: &Json) {
    match table {
        Json::Str(name) => words.put_shown(name.as_bytes()),
        table => {
            if let Some(Json::Str(schema)) = table.member("schema") {
                words.put_shown(schema.as_bytes());
                words.put(".");
            }
            if let Some(Json::Str(name)) = table.member("name") {
                words.put_shown(name.as_bytes());
            }
        }
    }
}
