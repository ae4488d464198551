//! Texts of SQL: read and printed again, well-formed or not, and the tables that they scan.

use hq_cases_file::{Case, Stop, Words, given_catalog, push_bytes};
use hq_model::Table;
use hq_sql_check::{scanned, well_formed};
use hq_sql_text::{ReadRefusal, print, read};
use hq_sql_tree::Select;
use std::alloc::Global;

// The statement that a case writes, if it is one. In a box, which is let go at little cost where a later step fails.
fn statement(alloc: Global, case: &Case) -> Result<Option<Box<Select>>, Stop> {
    match read(alloc, case.bytes(alloc, "in")?.as_slice()) {
        Ok(select) => Ok(Some(Box::new(alloc, select)?)),
        Err(ReadRefusal::NotSql) => Ok(None),
        Err(ReadRefusal::Memory) => Err(Stop::Memory),
    }
}

// `read` where what was read is printed as it stood, and else what is printed.
fn push_compared(alloc: Global, printed: &[u8], text: &[u8], words: &mut Words) {
    if printed == text {
        words.push("read");
    } else {
        push_bytes(alloc, printed, words);
    }
}

fn push_printed(
    alloc: Global,
    case: &Case,
    select: &Select,
    words: &mut Words,
) -> Result<(), Stop> {
    let printed = print(alloc, select)?;
    let text = case.bytes(alloc, "in")?;
    push_compared(alloc, printed.as_slice(), text.as_slice(), words);
    Ok(())
}

fn push_well_formed(
    alloc: Global,
    case: &Case,
    select: &Select,
    words: &mut Words,
) -> Result<(), Stop> {
    let catalog = given_catalog(alloc, case)?;
    let well = well_formed(alloc, select, &catalog)?;
    words.push_shown(&well);
    Ok(())
}

fn push_marked(tables: &[Table], marks: &[bool], words: &mut Words) {
    for (table, marked) in tables.iter().zip(marks) {
        if *marked {
            words.push_pair(" ", table.schema.as_str());
            words.push_pair(".", table.name.as_str());
        }
    }
}

fn push_scans(alloc: Global, case: &Case, select: &Select, words: &mut Words) -> Result<(), Stop> {
    let catalog = given_catalog(alloc, case)?;
    let marks = scanned(alloc, select, catalog.tables.as_slice())?;
    push_marked(catalog.tables.as_slice(), &marks, words);
    Ok(())
}

/// What is told of a statement.
#[derive(Clone, Copy)]
pub enum Look {
    /// How it is printed.
    Printed,
    /// Whether it is well-formed for the catalog.
    WellFormed,
    /// The tables of the catalog that it takes rows from.
    Scans,
}

fn push_look(
    alloc: Global,
    look: Look,
    case: &Case,
    select: &Select,
    words: &mut Words,
) -> Result<(), Stop> {
    match look {
        Look::Printed => push_printed(alloc, case, select, words),
        Look::WellFormed => push_well_formed(alloc, case, select, words),
        Look::Scans => push_scans(alloc, case, select, words),
    }
}

/// What is told of a text of SQL; or that it is none.
pub fn tell(alloc: Global, look: Look, case: &Case, words: &mut Words) -> Result<(), Stop> {
    match statement(alloc, case)? {
        Some(select) => push_look(alloc, look, case, &select, words)?,
        None => words.push("NotSql"),
    }
    Ok(())
}
