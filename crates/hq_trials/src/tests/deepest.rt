//! The deepest texts of SQL, on the usual stack: a statement opens at most 2,000 parentheses.
use super::store::store;
use hq_answer::Answer;
use hq_base::{Bytes, List, Memory};
use hq_database::{Database, DbRefusal};
use hq_model::Catalog;
use hq_sql_check::well_formed;
use hq_sql_database::SqlDb;
use hq_sql_text::{ReadRefusal, print, read};
use hq_sql_tree::Select;
use itoa::Buffer;
use std::alloc::{AllocError, Global};
use std::test::Fail;

// A text that opens parentheses inside one another: the beginning, what opens one so often, the middle, what closes one so
// often, and the end.
#[derive(Drop)]
struct Nested(
    &'static str,
    &'static str,
    &'static str,
    &'static str,
    &'static str,
);

static KINDS: [Nested; 6] = [
    Nested(
        r#"SELECT TRUE AS "u" FROM "s"."t" AS "e" WHERE "#,
        "(NOT ",
        "TRUE",
        ")",
        " LIMIT 1",
    ),
    Nested(
        r#"SELECT TRUE AS "u" FROM "s"."t" AS "e" WHERE "#,
        "(FALSE OR ",
        "TRUE",
        ")",
        "",
    ),
    Nested(
        r#"SELECT TRUE AS "u" FROM "s"."t" AS "e""#,
        r#" WHERE EXISTS (SELECT TRUE AS "u" FROM "s"."t" AS "e""#,
        "",
        ")",
        "",
    ),
    Nested(
        r#"SELECT TRUE AS "u" FROM "#,
        r#"(SELECT TRUE AS "u" FROM "#,
        r#""s"."t" AS "e""#,
        r#") AS "e""#,
        "",
    ),
    Nested(
        r#"SELECT TRUE AS "u" FROM "s"."t" AS "e""#,
        r#" LEFT JOIN LATERAL (SELECT TRUE AS "u" FROM "s"."t" AS "e""#,
        "",
        r#") AS "j" ON TRUE"#,
        "",
    ),
    Nested(
        "SELECT ",
        "json_build_object('a'::text, ",
        "TRUE",
        ")",
        r#" AS "v" FROM "s"."t" AS "e""#,
    ),
];

fn push_often(out: &mut Vec<u8>, piece: &str, times: u32) -> Result<(), AllocError> {
    for _ in 0..times {
        out.extend_from_slice(piece.as_bytes())?;
    }
    Ok(())
}

fn text_of(alloc: Global, kind: &Nested, times: u32) -> Result<Vec<u8>, AllocError> {
    let mut out = Vec::new(alloc);
    push_often(&mut out, kind.0, 1)?;
    push_often(&mut out, kind.1, times)?;
    push_often(&mut out, kind.2, 1)?;
    push_often(&mut out, kind.3, times)?;
    push_often(&mut out, kind.4, 1)?;
    Ok(out)
}

// The statement of a text, in a box: a statement that lies on the stack is let go variant by variant, at each end of a function.
fn boxed(alloc: Global, text: &[u8]) -> Result<Box<Select>, ReadRefusal> {
    Ok(Box::new(alloc, read(alloc, text)?)?)
}

// What a text is printed as when it was read; empty where it is no SQL.
fn printed(alloc: Global, text: &[u8]) -> Result<Bytes, Memory> {
    match boxed(alloc, text) {
        Ok(select) => print(alloc, &select),
        Err(ReadRefusal::NotSql) => Ok(Bytes::new(alloc)),
        Err(ReadRefusal::Memory) => Err(Memory),
    }
}

fn is_read_back(alloc: Global, kind: &Nested) -> Result<bool, Fail> {
    let text = text_of(alloc, kind, 2000)?;
    Ok(printed(alloc, &text)?.as_slice() == text.as_slice())
}

#[test]
fn two_thousand_parentheses_are_read(rt: HostRuntime) -> Result<(), Fail> {
    for kind in &KINDS {
        assert!(rt; is_read_back(rt.alloc(), kind)?);
    }
    Ok(())
}

fn is_refused(alloc: Global, kind: &Nested) -> Result<bool, Fail> {
    let text = text_of(alloc, kind, 2001)?;
    Ok(printed(alloc, &text)?.len() == 0)
}

#[test]
fn one_more_is_refused(rt: HostRuntime) -> Result<(), Fail> {
    for kind in &KINDS {
        assert!(rt; is_refused(rt.alloc(), kind)?);
    }
    Ok(())
}

static NEGATED: Nested = Nested(
    r#"SELECT json_build_object('u'::text, "j1"."v") AS "v" FROM (SELECT TRUE AS "u") AS "t0" LEFT JOIN LATERAL (SELECT "t1"."u" AS "v" FROM (SELECT TRUE AS "u") AS "t1" WHERE "#,
    "(NOT ",
    "TRUE",
    ")",
    r#") AS "j1" ON TRUE"#,
);

fn is_well(alloc: Global, text: &[u8]) -> Result<bool, Fail> {
    let select = boxed(alloc, text)?;
    let catalog = Catalog {
        tables: List::new(alloc),
    };
    Ok(well_formed(alloc, &select, &catalog)?)
}

#[test]
fn the_deepest_statement_is_well_formed(rt: HostRuntime) -> Result<(), Fail> {
    let text = text_of(rt.alloc(), &NEGATED, 1999)?;
    assert!(rt; is_well(rt.alloc(), &text)?);
    Ok(())
}

// Statements whose value is true at each depth, each select with an alias of its own: a join that is named in an output, in WHERE
// once and twice, and in ORDER BY once and twice; EXISTS; and a select in FROM. The number of the depth stands for `#`.
static EVALUATED: [(&str, &str); 7] = [
    (
        r#"SELECT "j#"."v" AS "v" FROM (SELECT TRUE AS "u") AS "t#" LEFT JOIN LATERAL ("#,
        r#") AS "j#" ON TRUE"#,
    ),
    (
        r#"SELECT TRUE AS "v" FROM (SELECT TRUE AS "u") AS "t#" LEFT JOIN LATERAL ("#,
        r#") AS "j#" ON TRUE WHERE ("j#"."v" = TRUE)"#,
    ),
    (
        r#"SELECT TRUE AS "v" FROM (SELECT TRUE AS "u") AS "t#" LEFT JOIN LATERAL ("#,
        r#") AS "j#" ON TRUE WHERE ("j#"."v" = "j#"."v")"#,
    ),
    (
        r#"SELECT TRUE AS "v" FROM (SELECT TRUE AS "u") AS "t#" LEFT JOIN LATERAL ("#,
        r#") AS "j#" ON TRUE ORDER BY "j#"."v" ASC NULLS LAST"#,
    ),
    (
        r#"SELECT "j#"."v" AS "v" FROM (SELECT TRUE AS "u") AS "t#" LEFT JOIN LATERAL ("#,
        r#") AS "j#" ON TRUE ORDER BY "j#"."v" ASC NULLS LAST"#,
    ),
    (
        r#"SELECT TRUE AS "v" FROM "public"."author" AS "t#" WHERE EXISTS ("#,
        ")",
    ),
    (r#"SELECT "t#"."v" AS "v" FROM ("#, r#") AS "t#""#),
];

const START: &str =
    r#"SELECT json_build_object('v'::text, "j"."v") AS "v" FROM (SELECT TRUE AS "u") AS "t" LEFT JOIN LATERAL (SELECT "s"."v" AS "v" FROM ("#;

const MIDDLE: &str = r#"SELECT TRUE AS "v" FROM (SELECT TRUE AS "u") AS "i""#;

const END: &str = r#") AS "s" LIMIT 1) AS "j" ON TRUE"#;

// A statement that opens 1,700 parentheses, three of them in its beginning and its middle: a test's frames are larger than those of a
// built program, which has room for 2,000.
const DEPTH: u32 = 1697;

fn push_number(out: &mut Vec<u8>, number: u32) -> Result<(), AllocError> {
    let mut buffer = Buffer::new();
    out.extend_from_slice(buffer.format(number).as_bytes())
}

fn push_numbered(out: &mut Vec<u8>, piece: &str, number: u32) -> Result<(), AllocError> {
    for byte in piece.as_bytes() {
        if *byte == b'#' {
            push_number(out, number)?;
        } else {
            out.push(*byte)?;
        }
    }
    Ok(())
}

fn push_fronts(out: &mut Vec<u8>, front: &str) -> Result<(), AllocError> {
    for number in 0..DEPTH {
        push_numbered(out, front, number)?;
    }
    Ok(())
}

fn push_backs(out: &mut Vec<u8>, back: &str) -> Result<(), AllocError> {
    for number in 0..DEPTH {
        push_numbered(out, back, DEPTH - 1 - number)?;
    }
    Ok(())
}

fn statement(
    alloc: Global,
    front: &'static str,
    back: &'static str,
) -> Result<Vec<u8>, AllocError> {
    let mut out = Vec::new(alloc);
    push_often(&mut out, START, 1)?;
    push_fronts(&mut out, front)?;
    push_often(&mut out, MIDDLE, 1)?;
    push_backs(&mut out, back)?;
    push_often(&mut out, END, 1)?;
    Ok(out)
}

fn answered(alloc: Global, text: &[u8]) -> Result<Answer, DbRefusal> {
    let mut database = SqlDb::new(store(alloc)?);
    database.run(alloc, text)
}

// Adds the JSON that a statement is answered with.
fn push_answer(alloc: Global, text: &[u8], out: &mut Bytes) -> Result<(), Memory> {
    match answered(alloc, text) {
        Ok(answer) => answer.write_to(out),
        Err(DbRefusal::Memory) => Err(Memory),
        Err(_) => out.append(b"refused"),
    }
}

fn is_evaluated(alloc: Global, front: &'static str, back: &'static str) -> Result<bool, Fail> {
    let text = statement(alloc, front, back)?;
    let mut out = Bytes::new(alloc);
    push_answer(alloc, &text, &mut out)?;
    Ok(out.as_slice() == br#"{"v":true}"#.as_slice())
}

#[test]
fn the_deepest_statements_are_evaluated(rt: HostRuntime) -> Result<(), Fail> {
    for (front, back) in &EVALUATED {
        assert!(rt; is_evaluated(rt.alloc(), front, back)?);
    }
    Ok(())
}
