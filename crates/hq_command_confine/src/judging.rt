//! What is said of a text: the line of a verdict, or of why there is none.
ghost use Rattle.std.specs.Prelude.{◌≡◌, IfOk, IfSome, IfNone};
ghost use Rattle.hq_sql_text.specs.Readable.{Spells};
ghost use Rattle.hq_sql_tree.specs.Tree.{SelectTree};
ghost use Rattle.hq_sql_tree.specs.View.{select_view};
ghost use Rattle.hq_model.specs.Meta.{meta_view};
ghost use Rattle.hq_command_confine.specs.Confining.{IsSaid, no_line, says, tree_output, verdict_output, without_line_end};
ghost use Rattle.hq_command_confine.specs.Said.{said_view};
ghost use Rattle.hq_command_confine.specs.Shown.{TextShows, TreeShows};
ghost use Rattle.hq_confine.specs.Verdicts.{told};

use hq_base::{Bytes, Memory, Txt};
use hq_command::Done;
use hq_confine::{Verdict, confine};
use hq_model::{Catalog, Meta, Session};
use hq_sql_check::well_formed;
use hq_sql_text::{ReadRefusal, read};
use hq_sql_tree::Select;
use itoa::Buffer;
use std::alloc::Global;

/// A line, and what it tells.
#[derive(Drop)]
pub struct Said {
    pub done: Done,
    pub line: Bytes,
}

// The line of a verdict that is no yes.
fn no_line(alloc: Global, rule: u8, alias: &Txt) -> Result<Bytes, Memory>
    ensures { IfOk result (λ line. line ≡ no_line rule alias.now) }
{
    let mut digits = Buffer::new();
    let mut line = Bytes::from_slice(alloc, b"no: X")?;
    line.append(digits.format(rule).as_bytes())?;
    line.append(b" ")?;
    line.append(alias.as_bytes())?;
    line.append(b"\n")?;
    Ok(line)
}

// A line that tells this.
fn fixed_line(alloc: Global, done: Done, line: &[u8]) -> Result<Said, Memory>
    ensures { IfOk result (λ said. said_view said ≡ says done line.now) }
{
    let line = Bytes::from_slice(alloc, line)?;
    Ok(Said { done, line })
}

// What is said by a verdict.
fn said_by(alloc: Global, verdict: &Verdict) -> Result<Said, Memory>
    ensures { IfOk result (λ said. said_view said ≡ verdict_output (told verdict.now)) }
{
    match verdict {
        Verdict::Yes => fixed_line(alloc, Done::Answered, b"yes\n"),
        Verdict::No { rule, alias } => {
            let line = no_line(alloc, *rule, alias)?;
            Ok(Said {
                done: Done::Faulty,
                line,
            })
        }
    }
}

// What is said of a statement.
fn judged(
    alloc: Global,
    statement: &Select,
    catalog: &Catalog,
    meta: &Meta,
    session: &Session,
) -> Result<Said, Memory>
    ensures told { IfOk result (λ said. said_view said ≡ tree_output catalog.now.tables (meta_view meta.now) session.now (select_view statement.now)) }
    ensures shows { IfOk result (λ said. TreeShows catalog.now.tables (meta_view meta.now) session.now (select_view statement.now) said.done) }
{
    if !well_formed(alloc, statement, catalog)? {
        return fixed_line(alloc, Done::Faulty, b"not typed\n");
    }
    let verdict = confine(alloc, statement, catalog, meta, session)?;
    said_by(alloc, &verdict)
}

// The statement that a text spells, where it spells one.
fn statement_in(alloc: Global, text: &[u8]) -> Result<Option<Box<Select>>, Memory>
    ensures found { IfOk result (λ found. IfSome found (λ s. Spells text.now (select_view s.value))) }
    ensures none { IfOk result (λ found. IfNone found ((s : SelectTree) → Spells text.now s → ⊥)) }
{
    match read(alloc, text) {
        Ok(statement) => Ok(Some(Box::new(alloc, statement)?)),
        Err(ReadRefusal::NotSql) => Ok(None),
        Err(ReadRefusal::Memory) => Err(Memory),
    }
}

/// A text without its last byte, where that is a line end.
pub fn without_line_end(text: &[u8]) -> &[u8]
    ensures { result.now ≡ without_line_end text.now }
{
    let count = text.len();
    if count > 0 && text[count - 1] == b'\n' {
        &text[..count - 1]
    } else {
        text
    }
}

/// What is said of a text for a session.
#[tactic(auto, using(crate::proofs::Shown::tree_shows, crate::proofs::Shown::nothing_shows))]
pub fn judge(
    alloc: Global,
    text: &[u8],
    catalog: &Catalog,
    meta: &Meta,
    session: &Session,
) -> Result<Said, Memory>
    ensures told { IfOk result (λ said. IsSaid catalog.now.tables (meta_view meta.now) session.now text.now (said_view said)) }
    ensures shows { IfOk result (λ said. TextShows catalog.now.tables (meta_view meta.now) session.now text.now said.done) }
{
    match statement_in(alloc, text)? {
        Some(statement) => judged(alloc, &statement, catalog, meta, session),
        None => fixed_line(alloc, Done::Faulty, b"not sql\n"),
    }
}
