//! The words behind the program's name.

use hq_base::Txt;
use hq_cases_file::{Case, Stop, Words};
use hq_cli::{Command, Page, WordsRefusal};
use hq_session::Headers;
use std::alloc::Global;

/// What words ask, or that they are bad.
pub fn tell_command(alloc: Global, case: &Case, out: &mut Words) -> Result<(), Stop> {
    let words = case.texts(alloc, "in")?;
    push_asked(alloc, words.as_slice(), out);
    Ok(())
}

fn push_asked(alloc: Global, words: &[Txt], out: &mut Words) {
    match Command::read(alloc, words) {
        Ok(command) => push_command(&command, out),
        Err(WordsRefusal::BadWords) => out.push("bad"),
        Err(WordsRefusal::Memory) => out.stop(Stop::Memory),
    }
}

fn push_command(command: &Command, out: &mut Words) {
    match command {
        Command::Query {
            dir,
            headers,
            paged,
        } => {
            push_request("query ", dir, headers, out);
            push_paged(*paged, out);
        }
        Command::Sql { dir, headers } => push_request("sql ", dir, headers, out),
        Command::Explain { dir, headers } => push_request("explain ", dir, headers, out),
        Command::Confine { dir, headers } => push_request("confine ", dir, headers, out),
        Command::Copy { dir, part, headers } => push_copy(dir, part, headers, out),
        Command::Check { dir } => out.push_pair("check ", dir.as_str()),
        Command::Gen { n } => {
            out.push("gen ");
            out.push_shown(n);
        }
        Command::Show { page: Page::Usage } => out.push("usage"),
        Command::Show {
            page: Page::Version,
        } => out.push("version"),
        Command::Serve {
            dir,
            port,
            connections,
            secret,
            unauthorized,
            paged,
        } => {
            push_port("serve ", dir, *port, *connections, out);
            push_text(", secret '", secret, out);
            push_text(", unauthorized '", unauthorized, out);
            push_paged(*paged, out);
        }
        Command::Live {
            dir,
            port,
            connections,
            secret,
            unauthorized,
        } => {
            push_port("live ", dir, *port, *connections, out);
            push_text(", secret '", secret, out);
            push_text(", unauthorized '", unauthorized, out);
        }
    }
}

fn push_request(word: &str, dir: &Txt, headers: &Headers, out: &mut Words) {
    out.push_pair(word, dir.as_str());
    push_headers(headers, out);
}

fn push_copy(dir: &Txt, part: &Txt, headers: &Headers, out: &mut Words) {
    out.push_pair("copy ", dir.as_str());
    out.push_pair(" ", part.as_str());
    push_headers(headers, out);
}

fn push_headers(headers: &Headers, out: &mut Words) {
    for header in headers.as_slice() {
        out.push_pair(" ", header.name.as_str());
        out.push_pair("=", header.value.as_str());
    }
}

fn push_port(word: &str, dir: &Txt, port: u16, connections: u32, out: &mut Words) {
    out.push_pair(word, dir.as_str());
    out.push(" at ");
    out.push_number(u64::from(port));
    out.push(" for ");
    out.push_number(u64::from(connections));
}

fn push_paged(paged: bool, out: &mut Words) {
    if paged {
        out.push(" in pages");
    }
}

fn push_text(before: &str, text: &Option<Txt>, out: &mut Words) {
    if let Some(text) = text {
        out.push_pair(before, text.as_str());
        out.push("'");
    }
}
