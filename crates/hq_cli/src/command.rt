ghost use Rattle.std.specs.Prelude.{◌≡◌, ok_or, IfOk};
ghost use Rattle.clap.specs.Words.{found_of, rows_of};
ghost use Rattle.hq_base.specs.Due.{Gives};
ghost use Rattle.hq_cli.specs.Asked.{HasFewAuthors, check_of, command_named, command_of, copy_in, copy_of, gen_in, gen_of, gen_with, page_of, query_in, query_of, request_in, request_of, serve_in, serve_of};

use crate::living::live;
use crate::parse::{
    check_matches, copy_matches, gen_matches, query_matches, request_matches, serve_matches,
};
use crate::values::{
    authors_of, connections_of, filled, given_headers, is_paged, port_of, text_of,
};
use crate::{Page, WordsRefusal};
use clap::ArgMatches;
use hq_base::Txt;
use hq_session::Headers;
use std::alloc::Global;

/// What words ask of the program.
#[derive(Drop)]
pub enum Command {
    /// To answer a request over a directory, for the session of the headers, and with its tables in pages where that is asked.
    Query {
        dir: Txt,
        headers: Headers,
        paged: bool,
    },
    /// To write the statement that answers a request.
    Sql {
        dir: Txt,
        headers: Headers,
    },
    /// To tell a person of a request, or of a directory that is refused.
    Explain {
        dir: Txt,
        headers: Headers,
    },
    /// To say whether a statement can show more than the caller of the headers may see.
    Confine {
        dir: Txt,
        headers: Headers,
    },
    /// To write a part of the redacted copy of a directory, for the session of the headers.
    Copy {
        dir: Txt,
        part: Txt,
        headers: Headers,
    },
    /// To check a directory.
    Check {
        dir: Txt,
    },
    /// To serve a directory at a port, for so many connections, and with its tables in pages where that is asked.
    Serve {
        dir: Txt,
        port: u16,
        connections: u32,
        secret: Option<Txt>,
        unauthorized: Option<Txt>,
        paged: bool,
    },
    /// To talk of live queries over a directory at a port, with so many peers.
    Live {
        dir: Txt,
        port: u16,
        connections: u32,
        secret: Option<Txt>,
        unauthorized: Option<Txt>,
    },
    /// To answer requests over a generated database of so many authors, from 1 to 100,000.
    Gen {
        n: u32,
    },
    /// To tell of the program.
    Show {
        page: Page,
    },
}

// The directory and the headers of a request, as the matches say.
fn request_from(alloc: Global, matches: &ArgMatches<'_>) -> Result<(Txt, Headers), WordsRefusal>
    ensures { Gives (λ request. request) WordsRefusal.Memory (ok_or (request_in (rows_of (found_of matches.now))) WordsRefusal.BadWords) result }
{
    let Some(dir) = text_of(alloc, matches, "dir")? else {
        return Err(WordsRefusal::Memory);
    };
    let headers = given_headers(alloc, matches)?;
    Ok((dir, headers))
}

// The directory and the headers of the words behind `sql`, `explain` or `confine`.
fn request(alloc: Global, words: &[Txt]) -> Result<(Txt, Headers), WordsRefusal>
    ensures { Gives (λ request. request) WordsRefusal.Memory (ok_or (request_of words.now) WordsRefusal.BadWords) result }
{
    match request_matches(alloc, words) {
        Ok(matches) => request_from(alloc, &matches),
        Err(refusal) => Err(refusal),
    }
}

// What is to be answered, as the matches say.
fn query_from(alloc: Global, matches: &ArgMatches<'_>) -> Result<Command, WordsRefusal>
    ensures { Gives (λ command. command) WordsRefusal.Memory (ok_or (query_in (rows_of (found_of matches.now))) WordsRefusal.BadWords) result }
{
    let (dir, headers) = request_from(alloc, matches)?;
    Ok(Command::Query {
        dir,
        headers,
        paged: is_paged(matches),
    })
}

// What the words behind `query` ask.
fn query(alloc: Global, words: &[Txt]) -> Result<Command, WordsRefusal>
    ensures { Gives (λ command. command) WordsRefusal.Memory (ok_or (query_of words.now) WordsRefusal.BadWords) result }
{
    match query_matches(alloc, words) {
        Ok(matches) => query_from(alloc, &matches),
        Err(refusal) => Err(refusal),
    }
}

// The part of a copy that is asked for, as the matches say.
fn copy_from(alloc: Global, matches: &ArgMatches<'_>) -> Result<Command, WordsRefusal>
    ensures { Gives (λ command. command) WordsRefusal.Memory (ok_or (copy_in (rows_of (found_of matches.now))) WordsRefusal.BadWords) result }
{
    let (dir, headers) = request_from(alloc, matches)?;
    let Some(part) = text_of(alloc, matches, "part")? else {
        return Err(WordsRefusal::Memory);
    };
    Ok(Command::Copy { dir, part, headers })
}

// What the words behind `copy` ask.
fn copy(alloc: Global, words: &[Txt]) -> Result<Command, WordsRefusal>
    ensures { Gives (λ command. command) WordsRefusal.Memory (ok_or (copy_of words.now) WordsRefusal.BadWords) result }
{
    match copy_matches(alloc, words) {
        Ok(matches) => copy_from(alloc, &matches),
        Err(refusal) => Err(refusal),
    }
}

// What the words behind `check` ask.
fn check(alloc: Global, words: &[Txt]) -> Result<Command, WordsRefusal>
    ensures { Gives (λ command. command) WordsRefusal.Memory (ok_or (check_of words.now) WordsRefusal.BadWords) result }
{
    match check_matches(alloc, words) {
        Ok(matches) => match text_of(alloc, &matches, "dir")? {
            Some(dir) => Ok(Command::Check { dir }),
            None => Err(WordsRefusal::Memory),
        },
        Err(refusal) => Err(refusal),
    }
}

// What is to be served, as the matches say.
fn serve_from(alloc: Global, matches: &ArgMatches<'_>) -> Result<Command, WordsRefusal>
    ensures { Gives (λ command. command) WordsRefusal.Memory (ok_or (serve_in (rows_of (found_of matches.now))) WordsRefusal.BadWords) result }
{
    let Some(dir) = text_of(alloc, matches, "dir")? else {
        return Err(WordsRefusal::Memory);
    };
    let Some(port) = port_of(matches) else {
        return Err(WordsRefusal::Memory);
    };
    let Some(connections) = connections_of(matches) else {
        return Err(WordsRefusal::Memory);
    };
    let secret = filled(text_of(alloc, matches, "admin-secret")?)?;
    let unauthorized = filled(text_of(alloc, matches, "unauthorized-role")?)?;
    Ok(Command::Serve {
        dir,
        port,
        connections,
        secret,
        unauthorized,
        paged: is_paged(matches),
    })
}

// What the words behind `serve` ask.
fn serve(alloc: Global, words: &[Txt]) -> Result<Command, WordsRefusal>
    ensures { Gives (λ command. command) WordsRefusal.Memory (ok_or (serve_of words.now) WordsRefusal.BadWords) result }
{
    match serve_matches(alloc, words) {
        Ok(matches) => serve_from(alloc, &matches),
        Err(refusal) => Err(refusal),
    }
}

// A command that generates so many authors.
fn generating(n: u32) -> Result<Command, WordsRefusal>
    ensures { result ≡ ok_or (gen_with n) WordsRefusal.BadWords }
{
    if n < 1 || n > 100_000 {
        return Err(WordsRefusal::BadWords);
    }
    Ok(Command::Gen { n })
}

// What is to be generated, as the matches say.
fn gen_from(matches: &ArgMatches<'_>) -> Result<Command, WordsRefusal>
    ensures { Gives (λ command. command) WordsRefusal.Memory (ok_or (gen_in (rows_of (found_of matches.now))) WordsRefusal.BadWords) result }
{
    match authors_of(matches) {
        Some(n) => generating(n),
        None => Err(WordsRefusal::Memory),
    }
}

// What the words behind `gen` ask.
fn generate(alloc: Global, words: &[Txt]) -> Result<Command, WordsRefusal>
    ensures { Gives (λ command. command) WordsRefusal.Memory (ok_or (gen_of words.now) WordsRefusal.BadWords) result }
{
    match gen_matches(alloc, words) {
        Ok(matches) => gen_from(&matches),
        Err(refusal) => Err(refusal),
    }
}

// The page that a word alone asks for.
fn page(name: &str, words: &[Txt]) -> Result<Command, WordsRefusal>
    ensures { result ≡ ok_or (page_of name.now words.now) WordsRefusal.BadWords }
{
    match Page::named(name) {
        Some(page) if words.is_empty() => Ok(Command::Show { page }),
        _ => Err(WordsRefusal::BadWords),
    }
}

// What the words behind a command's name ask.
fn command_named(alloc: Global, name: &str, words: &[Txt]) -> Result<Command, WordsRefusal>
    ensures { Gives (λ command. command) WordsRefusal.Memory (ok_or (command_named name.now words.now) WordsRefusal.BadWords) result }
{
    match name {
        "query" => query(alloc, words),
        "sql" => {
            let (dir, headers) = request(alloc, words)?;
            Ok(Command::Sql { dir, headers })
        }
        "explain" => {
            let (dir, headers) = request(alloc, words)?;
            Ok(Command::Explain { dir, headers })
        }
        "confine" => {
            let (dir, headers) = request(alloc, words)?;
            Ok(Command::Confine { dir, headers })
        }
        "copy" => copy(alloc, words),
        "check" => check(alloc, words),
        "serve" => serve(alloc, words),
        "live" => live(alloc, words),
        "gen" => generate(alloc, words),
        _ => page(name, words),
    }
}

impl Command {
    /// What these words ask, which are those behind the program's name. BadWords exactly where they are not in the grammar of a
    /// command.
    pub fn read(alloc: Global, words: &[Txt]) -> Result<Command, WordsRefusal>
        ensures asked { Gives (λ command. command) WordsRefusal.Memory (ok_or (command_of words.now) WordsRefusal.BadWords) result }
        ensures few { IfOk result HasFewAuthors }
    {
        match words {
            [name, words @ ..] => command_named(alloc, name.as_str(), words),
            [] => Err(WordsRefusal::BadWords),
        }
    }
}
