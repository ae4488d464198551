ghost use Rattle.std.specs.Prelude.{◌≡◌, IfOk, IfSome, map, ok_or, codes};
ghost use Rattle.clap.specs.Words.{first_of, found_of, rows_of};
ghost use Rattle.hq_base.specs.Due.{Gives};
ghost use Rattle.hq_cli.specs.Asked.{filled, headers_of, header_words_in, is_paged_in, number_in};

use crate::WordsRefusal;
use clap::ArgMatches;
use hq_base::{Memory, Txt};
use hq_session::{Header, Headers};
use std::alloc::Global;

// The text of a word. That it is one has been told by the words themselves.
fn copied(alloc: Global, word: &str) -> Result<Txt, Memory>
    ensures { IfOk result (λ text. text ≡ word.now) }
{
    match Txt::of(alloc, word.as_bytes()) {
        Ok(text) => Ok(text),
        Err(_) => Err(Memory),
    }
}

/// The text of an argument, where it is given.
pub fn text_of(alloc: Global, matches: &ArgMatches<'_>, id: &str) -> Result<Option<Txt>, Memory>
    ensures { IfOk result (λ text. text ≡ first_of id.now (rows_of (found_of matches.now))) }
{
    match matches.get_str(id) {
        Some(word) => Ok(Some(copied(alloc, word)?)),
        None => Ok(None),
    }
}

/// The port, as the words say it.
pub fn port_of(matches: &ArgMatches<'_>) -> Option<u16>
    ensures { IfSome result (λ port. number_in (codes "port") (rows_of (found_of matches.now)) ≡ Some port) }
{
    matches.get_one::<u16>("port")
}

/// The number of connections, as the words say it.
pub fn connections_of(matches: &ArgMatches<'_>) -> Option<u32>
    ensures { IfSome result (λ count. number_in (codes "connections") (rows_of (found_of matches.now)) ≡ Some count) }
{
    matches.get_one::<u32>("connections")
}

/// The number of authors, as the words say it.
pub fn authors_of(matches: &ArgMatches<'_>) -> Option<u32>
    ensures { IfSome result (λ authors. number_in (codes "authors") (rows_of (found_of matches.now)) ≡ Some authors) }
{
    matches.get_one::<u32>("authors")
}

/// Whether the words ask for pages.
pub fn is_paged(matches: &ArgMatches<'_>) -> bool
    ensures { result ≡ is_paged_in (rows_of (found_of matches.now)) }
{
    match matches.get_str("paged") {
        Some(text) => text == "true",
        None => false,
    }
}

/// A text that is not empty, where it is given.
pub fn filled(text: Option<Txt>) -> Result<Option<Txt>, WordsRefusal>
    ensures { Gives (λ text. text) WordsRefusal.Memory (ok_or (filled text) WordsRefusal.BadWords) result }
{
    match text {
        Some(text) if text.as_bytes().is_empty() => Err(WordsRefusal::BadWords),
        given => Ok(given),
    }
}

// The headers of these words.
fn headers_of(alloc: Global, words: &[&str]) -> Result<Headers, WordsRefusal>
    ensures { Gives (λ headers. headers) WordsRefusal.Memory (ok_or (headers_of (map (λ w. w.now) words.now)) WordsRefusal.BadWords) result }
{
    let mut headers = Headers::new(alloc);
    for word in words {
        let text = copied(alloc, word)?;
        let Some(header) = Header::read(alloc, &text)? else {
            return Err(WordsRefusal::BadWords);
        };
        headers.push(header)?;
    }
    Ok(headers)
}

/// The headers of a request.
pub fn given_headers(alloc: Global, matches: &ArgMatches<'_>) -> Result<Headers, WordsRefusal>
    ensures { Gives (λ headers. headers) WordsRefusal.Memory (ok_or (headers_of (header_words_in (rows_of (found_of matches.now)))) WordsRefusal.BadWords) result }
{
    match matches.get_strs("headers") {
        Some(words) => headers_of(alloc, words),
        None => Ok(Headers::new(alloc)),
    }
}
