ghost use Rattle.std.specs.Prelude.{◌≡◌, true};
ghost use Rattle.clap.specs.Words.{app_of, fault_of, is_simple_and_free, matches_of};
ghost use Rattle.hq_cli.specs.Grammar.{check_faults, check_rows, copy_faults, copy_rows, gen_faults, gen_rows, live_faults, live_rows, query_faults, query_rows, request_faults, request_rows, serve_faults, serve_rows};
ghost use Rattle.hq_cli.specs.Parsing.{Parses};

use crate::WordsRefusal;
use crate::arguments::{
    check_command, copy_command, gen_command, live_command, query_command, request_command,
    serve_command,
};
use clap::error::ErrorKind;
use clap::{ArgMatches, Command};
use hq_base::Txt;
use std::alloc::Global;

// What the words say, where the command takes them.
fn parse<'a>(command: Command<'a>, words: &'a [Txt]) -> Result<ArgMatches<'a>, WordsRefusal>
    requires { is_simple_and_free (app_of command) ≡ true }
    ensures { Parses (fault_of (app_of command.entry) words.entry.now) (matches_of (app_of command.entry) words.entry.now) result }
{
    match command.try_get_matches_from(words) {
        Ok(matches) => Ok(matches),
        Err(error) => match error.kind() {
            ErrorKind::OutOfMemory => Err(WordsRefusal::Memory),
            _ => Err(WordsRefusal::BadWords),
        },
    }
}

/// What the words behind `sql`, `explain` or `confine` say.
pub fn request_matches<'a>(alloc: Global, words: &'a [Txt]) -> Result<ArgMatches<'a>, WordsRefusal>
    ensures { Parses (request_faults words.entry.now) (request_rows words.entry.now) result }
{
    let Ok(command) = request_command(alloc) else {
        return Err(WordsRefusal::Memory);
    };
    parse(command, words)
}

/// What the words behind `query` say.
pub fn query_matches<'a>(alloc: Global, words: &'a [Txt]) -> Result<ArgMatches<'a>, WordsRefusal>
    ensures { Parses (query_faults words.entry.now) (query_rows words.entry.now) result }
{
    let Ok(command) = query_command(alloc) else {
        return Err(WordsRefusal::Memory);
    };
    parse(command, words)
}

/// What the words behind `copy` say.
pub fn copy_matches<'a>(alloc: Global, words: &'a [Txt]) -> Result<ArgMatches<'a>, WordsRefusal>
    ensures { Parses (copy_faults words.entry.now) (copy_rows words.entry.now) result }
{
    let Ok(command) = copy_command(alloc) else {
        return Err(WordsRefusal::Memory);
    };
    parse(command, words)
}

/// What the words behind `check` say.
pub fn check_matches<'a>(alloc: Global, words: &'a [Txt]) -> Result<ArgMatches<'a>, WordsRefusal>
    ensures { Parses (check_faults words.entry.now) (check_rows words.entry.now) result }
{
    let Ok(command) = check_command(alloc) else {
        return Err(WordsRefusal::Memory);
    };
    parse(command, words)
}

/// What the words behind `serve` say.
pub fn serve_matches<'a>(alloc: Global, words: &'a [Txt]) -> Result<ArgMatches<'a>, WordsRefusal>
    ensures { Parses (serve_faults words.entry.now) (serve_rows words.entry.now) result }
{
    let Ok(command) = serve_command(alloc) else {
        return Err(WordsRefusal::Memory);
    };
    parse(command, words)
}

/// What the words behind `live` say.
pub fn live_matches<'a>(alloc: Global, words: &'a [Txt]) -> Result<ArgMatches<'a>, WordsRefusal>
    ensures { Parses (live_faults words.entry.now) (live_rows words.entry.now) result }
{
    let Ok(command) = live_command(alloc) else {
        return Err(WordsRefusal::Memory);
    };
    parse(command, words)
}

/// What the words behind `gen` say.
pub fn gen_matches<'a>(alloc: Global, words: &'a [Txt]) -> Result<ArgMatches<'a>, WordsRefusal>
    ensures { Parses (gen_faults words.entry.now) (gen_rows words.entry.now) result }
{
    let Ok(command) = gen_command(alloc) else {
        return Err(WordsRefusal::Memory);
    };
    parse(command, words)
}
