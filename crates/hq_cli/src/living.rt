//! The words behind `live`.
ghost use Rattle.std.specs.Prelude.{ok_or};
ghost use Rattle.clap.specs.Words.{found_of, rows_of};
ghost use Rattle.hq_base.specs.Due.{Gives};
ghost use Rattle.hq_cli.specs.Asked.{live_in, live_of};

use crate::parse::live_matches;
use crate::values::{connections_of, filled, port_of, text_of};
use crate::{Command, WordsRefusal};
use clap::ArgMatches;
use hq_base::Txt;
use std::alloc::Global;

// What is to be talked of, as the matches say.
fn live_from(alloc: Global, matches: &ArgMatches<'_>) -> Result<Command, WordsRefusal>
    ensures { Gives (λ command. command) WordsRefusal.Memory (ok_or (live_in (rows_of (found_of matches.now))) WordsRefusal.BadWords) result }
{
    let Some(dir) = text_of(alloc, matches, "dir")? else {
        return Err(WordsRefusal::Memory);
    };
    let Some(port) = port_of(matches) else {
        return Err(WordsRefusal::Memory);
    };
    let Some(connections) = connections_of(matches) else {
        return Err(WordsRefusal::Memory);
    };
    let secret = filled(text_of(alloc, matches, "admin-secret")?)?;
    let unauthorized = filled(text_of(alloc, matches, "unauthorized-role")?)?;
    Ok(Command::Live {
        dir,
        port,
        connections,
        secret,
        unauthorized,
    })
}

/// What the words behind `live` ask.
pub fn live(alloc: Global, words: &[Txt]) -> Result<Command, WordsRefusal>
    ensures { Gives (λ command. command) WordsRefusal.Memory (ok_or (live_of words.now) WordsRefusal.BadWords) result }
{
    match live_matches(alloc, words) {
        Ok(matches) => live_from(alloc, &matches),
        Err(refusal) => Err(refusal),
    }
}
