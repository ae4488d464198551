//! Telling how a run ended.
ghost use Rattle.std.specs.Prelude.{◌≡◌};
ghost use Rattle.hq_command.specs.Ending.{Tells, status_of, told_line};
ghost use Rattle.hq_command.specs.Line.{line_of};
ghost use Rattle.hq_load.specs.Wrote.{Wrote};

use crate::{Done, Refusal};
use hq_io::{Sink, WriteFailed};
use hq_load::{Part, Phrase, write_parts};

// Writes the line of a refusal, or what goes before a fault.
fn write_line<E: Sink>(err: &mut E, refusal: &Refusal) -> Result<(), WriteFailed>
    ensures { Wrote (E.written err.old) (E.written err.new) (E.faults err.old) (E.faults err.new) (line_of refusal.now) result }
{
    write_parts(
        err,
        &[
            Part::Fixed(Phrase::Hq),
            Part::WithFile(refusal.file()),
            Part::Fixed(refusal.name()),
            Part::WithFields(refusal.fields()),
            Part::Fixed(Phrase::End),
        ],
    )
}

/// Tells a refusal on standard error. Gives the status of the answer.
pub fn tell<E: Sink>(err: &mut E, answer: Result<Done, Refusal>) -> u8
    ensures status { result ≡ status_of answer }
    ensures line { Tells (E.written err.old) (E.written err.new) (E.faults err.old) (E.faults err.new) (told_line answer) }
{
    match answer {
        Ok(done) => done.status(),
        Err(refusal) => {
            let _ = write_line(err, &refusal);
            refusal.status()
        }
    }
}
