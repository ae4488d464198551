//! Saying whether a statement is confined.
ghost use Rattle.std.specs.Prelude.{◌≡◌, ◌≢◌, ◌≤◌, ◌⊎◌, IsErrOf, IfSome, IfOk, IfErr, Err, Ok};
ghost use Rattle.hq_io.specs.Causes.{Rose};
ghost use Rattle.hq_model.specs.Meta.{meta_view};
ghost use Rattle.hq_command.specs.Ending.{Ends, NotDatabase, Silent};
ghost use Rattle.hq_command_confine.specs.Confining.{Confines, EndsBy, IsDueFor, without_line_end};
ghost use Rattle.hq_command_confine.specs.Said.{said_view};
ghost use Rattle.hq_command_confine.specs.Shown.{InputShows, TextShows};

use crate::judging::{Said, judge, without_line_end};
use hq_base::Txt;
use hq_command::{Done, INPUT_LIMIT, Refusal, caller};
use hq_io::{Files, Sink, Source, read_all, write_all};
use hq_load::{Description, load_description};
use hq_model::Session;
use hq_session::Headers;
use std::alloc::Global;

// Writes a line.
fn write_said<K: Sink>(out: &mut K, said: &Said) -> Result<Done, Refusal>
    ensures told { Ends (K.written out.old) (K.written out.new) (Ok (said_view said.now)) result }
    ensures silent { Silent (K.written out.old) (K.written out.new) result }
    ensures write { IsErrOf result Refusal.WriteFailed → Rose (K.faults out.old) (K.faults out.new) }
    ensures others { IfErr result (λ e. e ≡ Refusal.WriteFailed) }
    ensures failed { IfErr result NotDatabase }
    ensures later { K.faults out.old ≤ K.faults out.new }
{
    write_all(out, said.line.as_slice())?;
    Ok(said.done)
}

// Reads a text, and says for a session what is to be said of it, by what a directory describes.
fn confine_to<S: Source, K: Sink>(
    alloc: Global,
    description: &Description,
    session: &Session,
    input: &mut S,
    out: &mut K,
) -> Result<Done, Refusal>
    ensures told { IfSome (S.left input.old) (λ left.
        EndsBy (IsDueFor description.now.catalog.tables (meta_view description.now.meta) session.now left) (K.written out.old) (K.written out.new) result) }
    ensures shows { IfSome (S.left input.old) (λ left.
        IfOk result (TextShows description.now.catalog.tables (meta_view description.now.meta) session.now (without_line_end left))) }
    ensures silent { Silent (K.written out.old) (K.written out.new) result }
    ensures read { IsErrOf result Refusal.ReadFailed → Rose (S.faults input.old) (S.faults input.new) }
    ensures write { IsErrOf result Refusal.WriteFailed → Rose (K.faults out.old) (K.faults out.new) }
    ensures failed { IfErr result NotDatabase }
    ensures words { result ≢ Err Refusal.BadWords }
    ensures input_later { S.faults input.old ≤ S.faults input.new }
    ensures out_later { K.faults out.old ≤ K.faults out.new }
{
    let bytes = read_all(alloc, input, INPUT_LIMIT)?;
    let text = without_line_end(bytes.as_slice());
    let said = judge(
        alloc,
        text,
        &description.catalog,
        &description.meta,
        session,
    )?;
    write_said(out, &said)
}

/// Loads what a directory describes, and says of the statement on the input whether it is confined for the session of the headers.
pub fn confine<F: Files, S: Source, K: Sink>(
    alloc: Global,
    dir: &Txt,
    headers: &Headers,
    files: &mut F,
    input: &mut S,
    out: &mut K,
) -> Result<Done, Refusal>
    ensures told { IfSome (F.folder files.old) (λ folder. IfSome (S.left input.old) (λ left.
        Confines dir.now headers.now folder left (K.written out.old) (K.written out.new) result)) }
    ensures shows { IfSome (F.folder files.old) (λ folder. IfSome (S.left input.old) (λ left. IfOk result (InputShows dir.now headers.now folder left))) }
    ensures silent { Silent (K.written out.old) (K.written out.new) result }
    ensures words { IsErrOf result Refusal.BadWords → ⊥ }
    ensures read { IsErrOf result Refusal.ReadFailed →
        Rose (F.faults files.old) (F.faults files.new) × (S.left input.new ≡ S.left input.old)
        ⊎ Rose (S.faults input.old) (S.faults input.new) }
    ensures write { IsErrOf result Refusal.WriteFailed → Rose (K.faults out.old) (K.faults out.new) }
    ensures failed { IfErr result NotDatabase }
    ensures folder { F.folder files.new ≡ F.folder files.old }
    ensures files_later { F.faults files.old ≤ F.faults files.new }
    ensures input_later { S.faults input.old ≤ S.faults input.new }
    ensures out_later { K.faults out.old ≤ K.faults out.new }
{
    let session = caller(alloc, headers)?;
    let description = load_description(alloc, files, dir)?;
    confine_to(alloc, &description, &session, input, out)
}
