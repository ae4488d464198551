//! Writing a part of a copy.
ghost use Rattle.std.specs.Prelude.{◌≡◌, ◌≢◌, ◌≤◌, IfErr, IfSome, IsErrOf, OnOk, Ok, Err, Some};
ghost use Rattle.hq_base.specs.Due.{Gives};
ghost use Rattle.hq_io.specs.Causes.{Rose};
ghost use Rattle.hq_command.specs.Ending.{Ends, NotDatabase, Silent};
ghost use Rattle.hq_command.specs.declared.refusal.Refusal.TheVariants as refusal;
ghost use Rattle.hq_command_copy.specs.Copying.{CopyReadsBack, NotFailed, OfCopy, OfPart, TextReadsBack, copy_output, of_part, text_due};
ghost use Rattle.hq_copy_text.specs.Clean.{IsClean};
ghost use Rattle.hq_copy_text.specs.Parts.{part_due};
ghost use Rattle.hq_load.specs.Loading.{loaded_view};
ghost use Rattle.hq_copy.specs.Redacting.{Redacts, copy_due, redacted_view};

use crate::causes::{copy_cause, part_cause};
use hq_base::{Bytes, Txt};
use hq_command::{Done, Refusal, caller};
use hq_copy::{Redacted, redact};
use hq_copy_definition::CopyRefusal;
use hq_copy_text::{PartRefusal, copy_is_clean, part};
use hq_io::{Files, Sink, write_all};
use hq_laws_copy_text::parts_are_read_back;
use hq_load::{Loaded, load};
use hq_load_tables::MemTables;
use hq_model::Session;
use hq_session::Headers;
use std::alloc::Global;

// What a refusal of a copy is to the program.
fn not_copied(alloc: Global, refusal: &CopyRefusal) -> Refusal
    ensures { OfCopy refusal.now result }
{
    match copy_cause(alloc, refusal) {
        Ok(cause) => Refusal::NotCopied { cause },
        Err(_) => Refusal::Memory,
    }
}

// What a refusal of a part is to the program.
fn no_part(alloc: Global, refusal: PartRefusal) -> Refusal
    ensures { OfPart refusal result }
{
    match part_cause(alloc, refusal) {
        Ok(cause) => Refusal::NotCopied { cause },
        Err(_) => Refusal::Memory,
    }
}

// The copy of what a directory holds.
fn copy_of(alloc: Global, loaded: Loaded, session: &Session) -> Result<Redacted, CopyRefusal>
    ensures due { Redacts (copy_due (loaded_view loaded).tables (loaded_view loaded).meta session.now (loaded_view loaded).rows) result }
    ensures failed { IfErr result NotFailed }
{
    let Loaded {
        catalog,
        meta,
        rows,
    } = loaded;
    let copy = catalog.copy(alloc)?;
    let mut tables = MemTables::new(copy, rows);
    redact(alloc, &catalog, &meta, session, &mut tables)
}

// The text of a part of a copy, whose names and texts are clean.
fn part_of(alloc: Global, copy: &Redacted, name: &Txt) -> Result<Bytes, Refusal>
    ensures due { Gives (λ text. text) refusal.Memory (of_part (part_due (redacted_view copy.now) name.now)) result }
    ensures clean { IsClean (redacted_view copy.now) }
{
    copy_is_clean(copy);
    match part(alloc, copy, name) {
        Ok(text) => Ok(text),
        Err(refusal) => Err(no_part(alloc, refusal)),
    }
}

// The text of a part of the copy of what a directory holds.
fn text_of(alloc: Global, loaded: Loaded, session: &Session, name: &Txt) -> Result<Bytes, Refusal>
    ensures due { Gives (λ text. text) refusal.Memory (text_due session.now name.now (loaded_view loaded)) result }
    ensures read_back { OnOk result (TextReadsBack session.now name.now (loaded_view loaded)) }
{
    parts_are_read_back();
    match copy_of(alloc, loaded, session) {
        Ok(copy) => part_of(alloc, &copy, name),
        Err(refusal) => Err(not_copied(alloc, &refusal)),
    }
}

// Writes a text.
fn write_text<K: Sink>(out: &mut K, text: &Bytes) -> Result<Done, Refusal>
    ensures told { Ends (K.written out.old) (K.written out.new) (Ok (record { done = Done.Answered; bytes = Some text.now })) result }
    ensures silent { Silent (K.written out.old) (K.written out.new) result }
    ensures write { IsErrOf result Refusal.WriteFailed → Rose (K.faults out.old) (K.faults out.new) }
    ensures others { IfErr result (λ e. e ≡ Refusal.WriteFailed) }
    ensures fault { result ≢ Ok Done.Faulty }
    ensures later { K.faults out.old ≤ K.faults out.new }
{
    write_all(out, text.as_slice())?;
    Ok(Done::Answered)
}

/// Loads a directory, and writes a part of its redacted copy for the session of the headers: `catalog`, `metadata`, or a table's
/// schema and name joined by a point. What is written is read back as what the copy holds.
pub fn copy<F: Files, K: Sink>(
    alloc: Global,
    dir: &Txt,
    part: &Txt,
    headers: &Headers,
    files: &mut F,
    out: &mut K,
) -> Result<Done, Refusal>
    ensures told { IfSome (F.folder files.old) (λ folder.
        Ends (K.written out.old) (K.written out.new) (copy_output dir.now part.now headers.now folder) result) }
    ensures read_back { IfSome (F.folder files.old) (λ folder. OnOk result (CopyReadsBack dir.now part.now headers.now folder)) }
    ensures fault { result ≢ Ok Done.Faulty }
    ensures silent { Silent (K.written out.old) (K.written out.new) result }
    ensures words { IsErrOf result Refusal.BadWords → ⊥ }
    ensures read { IsErrOf result Refusal.ReadFailed → Rose (F.faults files.old) (F.faults files.new) }
    ensures write { IsErrOf result Refusal.WriteFailed → Rose (K.faults out.old) (K.faults out.new) }
    ensures failed { IfErr result NotDatabase }
    ensures folder { F.folder files.new ≡ F.folder files.old }
    ensures files_later { F.faults files.old ≤ F.faults files.new }
    ensures out_later { K.faults out.old ≤ K.faults out.new }
{
    let session = caller(alloc, headers)?;
    let loaded = load(alloc, files, dir)?;
    let text = text_of(alloc, loaded, &session, part)?;
    write_text(out, &text)
}
