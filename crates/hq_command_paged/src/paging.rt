//! The reply to one request over tables that are kept on a disk.
ghost use Rattle.std.specs.Prelude.{◌≡◌, ◌≤◌, ◌⊎◌, IsErrOf, IfSome, IfErr};
ghost use Rattle.hq_io.specs.Causes.{Rose};
ghost use Rattle.hq_model.specs.Meta.{meta_view};
ghost use Rattle.hq_command_paged.specs.Disks.{DiskFailed, DiskLater, paged_output, seen_disk, told_rows};
ghost use Rattle.hq_command.specs.Ending.{Ends, Silent};
ghost use Rattle.hq_command.specs.Output.{request_output};

use crate::instance::{disk_of, on_disk};
use hq_base::{Memory, Txt};
use hq_command::{Done, Refusal, caller, reply_to};
use hq_io::{Disk, Files, Sink, Source};
use hq_load::{Loaded, load};
use hq_model::Session;
use hq_session::Headers;
use std::alloc::Global;

/// What comes of a command whose tables are kept on a disk, and the disk.
#[derive(Drop)]
pub struct OnDisk<X, A> {
    pub disk: X,
    pub answer: A,
}

// Answers a request of a session over what a directory holds.
fn respond<X: Disk, S: Source, K: Sink>(
    alloc: Global,
    loaded: Loaded,
    dir: &Txt,
    session: &Session,
    disk: X,
    input: &mut S,
    out: &mut K,
) -> OnDisk<X, Result<Done, Refusal>>
    ensures told { IfSome (S.left input.old) (λ left. Ends (K.written out.old) (K.written out.new)
        (request_output loaded.catalog.tables (meta_view loaded.meta) session.now (told_rows (X.held disk) loaded.rows) left) result.answer) }
    ensures silent { Silent (K.written out.old) (K.written out.new) result.answer }
    ensures words { IsErrOf result.answer Refusal.BadWords → ⊥ }
    ensures read { IsErrOf result.answer Refusal.ReadFailed →
        Rose (X.faults disk) (X.faults result.disk) × (S.left input.new ≡ S.left input.old) ⊎ Rose (S.faults input.old) (S.faults input.new) }
    ensures write { IsErrOf result.answer Refusal.WriteFailed → Rose (K.faults out.old) (K.faults out.new) }
    ensures failed { IfErr result.answer (DiskFailed (seen_disk (X.held disk) (X.faults disk)) (seen_disk (X.held result.disk) (X.faults result.disk))) }
    ensures disk_later { DiskLater (seen_disk (X.held disk) (X.faults disk)) (seen_disk (X.held result.disk) (X.faults result.disk)) }
    ensures input_later { S.faults input.old ≤ S.faults input.new }
    ensures out_later { K.faults out.old ≤ K.faults out.new }
{
    match on_disk(alloc, loaded, dir, disk) {
        Ok(made) => {
            let mut made = made;
            let answer = reply_to(alloc, &made.engine, session, &mut made.db, input, out);
            OnDisk {
                disk: disk_of(made),
                answer,
            }
        }
        Err(unmade) => OnDisk {
            disk: unmade.disk,
            answer: Err(unmade.why.into()),
        },
    }
}

/// Loads a directory, puts its tables on the disk, and answers a request for the session of the headers. The disk is handed
/// back.
pub fn query_on_disk<F: Files, X: Disk, S: Source, K: Sink>(
    alloc: Global,
    dir: &Txt,
    headers: &Headers,
    files: &mut F,
    disk: X,
    input: &mut S,
    out: &mut K,
) -> OnDisk<X, Result<Done, Refusal>>
    ensures told { IfSome (F.folder files.old) (λ folder. IfSome (S.left input.old) (λ left.
        Ends (K.written out.old) (K.written out.new) (paged_output (X.held disk) dir.now headers.now folder left) result.answer)) }
    ensures silent { Silent (K.written out.old) (K.written out.new) result.answer }
    ensures words { IsErrOf result.answer Refusal.BadWords → ⊥ }
    ensures read { IsErrOf result.answer Refusal.ReadFailed →
        (Rose (F.faults files.old) (F.faults files.new) ⊎ Rose (X.faults disk) (X.faults result.disk)) × (S.left input.new ≡ S.left input.old)
        ⊎ Rose (S.faults input.old) (S.faults input.new) }
    ensures write { IsErrOf result.answer Refusal.WriteFailed → Rose (K.faults out.old) (K.faults out.new) }
    ensures failed { IfErr result.answer (DiskFailed (seen_disk (X.held disk) (X.faults disk)) (seen_disk (X.held result.disk) (X.faults result.disk))) }
    ensures folder { F.folder files.new ≡ F.folder files.old }
    ensures files_later { F.faults files.old ≤ F.faults files.new }
    ensures disk_later { DiskLater (seen_disk (X.held disk) (X.faults disk)) (seen_disk (X.held result.disk) (X.faults result.disk)) }
    ensures input_later { S.faults input.old ≤ S.faults input.new }
    ensures out_later { K.faults out.old ≤ K.faults out.new }
{
    match caller(alloc, headers) {
        Ok(session) => match load(alloc, files, dir) {
            Ok(loaded) => respond(alloc, loaded, dir, &session, disk, input, out),
            Err(refusal) => OnDisk {
                disk,
                answer: Err(refusal.into()),
            },
        },
        Err(Memory) => OnDisk {
            disk,
            answer: Err(Refusal::Memory),
        },
    }
}
