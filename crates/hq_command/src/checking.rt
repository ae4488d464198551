//! Checking a directory.
ghost use Rattle.std.specs.Prelude.{◌≡◌, ◌≢◌, ◌≤◌, Ok, Some, length, IfOk, IfSome, IsErrOf, IfErr};
ghost use Rattle.hq_io.specs.Causes.{Rose};
ghost use Rattle.hq_model.specs.Meta.{meta_view};
ghost use Rattle.hq_schema_roles.specs.Roles.{roles_in};
ghost use Rattle.hq_command.specs.Ending.{Ends, Silent, NotDatabase};
ghost use Rattle.hq_command.specs.Check.{rows_in, counts_line, check_line, check_output};
ghost use Rattle.hq_load.specs.Loading.{loaded_view};
ghost use Rattle.hq_load.specs.Wrote.{Wrote};

use crate::{Done, Refusal};
use hq_base::{Memory, Txt};
use hq_io::{Files, Sink, WriteFailed};
use hq_load::{Loaded, Part, Phrase, load, write_parts};
use hq_load_tables::Rows;
use hq_model::Meta;
use hq_schema_roles::roles_in;
use std::alloc::Global;

// How many roles the permissions name.
fn count_roles(alloc: Global, meta: &Meta) -> Result<u64, Memory>
    ensures { IfOk result (λ count. count ≡ length (roles_in (meta_view meta.now))) }
{
    Ok(roles_in(alloc, meta)?.len() as u64)
}

// How many rows these tables have in all.
fn count_rows(all: &[Rows]) -> u64
    requires { length all.now ≤ 500 }
    ensures { result ≡ rows_in all.now }
{
    let mut count = 0;
    for rows in all {
        count += rows.len() as u64;
    }
    count
}

// Writes the line of a check.
fn write_counts<K: Sink>(out: &mut K, tables: u64, roles: u64, rows: u64) -> Result<(), WriteFailed>
    ensures { Wrote (K.written out.old) (K.written out.new) (K.faults out.old) (K.faults out.new) (counts_line tables roles rows) result }
{
    write_parts(
        out,
        &[
            Part::Fixed(Phrase::Ok),
            Part::Count(tables),
            Part::Fixed(Phrase::Tables),
            Part::Count(roles),
            Part::Fixed(Phrase::Roles),
            Part::Count(rows),
            Part::Fixed(Phrase::Rows),
            Part::Fixed(Phrase::End),
        ],
    )
}

// Writes the line of a check of what a directory holds.
fn write_check<K: Sink>(alloc: Global, loaded: &Loaded, out: &mut K) -> Result<Done, Refusal>
    ensures told { Ends (K.written out.old) (K.written out.new) (Ok (record { done = Done.Answered; bytes = Some (check_line (loaded_view loaded.now)) })) result }
    ensures fault { result ≢ Ok Done.Faulty }
    ensures silent { Silent (K.written out.old) (K.written out.new) result }
    ensures read { IsErrOf result Refusal.ReadFailed → ⊥ }
    ensures write { IsErrOf result Refusal.WriteFailed → Rose (K.faults out.old) (K.faults out.new) }
    ensures failed { IfErr result NotDatabase }
    ensures words { IsErrOf result Refusal.BadWords → ⊥ }
    ensures later { K.faults out.old ≤ K.faults out.new }
{
    let tables = loaded.catalog.tables.len() as u64;
    let roles = count_roles(alloc, &loaded.meta)?;
    let rows = count_rows(loaded.rows.as_slice());
    write_counts(out, tables, roles, rows)?;
    Ok(Done::Answered)
}

/// Loads a directory, and writes what it holds.
pub fn check<F: Files, K: Sink>(
    alloc: Global,
    dir: &Txt,
    files: &mut F,
    out: &mut K,
) -> Result<Done, Refusal>
    ensures told { IfSome (F.folder files.old) (λ folder.
        Ends (K.written out.old) (K.written out.new) (check_output dir.now folder) result) }
    ensures fault { result ≢ Ok Done.Faulty }
    ensures silent { Silent (K.written out.old) (K.written out.new) result }
    ensures words { IsErrOf result Refusal.BadWords → ⊥ }
    ensures read { IsErrOf result Refusal.ReadFailed → Rose (F.faults files.old) (F.faults files.new) }
    ensures write { IsErrOf result Refusal.WriteFailed → Rose (K.faults out.old) (K.faults out.new) }
    ensures failed { IfErr result NotDatabase }
    ensures folder { F.folder files.new ≡ F.folder files.old }
    ensures files_later { F.faults files.old ≤ F.faults files.new }
    ensures out_later { K.faults out.old ≤ K.faults out.new }
{
    let loaded = load(alloc, files, dir)?;
    write_check(alloc, &loaded, out)
}
