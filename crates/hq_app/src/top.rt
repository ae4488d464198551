ghost use Rattle.std.specs.Prelude.{◌≡◌, ◌≢◌, ◌⊎◌, ◌≤◌, IsErrOf, IfErr, IfSome, None, Some, true, false};
ghost use Rattle.hq_io.specs.Causes.{Rose};
ghost use Rattle.hq_cli.specs.Asked.{HasFewAuthors, command_of};
ghost use Rattle.hq_command.specs.Ending.{Outcome, Silent, Tells, NotDatabase, status_of, told_line};
ghost use Rattle.hq_command.specs.Answers.{Answers};
ghost use Rattle.hq_app.specs.Laws.{AnswersAlike};
ghost use Rattle.hq_app.specs.Outside.{NoneFell};
ghost use Rattle.hq_app.specs.Runs.{DatabaseCause, EndsWith, MayFail, ReadCause, Runs, opens_door, opens_hall, reads_input, uses_disk, tells_files, tells_lines};

use crate::laws::outputs_agree;
use crate::living::live_over;
use crate::{Observed, Ran, World};
use hq_base::Txt;
use hq_cli::Command;
use hq_command::{Done, Refusal, check, generate_and_answer, query, reply_to, show, sql, tell};
use hq_command_confine::confine;
use hq_command_copy::copy;
use hq_command_explain::explain;
use hq_command_paged::{query_on_disk, serve_on_disk};
use hq_command_serve::serve;
use hq_database::Database;
use hq_engine::Engine;
use hq_io::{Disk, Door, Files, Sink, Source};
use hq_load_tables::Tables;
use hq_messages::Hall;
use hq_model::Session;
use hq_session::{Headers, SecretRule};
use hq_sql_database::SqlDb;
use std::alloc::Global;

/// What a run did, and the world that it leaves.
#[derive(Drop)]
pub struct Ended<F, D, X, S, K, E, H> {
    pub answer: Result<Done, Refusal>,
    pub world: World<F, D, X, S, K, E, H>,
}

// Answers a request over tables that are kept on the disk.
fn query_paged<F: Files, D: Door, X: Disk, S: Source, K: Sink, E: Sink, H: Hall>(
    alloc: Global,
    dir: &Txt,
    headers: &Headers,
    world: World<F, D, X, S, K, E, H>,
) -> Ended<F, D, X, S, K, E, H>
    ensures runs { Runs (Some (Command.Query dir.now headers.now true)) (⟦<World<F, D, X, S, K, E, H> as Observed>⟧.seen world)
        (⟦<World<F, D, X, S, K, E, H> as Observed>⟧.seen result.world) result.answer }
    ensures read { IsErrOf result.answer Refusal.ReadFailed
        → ReadCause (Some (Command.Query dir.now headers.now true)) (⟦<World<F, D, X, S, K, E, H> as Observed>⟧.seen world)
        (⟦<World<F, D, X, S, K, E, H> as Observed>⟧.seen result.world) }
    ensures silent { Silent (K.written world.out) (K.written result.world.out) result.answer }
    ensures door { result.world.door ≡ world.door }
    ensures hall { result.world.hall ≡ world.hall }
    ensures words { IsErrOf result.answer Refusal.BadWords → ⊥ }
    ensures write { IsErrOf result.answer Refusal.WriteFailed → Rose (K.faults world.out) (K.faults result.world.out) }
    ensures err { result.world.err ≡ world.err }
    ensures folder { F.folder result.world.files ≡ F.folder world.files }
    ensures later { NoneFell (⟦<World<F, D, X, S, K, E, H> as Observed>⟧.seen world) (⟦<World<F, D, X, S, K, E, H> as Observed>⟧.seen result.world) }
{
    let World {
        mut files,
        door,
        disk,
        mut input,
        mut out,
        err,
        hall,
    } = world;
    let done = query_on_disk(alloc, dir, headers, &mut files, disk, &mut input, &mut out);
    Ended {
        answer: done.answer,
        world: World {
            files,
            door,
            disk: done.disk,
            input,
            out,
            err,
            hall,
        },
    }
}

// Serves over tables that are kept on the disk.
fn serve_paged<F: Files, D: Door, X: Disk, S: Source, K: Sink, E: Sink, H: Hall>(
    alloc: Global,
    dir: &Txt,
    rule: &SecretRule,
    port: u16,
    connections: u32,
    world: World<F, D, X, S, K, E, H>,
) -> Ended<F, D, X, S, K, E, H>
    ensures runs { Runs (Some (Command.Serve dir.now port connections rule.now.secret rule.now.unauthorized true))
        (⟦<World<F, D, X, S, K, E, H> as Observed>⟧.seen world) (⟦<World<F, D, X, S, K, E, H> as Observed>⟧.seen result.world)
        result.answer }
    ensures read { IsErrOf result.answer Refusal.ReadFailed
        → ReadCause (Some (Command.Serve dir.now port connections rule.now.secret rule.now.unauthorized true))
        (⟦<World<F, D, X, S, K, E, H> as Observed>⟧.seen world) (⟦<World<F, D, X, S, K, E, H> as Observed>⟧.seen result.world) }
    ensures failed { IfErr result.answer NotDatabase }
    ensures input { result.world.input ≡ world.input }
    ensures hall { result.world.hall ≡ world.hall }
    ensures words { IsErrOf result.answer Refusal.BadWords → ⊥ }
    ensures write { IsErrOf result.answer Refusal.WriteFailed → Rose (K.faults world.out) (K.faults result.world.out) }
    ensures err { result.world.err ≡ world.err }
    ensures folder { F.folder result.world.files ≡ F.folder world.files }
    ensures later { NoneFell (⟦<World<F, D, X, S, K, E, H> as Observed>⟧.seen world) (⟦<World<F, D, X, S, K, E, H> as Observed>⟧.seen result.world) }
{
    let World {
        mut files,
        mut door,
        disk,
        input,
        mut out,
        err,
        hall,
    } = world;
    let (files_in, door_in, out_in) = (&mut files, &mut door, &mut out);
    let done = serve_on_disk(
        alloc,
        dir,
        rule,
        port,
        connections,
        files_in,
        disk,
        door_in,
        out_in,
    );
    Ended {
        answer: done.answer,
        world: World {
            files,
            door,
            disk: done.disk,
            input,
            out,
            err,
            hall,
        },
    }
}

// Does what a command asks.
fn obey<F: Files, D: Door, X: Disk, S: Source, K: Sink, E: Sink, H: Hall>(
    alloc: Global,
    command: Command,
    world: World<F, D, X, S, K, E, H>,
) -> Ended<F, D, X, S, K, E, H>
    requires { HasFewAuthors command }
    ensures runs { Runs (Some command) (⟦<World<F, D, X, S, K, E, H> as Observed>⟧.seen world) (⟦<World<F, D, X, S, K, E, H> as Observed>⟧.seen result.world) result.answer }
    ensures read { IsErrOf result.answer Refusal.ReadFailed
        → ReadCause (Some command) (⟦<World<F, D, X, S, K, E, H> as Observed>⟧.seen world)
        (⟦<World<F, D, X, S, K, E, H> as Observed>⟧.seen result.world) }
    ensures silent { tells_lines (Some command) ≡ false → tells_files (Some command) ≡ false → Silent (K.written world.out) (K.written result.world.out) result.answer }
    ensures words { result.answer ≢ Err Refusal.BadWords }
    ensures input { reads_input (Some command) ≡ false → result.world.input ≡ world.input }
    ensures door { opens_door (Some command) ≡ false → result.world.door ≡ world.door }
    ensures hall { opens_hall (Some command) ≡ false → result.world.hall ≡ world.hall }
    ensures write { IsErrOf result.answer Refusal.WriteFailed → Rose (K.faults world.out) (K.faults result.world.out) }
    ensures failed { IfErr result.answer (MayFail (Some command) (⟦<World<F, D, X, S, K, E, H> as Observed>⟧.seen world) (⟦<World<F, D, X, S, K, E, H> as Observed>⟧.seen result.world)) }
    ensures disk { uses_disk (Some command) ≡ false → result.world.disk ≡ world.disk }
    ensures err { result.world.err ≡ world.err }
    ensures folder { F.folder result.world.files ≡ F.folder world.files }
    ensures later { NoneFell (⟦<World<F, D, X, S, K, E, H> as Observed>⟧.seen world) (⟦<World<F, D, X, S, K, E, H> as Observed>⟧.seen result.world) }
{
    let mut world = world;
    match command {
        Command::Query {
            dir,
            headers,
            paged,
        } => {
            if paged {
                return query_paged(alloc, &dir, &headers, world);
            }
            let (files, input, out) = (&mut world.files, &mut world.input, &mut world.out);
            let answer = query(alloc, &dir, &headers, files, input, out);
            Ended { answer, world }
        }
        Command::Sql { dir, headers } => {
            let (files, input, out) = (&mut world.files, &mut world.input, &mut world.out);
            let answer = sql(alloc, &dir, &headers, files, input, out);
            Ended { answer, world }
        }
        Command::Explain { dir, headers } => {
            let (files, input, out) = (&mut world.files, &mut world.input, &mut world.out);
            let answer = explain(alloc, &dir, &headers, files, input, out);
            Ended { answer, world }
        }
        Command::Confine { dir, headers } => {
            let (files, input, out) = (&mut world.files, &mut world.input, &mut world.out);
            let answer = confine(alloc, &dir, &headers, files, input, out);
            Ended { answer, world }
        }
        Command::Copy { dir, part, headers } => {
            let (files, out) = (&mut world.files, &mut world.out);
            let answer = copy(alloc, &dir, &part, &headers, files, out);
            Ended { answer, world }
        }
        Command::Check { dir } => {
            let answer = check(alloc, &dir, &mut world.files, &mut world.out);
            Ended { answer, world }
        }
        Command::Serve {
            dir,
            port,
            connections,
            secret,
            unauthorized,
            paged,
        } => {
            let rule = SecretRule {
                secret,
                unauthorized,
            };
            if paged {
                return serve_paged(alloc, &dir, &rule, port, connections, world);
            }
            let (files, door, out) = (&mut world.files, &mut world.door, &mut world.out);
            let answer = serve(alloc, &dir, &rule, port, connections, files, door, out);
            Ended { answer, world }
        }
        Command::Live {
            dir,
            port,
            connections,
            secret,
            unauthorized,
        } => {
            let rule = SecretRule {
                secret,
                unauthorized,
            };
            live_over(alloc, dir, &rule, port, connections, world)
        }
        Command::Gen { n } => {
            let answer = generate_and_answer(alloc, n, &mut world.out);
            Ended { answer, world }
        }
        Command::Show { page } => {
            let answer = show(page, &mut world.out);
            Ended { answer, world }
        }
    }
}

// Reads the words, and does what they ask.
fn answered<F: Files, D: Door, X: Disk, S: Source, K: Sink, E: Sink, H: Hall>(
    alloc: Global,
    words: &[Txt],
    world: World<F, D, X, S, K, E, H>,
) -> Ended<F, D, X, S, K, E, H>
    ensures runs { Runs (command_of words.now) (⟦<World<F, D, X, S, K, E, H> as Observed>⟧.seen world) (⟦<World<F, D, X, S, K, E, H> as Observed>⟧.seen result.world) result.answer }
    ensures read { IsErrOf result.answer Refusal.ReadFailed
        → ReadCause (command_of words.now) (⟦<World<F, D, X, S, K, E, H> as Observed>⟧.seen world)
        (⟦<World<F, D, X, S, K, E, H> as Observed>⟧.seen result.world) }
    ensures silent { tells_lines (command_of words.now) ≡ false → tells_files (command_of words.now) ≡ false → Silent (K.written world.out) (K.written result.world.out) result.answer }
    ensures words { IsErrOf result.answer Refusal.BadWords → command_of words.now ≡ None }
    ensures input { reads_input (command_of words.now) ≡ false → result.world.input ≡ world.input }
    ensures door { opens_door (command_of words.now) ≡ false → result.world.door ≡ world.door }
    ensures hall { opens_hall (command_of words.now) ≡ false → result.world.hall ≡ world.hall }
    ensures write { IsErrOf result.answer Refusal.WriteFailed → Rose (K.faults world.out) (K.faults result.world.out) }
    ensures failed { IfErr result.answer (MayFail (command_of words.now) (⟦<World<F, D, X, S, K, E, H> as Observed>⟧.seen world) (⟦<World<F, D, X, S, K, E, H> as Observed>⟧.seen result.world)) }
    ensures disk { uses_disk (command_of words.now) ≡ false → result.world.disk ≡ world.disk }
    ensures err { result.world.err ≡ world.err }
    ensures folder { F.folder result.world.files ≡ F.folder world.files }
    ensures later { NoneFell (⟦<World<F, D, X, S, K, E, H> as Observed>⟧.seen world) (⟦<World<F, D, X, S, K, E, H> as Observed>⟧.seen result.world) }
{
    match Command::read(alloc, words) {
        Ok(command) => obey(alloc, command, world),
        Err(refusal) => Ended {
            answer: Err(refusal.into()),
            world,
        },
    }
}

/// Answers one request over a database of the engine's catalog: reads it from the input to its end, writes the reply's body,
/// and tells a refusal on standard error. Gives the status that the program ends with: 0, 1 where the reply tells a fault, or
/// 4, 5, 6, 7 or 8.
pub fn answer_one<T: Tables, S: Source, K: Sink, E: Sink>(
    alloc: Global,
    engine: &Engine,
    session: &Session,
    db: &mut SqlDb<T>,
    input: &mut S,
    out: &mut K,
    err: &mut E,
) -> u8
    requires catalog { ⟦<SqlDb<T> as Database>⟧.tables db.old ≡ engine.now.catalog.tables }

    // The status is that of an answer, and standard error has its line. The answer is the due one unless memory or an object of
    // the outside failed; exactly the text of the request was asked for it, and once.
    ensures ends { (answer : Outcome) × (result ≡ status_of answer)
        × Tells (E.written err.old) (E.written err.new) (E.faults err.old) (E.faults err.new) (told_line answer)
        × IfSome (S.left input.old) (λ left. Answers engine.now session.now (⟦<SqlDb<T> as Database>⟧.database db.old) left (K.written out.old) (K.written out.new)
        (record { asks = ⟦<SqlDb<T> as Database>⟧.asks db.old; last = ⟦<SqlDb<T> as Database>⟧.last db.old })
        (record { asks = ⟦<SqlDb<T> as Database>⟧.asks db.new; last = ⟦<SqlDb<T> as Database>⟧.last db.new }) answer) }

    // Over each database that the session cannot tell apart from this one, the same answer is due.
    ensures alike { (answer : Outcome) × (result ≡ status_of answer) × IfSome (S.left input.old) (λ left.
        AnswersAlike engine.now session.now (⟦<SqlDb<T> as Database>⟧.database db.old) left (K.written out.old) (K.written out.new)
        (record { asks = ⟦<SqlDb<T> as Database>⟧.asks db.old; last = ⟦<SqlDb<T> as Database>⟧.last db.old })
        (record { asks = ⟦<SqlDb<T> as Database>⟧.asks db.new; last = ⟦<SqlDb<T> as Database>⟧.last db.new }) answer) }

    // Nothing is written at a status other than 0, 1 and 5.
    ensures silent { result ≢ 0 → result ≢ 1 → result ≢ 5 → K.written out.new ≡ K.written out.old }

    // It ends neither by its words nor by a file.
    ensures words { result ≢ 2 }
    ensures file { result ≢ 3 }

    // A failure is told only where the count of that object rose.
    ensures read { result ≡ 4 → Rose (S.faults input.old) (S.faults input.new) }
    ensures write { result ≡ 5 → Rose (K.faults out.old) (K.faults out.new) }
    ensures failed { result ≡ 6 → Rose (⟦<SqlDb<T> as Database>⟧.faults db.old) (⟦<SqlDb<T> as Database>⟧.faults db.new) }

    // The database is unchanged, so that the same call again, after a failure too, answers as if it were the first.
    ensures tables { ⟦<SqlDb<T> as Database>⟧.tables db.new ≡ ⟦<SqlDb<T> as Database>⟧.tables db.old }
    ensures database { ⟦<SqlDb<T> as Database>⟧.database db.new ≡ ⟦<SqlDb<T> as Database>⟧.database db.old }

    // No count falls.
    ensures input_later { S.faults input.old ≤ S.faults input.new }
    ensures out_later { K.faults out.old ≤ K.faults out.new }
    ensures db_later { ⟦<SqlDb<T> as Database>⟧.faults db.old ≤ ⟦<SqlDb<T> as Database>⟧.faults db.new }
{
    outputs_agree();
    tell(err, reply_to(alloc, engine, session, db, input, out))
}

/// The program. `query DIR [HEADER]...` answers the request on the standard input over the directory, for the session of the
/// headers; `sql DIR [HEADER]...` writes the text of SQL that is asked for it and a line end, or `none` and a line end where
/// none is. `explain DIR [HEADER]...` tells a person of it, or of the directory where that is refused. `confine DIR [HEADER]...` writes of
/// a text of SQL on the standard input `yes`, `no: X2 t1` with the rule and the alias, `not sql` or `not typed`. `copy DIR PART [HEADER]...`
/// writes a part of the redacted copy of the directory: its catalog, its metadata or the file of a table. `check DIR` loads the
/// directory and writes `ok: T tables, R roles, N rows`. `serve DIR --port P --connections N`
/// serves so many connections of HTTP at this machine's port, one after the other, and writes a line after each. With `--paged` these
/// two keep the tables on the disk, under the name `hq.pages` in the directory. `live DIR --port P --connections N` talks of live
/// queries with so many peers of a WebSocket, one after the other, and writes a line after each. `gen N` makes a
/// database of N authors, answers five requests over it, and writes how long the replies are. `help`, `--help` or `-h` writes the
/// commands and the statuses, and `--version` the program's line and the kit's. Everything that it touches is handed in, and handed back with
/// the status that the program ends with.
pub fn run<F: Files, D: Door, X: Disk, S: Source, K: Sink, E: Sink, H: Hall>(
    alloc: Global,
    words: &[Txt],
    world: World<F, D, X, S, K, E, H>,
) -> Ran<F, D, X, S, K, E, H>
    // The status is that of an answer, and standard error has its line. The answer is the one that is due for the command that
    // the words ask for, unless memory or an object of the outside failed.
    ensures ends { EndsWith (command_of words.now) (⟦<World<F, D, X, S, K, E, H> as Observed>⟧.seen world) (⟦<World<F, D, X, S, K, E, H> as Observed>⟧.seen result.world) result.status }

    // Nothing is written at a status other than 0, 1 and 5, but the lines of `serve` and `live`, and what `explain` tells of a refused file.
    ensures silent { tells_lines (command_of words.now) ≡ false → tells_files (command_of words.now) ≡ false → result.status ≢ 0 → result.status ≢ 1 → result.status ≢ 5
        → K.written result.world.out ≡ K.written world.out }

    // It ends with 2 only where the words ask for no command, and there with nothing else but want of memory.
    ensures words { result.status ≡ 2 → command_of words.now ≡ None }
    ensures bad_words { command_of words.now ≡ None → (result.status ≡ 2) ⊎ (result.status ≡ 7) }

    // A failure is told only where the count of that object rose, as the command uses it.
    ensures read { result.status ≡ 4 → ReadCause (command_of words.now) (⟦<World<F, D, X, S, K, E, H> as Observed>⟧.seen world) (⟦<World<F, D, X, S, K, E, H> as Observed>⟧.seen result.world) }
    ensures write { result.status ≡ 5 → Rose (K.faults world.out) (K.faults result.world.out) }
    ensures database { result.status ≡ 6 → DatabaseCause (command_of words.now) (⟦<World<F, D, X, S, K, E, H> as Observed>⟧.seen world) (⟦<World<F, D, X, S, K, E, H> as Observed>⟧.seen result.world) }

    // A command that reads no input leaves it, one that opens no door leaves that, and so with the hall and, without `--paged`, the disk. The folder is
    // unchanged, and no count falls.
    ensures input { reads_input (command_of words.now) ≡ false → result.world.input ≡ world.input }
    ensures door { opens_door (command_of words.now) ≡ false → result.world.door ≡ world.door }
    ensures hall { opens_hall (command_of words.now) ≡ false → result.world.hall ≡ world.hall }
    ensures disk { uses_disk (command_of words.now) ≡ false → result.world.disk ≡ world.disk }
    ensures folder { F.folder result.world.files ≡ F.folder world.files }
    ensures later { NoneFell (⟦<World<F, D, X, S, K, E, H> as Observed>⟧.seen world) (⟦<World<F, D, X, S, K, E, H> as Observed>⟧.seen result.world) }
{
    let Ended { answer, mut world } = answered(alloc, words, world);
    let status = tell(&mut world.err, answer);
    Ran { status, world }
}
