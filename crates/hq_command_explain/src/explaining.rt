//! Telling a person of a request, or of a directory that is refused.
ghost use Rattle.std.specs.Prelude.{◌≡◌, ◌≢◌, ◌≤◌, ◌⊎◌, length, IsErrOf, IfSome, IfErr, Err};
ghost use Rattle.hq_io.specs.Causes.{Rose};
ghost use Rattle.hq_model.specs.Meta.{meta_view};
ghost use Rattle.hq_command.specs.Ending.{NotDatabase, Silent};
ghost use Rattle.hq_command_explain.specs.Explaining.{Explains, SilentButOfFiles, accepted, at_fault, explain_output, input_explained};
ghost use Rattle.hq_schema.specs.Schema.{schema_view};
ghost use Rattle.hq_schema_of_role.specs.RoleSchema.{role_schema};
ghost use Rattle.hq_model.specs.Permission.{role_of};

use hq_base::{Bytes, Memory, Txt};
use hq_command::{Done, INPUT_LIMIT, Refusal, caller};
use hq_engine::{Engine, Stated};
use hq_explain::{accepted_words, fault_front, fault_words};
use hq_explain_files::{catalog_words, metadata_words, missing_words, table_words};
use hq_faults::RequestFault;
use hq_io::{FileRefusal, Files, Sink, Source, read_all, write_all};
use hq_load::{
    FileFault, Loaded, LoadingRefusal, load, load_catalog, load_file, table_file_name, write_both,
};
use hq_load_tables::LoadRefusal;
use hq_model::{Catalog, Role, Session};
use hq_request::{RequestRefusal, request};
use hq_request_tree::Ask;
use hq_schema::Schema;
use hq_session::Headers;
use std::alloc::Global;

// Tells of an accepted request.
fn write_accepted<K: Sink>(
    alloc: Global,
    engine: &Engine,
    session: &Session,
    body: &[u8],
    ask: &Ask,
    out: &mut K,
) -> Result<Done, Refusal>
    requires { length body.now ≤ INPUT_LIMIT }
    ensures told { Explains (K.written out.old) (K.written out.new) accepted result }
    ensures silent { Silent (K.written out.old) (K.written out.new) result }
    ensures write { IsErrOf result Refusal.WriteFailed → Rose (K.faults out.old) (K.faults out.new) }
    ensures others { IfErr result (λ e. (e ≡ Refusal.WriteFailed) ⊎ (e ≡ Refusal.Memory)) }
    ensures later { K.faults out.old ≤ K.faults out.new }
{
    let stated = engine.statement(alloc, session, body)?;
    let text = match &stated {
        Stated::Text(text) => Some(text.as_slice()),
        Stated::NoStatement | Stated::Fault(_) => None,
    };
    let words = accepted_words(alloc, &engine.catalog, &engine.meta, ask, text)?;
    write_both(out, b"ok: ", words.as_slice())?;
    Ok(Done::Answered)
}

// Tells of a fault.
fn write_fault<K: Sink>(
    alloc: Global,
    schema: &Schema,
    session: &Session,
    body: &[u8],
    fault: &RequestFault,
    out: &mut K,
) -> Result<Done, Refusal>
    ensures told { Explains (K.written out.old) (K.written out.new) (at_fault body.now fault.now) result }
    ensures silent { Silent (K.written out.old) (K.written out.new) result }
    ensures write { IsErrOf result Refusal.WriteFailed → Rose (K.faults out.old) (K.faults out.new) }
    ensures others { IfErr result (λ e. (e ≡ Refusal.WriteFailed) ⊎ (e ≡ Refusal.Memory)) }
    ensures later { K.faults out.old ≤ K.faults out.new }
{
    let front = fault_front(alloc, body, fault)?;
    let words = fault_words(alloc, schema, session, body, fault)?;
    write_both(out, front.as_slice(), words.as_slice())?;
    Ok(Done::Faulty)
}

// Tells of a body, in the schema of the session's role.
fn explain_in<K: Sink>(
    alloc: Global,
    engine: &Engine,
    schema: &Schema,
    session: &Session,
    body: &[u8],
    out: &mut K,
) -> Result<Done, Refusal>
    requires short { length body.now ≤ INPUT_LIMIT }
    requires schema { schema_view schema.now ≡ role_schema engine.now.catalog.tables (meta_view engine.now.meta) (role_of session.now.role) }
    ensures told { Explains (K.written out.old) (K.written out.new) (input_explained engine.now.catalog.tables (meta_view engine.now.meta) session.now body.now) result }
    ensures silent { Silent (K.written out.old) (K.written out.new) result }
    ensures read { result ≢ Err Refusal.ReadFailed }
    ensures write { IsErrOf result Refusal.WriteFailed → Rose (K.faults out.old) (K.faults out.new) }
    ensures failed { IfErr result NotDatabase }
    ensures words { result ≢ Err Refusal.BadWords }
    ensures later { K.faults out.old ≤ K.faults out.new }
{
    match request(alloc, schema, &engine.catalog, &engine.meta, session, body) {
        Ok(ask) => write_accepted(alloc, engine, session, body, &ask, out),
        Err(RequestRefusal::Fault(fault)) => write_fault(alloc, schema, session, body, &fault, out),
        Err(RequestRefusal::Memory) => Err(Refusal::Memory),
    }
}

// Tells of a body.
fn explain_over<K: Sink>(
    alloc: Global,
    engine: &Engine,
    session: &Session,
    body: &[u8],
    out: &mut K,
) -> Result<Done, Refusal>
    requires { length body.now ≤ INPUT_LIMIT }
    ensures told { Explains (K.written out.old) (K.written out.new) (input_explained engine.now.catalog.tables (meta_view engine.now.meta) session.now body.now) result }
    ensures silent { Silent (K.written out.old) (K.written out.new) result }
    ensures read { result ≢ Err Refusal.ReadFailed }
    ensures write { IsErrOf result Refusal.WriteFailed → Rose (K.faults out.old) (K.faults out.new) }
    ensures failed { IfErr result NotDatabase }
    ensures words { result ≢ Err Refusal.BadWords }
    ensures later { K.faults out.old ≤ K.faults out.new }
{
    let role = Role::of(alloc, session)?;
    let found = engine.schema(alloc, &role)?;
    explain_in(alloc, engine, found.get(), session, body, out)
}

// Reads a body, and tells of it.
fn explain_to<S: Source, K: Sink>(
    alloc: Global,
    engine: &Engine,
    session: &Session,
    input: &mut S,
    out: &mut K,
) -> Result<Done, Refusal>
    ensures told { IfSome (S.left input.old) (λ left. Explains (K.written out.old) (K.written out.new)
        (input_explained engine.now.catalog.tables (meta_view engine.now.meta) session.now left) result) }
    ensures silent { Silent (K.written out.old) (K.written out.new) result }
    ensures read { IsErrOf result Refusal.ReadFailed → Rose (S.faults input.old) (S.faults input.new) }
    ensures write { IsErrOf result Refusal.WriteFailed → Rose (K.faults out.old) (K.faults out.new) }
    ensures failed { IfErr result NotDatabase }
    ensures words { result ≢ Err Refusal.BadWords }
    ensures input_later { S.faults input.old ≤ S.faults input.new }
    ensures out_later { K.faults out.old ≤ K.faults out.new }
{
    let body = read_all(alloc, input, INPUT_LIMIT)?;
    explain_over(alloc, engine, session, body.as_slice(), out)
}

// Tells of the body on the input, over what a directory holds.
fn explain_loaded<S: Source, K: Sink>(
    alloc: Global,
    loaded: Loaded,
    session: &Session,
    input: &mut S,
    out: &mut K,
) -> Result<Done, Refusal>
    ensures told { IfSome (S.left input.old) (λ left. Explains (K.written out.old) (K.written out.new)
        (input_explained loaded.catalog.tables (meta_view loaded.meta) session.now left) result) }
    ensures silent { Silent (K.written out.old) (K.written out.new) result }
    ensures read { IsErrOf result Refusal.ReadFailed → Rose (S.faults input.old) (S.faults input.new) }
    ensures write { IsErrOf result Refusal.WriteFailed → Rose (K.faults out.old) (K.faults out.new) }
    ensures failed { IfErr result NotDatabase }
    ensures words { result ≢ Err Refusal.BadWords }
    ensures input_later { S.faults input.old ≤ S.faults input.new }
    ensures out_later { K.faults out.old ≤ K.faults out.new }
{
    let Loaded { catalog, meta, .. } = loaded;
    let role = Role::of(alloc, session)?;
    let engine = Engine::of_role(alloc, catalog, meta, role)?;
    explain_to(alloc, &engine, session, input, out)
}

// The bytes of a file, None where they are not loaded again.
fn bytes_of<F: Files>(
    alloc: Global,
    files: &mut F,
    dir: &Txt,
    file: &Txt,
) -> Result<Option<Bytes>, Memory>
    ensures folder { F.folder files.new ≡ F.folder files.old }
    ensures later { F.faults files.old ≤ F.faults files.new }
{
    match load_file(alloc, files, dir, file) {
        Ok(bytes) => Ok(Some(bytes)),
        Err(FileRefusal::Memory) => Err(Memory),
        Err(_) => Ok(None),
    }
}

// What is told of a refused table file.
fn words_of_table<F: Files>(
    alloc: Global,
    files: &mut F,
    dir: &Txt,
    file: &Txt,
    catalog: &Catalog,
    refusal: LoadRefusal,
) -> Result<Bytes, Memory>
    ensures folder { F.folder files.new ≡ F.folder files.old }
    ensures later { F.faults files.old ≤ F.faults files.new }
{
    let Some(bytes) = bytes_of(alloc, files, dir, file)? else {
        return Ok(Bytes::new(alloc));
    };
    for table in catalog.tables.as_slice() {
        if table_file_name(alloc, table)? == *file {
            return table_words(alloc, bytes.as_slice(), table, refusal);
        }
    }
    Ok(Bytes::new(alloc))
}

// The catalog of a directory, None where it is not loaded again.
fn catalog_of<F: Files>(alloc: Global, files: &mut F, dir: &Txt) -> Result<Option<Catalog>, Memory>
    ensures folder { F.folder files.new ≡ F.folder files.old }
    ensures later { F.faults files.old ≤ F.faults files.new }
{
    match load_catalog(alloc, files, dir) {
        Ok(catalog) => Ok(Some(catalog)),
        Err(LoadingRefusal::Memory) => Err(Memory),
        Err(_) => Ok(None),
    }
}

// What is told of a file that is refused over a catalog.
fn words_over<F: Files>(
    alloc: Global,
    files: &mut F,
    dir: &Txt,
    file: &Txt,
    catalog: &Catalog,
    fault: &FileFault,
) -> Result<Bytes, Memory>
    ensures folder { F.folder files.new ≡ F.folder files.old }
    ensures later { F.faults files.old ≤ F.faults files.new }
{
    match fault {
        FileFault::Meta(refusal) => match bytes_of(alloc, files, dir, file)? {
            Some(bytes) => metadata_words(alloc, bytes.as_slice(), catalog, refusal),
            None => Ok(Bytes::new(alloc)),
        },
        FileFault::Table(refusal) => words_of_table(alloc, files, dir, file, catalog, *refusal),
        FileFault::Missing | FileFault::TooLarge | FileFault::Catalog(_) => Ok(Bytes::new(alloc)),
    }
}

// What is told of a refused file.
fn words_of<F: Files>(
    alloc: Global,
    files: &mut F,
    dir: &Txt,
    file: &Txt,
    fault: &FileFault,
) -> Result<Bytes, Memory>
    ensures folder { F.folder files.new ≡ F.folder files.old }
    ensures later { F.faults files.old ≤ F.faults files.new }
{
    match fault {
        FileFault::Missing => missing_words(alloc, dir, file, true),
        FileFault::TooLarge => missing_words(alloc, dir, file, false),
        FileFault::Catalog(refusal) => match bytes_of(alloc, files, dir, file)? {
            Some(bytes) => catalog_words(alloc, bytes.as_slice(), refusal),
            None => Ok(Bytes::new(alloc)),
        },
        FileFault::Meta(_) | FileFault::Table(_) => match catalog_of(alloc, files, dir)? {
            Some(catalog) => words_over(alloc, files, dir, file, &catalog, fault),
            None => Ok(Bytes::new(alloc)),
        },
    }
}

// Tells of a refused file, as far as that can be written.
fn explain_file<F: Files, K: Sink>(
    alloc: Global,
    files: &mut F,
    dir: &Txt,
    file: &Txt,
    fault: &FileFault,
    out: &mut K,
)
    ensures folder { F.folder files.new ≡ F.folder files.old }
    ensures files_later { F.faults files.old ≤ F.faults files.new }
    ensures out_later { K.faults out.old ≤ K.faults out.new }
{
    if let Ok(words) = words_of(alloc, files, dir, file, fault) {
        let _ = write_all(out, words.as_slice());
    }
}

/// Loads a directory, and tells of the request on the input for the session of the headers, or of the file that is refused.
pub fn explain<F: Files, S: Source, K: Sink>(
    alloc: Global,
    dir: &Txt,
    headers: &Headers,
    files: &mut F,
    input: &mut S,
    out: &mut K,
) -> Result<Done, Refusal>
    ensures told { IfSome (F.folder files.old) (λ folder. IfSome (S.left input.old) (λ left.
        Explains (K.written out.old) (K.written out.new) (explain_output dir.now headers.now folder left) result)) }
    ensures silent { SilentButOfFiles (K.written out.old) (K.written out.new) result }
    ensures words { IsErrOf result Refusal.BadWords → ⊥ }
    ensures read { IsErrOf result Refusal.ReadFailed →
        Rose (F.faults files.old) (F.faults files.new) × (S.left input.new ≡ S.left input.old)
        ⊎ Rose (S.faults input.old) (S.faults input.new) }
    ensures write { IsErrOf result Refusal.WriteFailed → Rose (K.faults out.old) (K.faults out.new) }
    ensures failed { IfErr result NotDatabase }
    ensures folder { F.folder files.new ≡ F.folder files.old }
    ensures files_later { F.faults files.old ≤ F.faults files.new }
    ensures input_later { S.faults input.old ≤ S.faults input.new }
    ensures out_later { K.faults out.old ≤ K.faults out.new }
{
    let session = caller(alloc, headers)?;
    match load(alloc, files, dir) {
        Ok(loaded) => explain_loaded(alloc, loaded, &session, input, out),
        Err(LoadingRefusal::File { file, fault }) => {
            explain_file(alloc, files, dir, &file, &fault, out);
            Err(Refusal::File { file, fault })
        }
        Err(LoadingRefusal::Failed) => Err(Refusal::ReadFailed),
        Err(LoadingRefusal::Memory) => Err(Refusal::Memory),
    }
}
