ghost use Rattle.std.specs.Prelude.{◌≡◌, ◌≢◌, ◌≤◌, length, IfOk, IfErr, IfSome, IfNone, IsErrOf};
ghost use Rattle.hq_io.specs.Causes.{Rose};
ghost use Rattle.hq_load.specs.Told.{GivesUnless};
ghost use Rattle.hq_load.specs.Directory.{path_in, table_file, file_due};

use hq_base::{Bytes, Memory, Txt};
use hq_io::{FileRefusal, Files, LARGEST_FILE};
use hq_model::Table;
use std::alloc::Global;

// The name under which a directory's file is loaded.
fn path(alloc: Global, dir: &Txt, file: &Txt) -> Result<Txt, Memory>
    ensures { IfOk result (λ path. path ≡ path_in dir.now file.now) }
{
    let mut path = dir.copy(alloc)?;
    path.push_str("/")?;
    path.push_txt(file)?;
    Ok(path)
}

/// The name of a table's file.
pub fn table_file_name(alloc: Global, table: &Table) -> Result<Txt, Memory>
    ensures { IfOk result (λ name. name ≡ table_file table.now) }
{
    let mut name = table.schema.copy(alloc)?;
    name.push_str(".")?;
    name.push_txt(&table.name)?;
    name.push_str(".csv")?;
    Ok(name)
}

/// Loads a file of a directory whole.
pub fn load_file<F: Files>(
    alloc: Global,
    files: &mut F,
    dir: &Txt,
    file: &Txt,
) -> Result<Bytes, FileRefusal>
    ensures told { IfSome (F.folder files.old) (λ folder.
        GivesUnless (λ bytes. bytes) FileRefusal.Memory FileRefusal.Failed (file_due folder dir.now file.now) result) }
    ensures untold { IfNone (F.folder files.old) (IfErr result (λ e. e ≢ FileRefusal.Memory → Rose (F.faults files.old) (F.faults files.new))) }
    ensures within { IfOk result (λ bytes. length bytes ≤ LARGEST_FILE) }
    ensures failed { IsErrOf result FileRefusal.Failed → Rose (F.faults files.old) (F.faults files.new) }
    ensures folder { F.folder files.new ≡ F.folder files.old }
    ensures later { F.faults files.old ≤ F.faults files.new }
{
    let path = path(alloc, dir, file)?;
    let mut bytes = Bytes::new(alloc);
    files.load(alloc, &path, &mut bytes)?;
    Ok(bytes)
}
