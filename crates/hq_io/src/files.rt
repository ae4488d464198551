ghost use Rattle.std.specs.Prelude.{◌≡◌, ◌≤◌, ◌↔◌, ℕ, List as Items, [], OnErr, IsErrOf, IfSome, IsTrue};
ghost use Rattle.std.specs.declared.option.Option.{Option};
ghost use Rattle.std.specs.List.{list_any};
ghost use Rattle.std.specs.Str.{bytes_eq};
ghost use Rattle.hq_io.specs.declared.files.File.{File};
ghost use Rattle.hq_io.specs.Causes.{Rose};
ghost use Rattle.hq_io.specs.Folder.{Loads, NamesDiffer};

use hq_base::{Bytes, List, Memory, Txt};
use std::alloc::Global;
use thiserror::Error;

/// The most bytes of a file that is loaded: 256 MiB.
pub const LARGEST_FILE: usize = 268_435_456;

/// A file of a folder.
#[derive(Drop)]
pub struct File {
    pub name: Txt,
    pub bytes: Bytes,
}

/// Files in order.
pub type FileList = List<File>;

/// Why a file was not loaded.
#[derive(Clone, Copy, Debug, PartialEq, Eq, Error)]
pub enum FileRefusal {
    /// The folder has no file of this name.
    #[error("no such file")]
    Missing,
    /// The system failed, and the count of faults rose.
    #[error("load failed")]
    Failed,
    #[error("out of memory")]
    Memory,
    /// The file has more than `LARGEST_FILE` bytes.
    #[error("file too large")]
    TooLarge,
}

impl From<Memory> for FileRefusal {
    ghost use Rattle.std.specs.Prelude.{◌≡◌};
    ghost use Rattle.hq_io.specs.declared.files.FileRefusal.TheVariants as refusal;

    ghost from_gives = { λ _ e. e ≡ refusal.Memory };

    fn from(_: Memory) -> Self {
        FileRefusal::Memory
    }
}

/// A folder to load files from.
pub trait Files {
    /// The files, where they are told.
    ghost folder: { Self → Option (Items File) };

    /// How often it has failed.
    ghost faults: { Self → ℕ };

    /// How often it has failed. At its last value the count stays.
    fn faults(&self) -> u64
        ensures { result ≡ faults self.now };

    /// Loads the file of this name whole. After a refusal the buffer is empty.
    fn load(&mut self, alloc: Global, name: &Txt, into: &mut Bytes) -> Result<(), FileRefusal>
        ensures answer { Loads (folder self.old) name.now (faults self.old) (faults self.new) result into.new }
        ensures failed { IsErrOf result FileRefusal.Failed → Rose (faults self.old) (faults self.new) }
        ensures empty { OnErr result (into.new ≡ []) }
        ensures folder { folder self.new ≡ folder self.old }
        ensures later { faults self.old ≤ faults self.new };

    /// The names of a folder differ.
    ghost names_differ: { (files : Self) → IfSome (folder files) NamesDiffer };
}

// Whether one of the files has this name.
fn has_name(files: &[File], name: &Txt) -> bool
    ensures { result ≡ list_any (λ file. bytes_eq name.now file.name) files.now }
{
    files.iter().any(|file| name.as_str() == file.name.as_str())
}

/// Whether the names of the files differ, as those of a folder do.
pub fn names_differ(files: &[File]) -> bool
    ensures { IsTrue result ↔ NamesDiffer files.now }
{
    let mut rest = files;
    while let [file, others @ ..] = rest {
        if has_name(others, &file.name) {
            return false;
        }
        rest = others;
    }
    true
}
