ghost use Rattle.std.specs.Prelude.{◌≡◌, ◌≤◌, [], Some, OnErr, IsErr, IsErrOf, MatchOption, None};
ghost use Rattle.hq_io.specs.Causes.{Rose};
ghost use Rattle.hq_io.specs.Folder.{NamesDiffer, Loads, file_named};
ghost use Rattle.hq_io_memory.specs.Calls.{calls_from, IsToFail, after};

use crate::Calls;
use hq_base::{Bytes, Txt};
use hq_io::{File, FileList, FileRefusal, Files, LARGEST_FILE, NumList};
use std::alloc::Global;

/// A folder in memory. The names of its files differ.
#[derive(Drop)]
pub struct MemFiles {
    pub files: FileList,
    pub calls: Calls,
    ghost distinct: { NamesDiffer files },
}

impl MemFiles {
    /// A folder of these files. `names_differ` tests the condition.
    pub fn new(files: FileList, failing: NumList) -> Self
        requires { NamesDiffer files }
        ensures files { result.files ≡ files }
        ensures calls { result.calls ≡ calls_from failing }
    {
        MemFiles {
            files,
            calls: Calls::new(failing),
        }
    }
}

// The bytes of the file of this name.
fn find<'a>(files: &'a [File], name: &Txt) -> Option<&'a Bytes>
    ensures { MatchOption result (file_named name.now files.now ≡ None) (λ bytes. file_named name.now files.now ≡ Some bytes.now) }
{
    let mut rest = files;
    while let [file, others @ ..] = rest {
        if file.name.as_str() == name.as_str() {
            return Some(&file.bytes);
        }
        rest = others;
    }
    None
}

impl Files for MemFiles {
    ghost use Rattle.hq_io_memory.specs.Loading.{has_failed};

    ghost folder = { λ f. Some f.files };

    ghost faults = { λ f. f.calls.faults };

    fn faults(&self) -> u64 {
        self.calls.faults
    }

    /// Fails where the call's number is one of those that are to fail and the folder has a file of this name that is
    /// not too large.
    fn load(&mut self, _alloc: Global, name: &Txt, into: &mut Bytes) -> Result<(), FileRefusal>
        ensures answer { Loads (Some self.old.files) name.now self.old.calls.faults self.new.calls.faults result into.new }
        ensures failed { IsErrOf result FileRefusal.Failed → Rose self.old.calls.faults self.new.calls.faults }
        ensures empty { OnErr result (into.new ≡ []) }
        ensures files { self.new.files ≡ self.old.files }
        ensures later { self.old.calls.faults ≤ self.new.calls.faults }
        ensures fails { IsToFail self.old.calls → IsErr result }
        ensures fails_only { IsErrOf result FileRefusal.Failed → IsToFail self.old.calls }
        ensures calls { self.new.calls ≡ after (has_failed result) self.old.calls }
    {
        into.clear();
        let fails = self.calls.next_fails();
        match find(self.files.as_slice(), name) {
            None => Err(FileRefusal::Missing),
            Some(bytes) if bytes.len() > LARGEST_FILE => Err(FileRefusal::TooLarge),
            Some(_) if fails => {
                self.calls.fault();
                Err(FileRefusal::Failed)
            }
            Some(bytes) => Ok(into.append(bytes.as_slice())?),
        }
    }

    ghost names_differ = { λ f. f.distinct };
}

/// A folder in memory that never fails. The names of its files differ.
#[derive(Drop)]
pub struct SureFiles {
    pub files: FileList,
    ghost distinct: { NamesDiffer files },
}

impl SureFiles {
    /// A folder of these files. `names_differ` tests the condition.
    pub fn new(files: FileList) -> Self
        requires { NamesDiffer files }
        ensures { result.files ≡ files }
    {
        SureFiles { files }
    }
}

impl Files for SureFiles {
    ghost folder = { λ f. Some f.files };

    ghost faults = { λ _. 0 };

    fn faults(&self) -> u64 {
        0
    }

    fn load(&mut self, _alloc: Global, name: &Txt, into: &mut Bytes) -> Result<(), FileRefusal> {
        into.clear();
        match find(self.files.as_slice(), name) {
            None => Err(FileRefusal::Missing),
            Some(bytes) if bytes.len() > LARGEST_FILE => Err(FileRefusal::TooLarge),
            Some(bytes) => Ok(into.append(bytes.as_slice())?),
        }
    }

    ghost names_differ = { λ f. f.distinct };
}
