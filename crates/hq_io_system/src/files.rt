ghost use Rattle.std.specs.Prelude.{◌≡◌, ◌≤◌, length, None, IfOk};

use crate::StdSource;
use hq_base::{Bytes, Txt};
use hq_io::{FileRefusal, Files, InputRefusal, LARGEST_FILE, count_fault, read_all};
use std::alloc::Global;
use std::io::ErrorKind;
use std::{fs, rt};

/// The files of the system, by their paths. Each refusal but want of memory is counted as a fault.
#[derive(Drop)]
pub struct DirFiles<R> {
    rt: R,
    faults: u64,
}

impl<R: rt::Files> DirFiles<R> {
    /// The files that this runtime reaches.
    pub fn new(rt: R) -> Self
        ensures { ⟦<DirFiles<R> as Files>⟧.faults result ≡ 0 }
    {
        DirFiles { rt, faults: 0 }
    }
}

// Why a file was not opened.
fn unopened(kind: ErrorKind) -> FileRefusal {
    match kind {
        ErrorKind::NotFound => FileRefusal::Missing,
        ErrorKind::OutOfMemory => FileRefusal::Memory,
        _ => FileRefusal::Failed,
    }
}

// Why a file was not read whole.
fn unread(refusal: InputRefusal) -> FileRefusal {
    match refusal {
        InputRefusal::Failed => FileRefusal::Failed,
        InputRefusal::TooLong => FileRefusal::TooLarge,
        InputRefusal::Memory => FileRefusal::Memory,
    }
}

// The bytes of the file at this path.
fn bytes_at<R: rt::Files>(rt: &R, alloc: Global, path: &str) -> Result<Bytes, FileRefusal>
    ensures { IfOk result (λ bytes. length bytes ≤ LARGEST_FILE) }
{
    let file = match fs::open(rt, path) {
        Ok(file) => file,
        Err(e) => return Err(unopened(e.kind())),
    };
    match read_all(alloc, &mut StdSource::new(file), LARGEST_FILE) {
        Ok(bytes) => Ok(bytes),
        Err(refusal) => Err(unread(refusal)),
    }
}

impl<R: rt::Files> Files for DirFiles<R> {
    ghost folder = { λ _. None };

    ghost faults = { λ f. f.faults };

    fn faults(&self) -> u64 {
        self.faults
    }

    fn load(&mut self, alloc: Global, name: &Txt, into: &mut Bytes) -> Result<(), FileRefusal> {
        match bytes_at(&self.rt, alloc, name.as_str()) {
            Ok(bytes) => {
                *into = bytes;
                Ok(())
            }
            Err(refusal) => {
                into.clear();
                if refusal != FileRefusal::Memory {
                    count_fault(&mut self.faults);
                }
                Err(refusal)
            }
        }
    }

    ghost names_differ = { λ _. tt };
}
