ghost use Rattle.std.specs.Prelude.{◌≡◌, None};

use hq_base::Txt;
use hq_io::{Disk, DiskFailed, count_fault};
use std::fs::{File, OpenOptions};
use std::io::{Read, Seek, SeekFrom, Write};
use std::rt;

/// A file of the system that is written and read at places. Before `start` it has none. No other such disk has the same file
/// at the same time, where the system can lock it.
#[derive(Drop)]
pub struct FileDisk<R: rt::Files<File = File>> {
    rt: R,
    file: Option<File>,
    size: u64,
    faults: u64,
}

impl<R: rt::Files<File = File>> FileDisk<R> {
    /// A disk without a file, on the files that this runtime reaches.
    pub fn new(rt: R) -> Self
        ensures size { ⟦<FileDisk<R> as Disk>⟧.size result ≡ 0 }
        ensures faults { ⟦<FileDisk<R> as Disk>⟧.faults result ≡ 0 }
    {
        FileDisk {
            rt,
            file: None,
            size: 0,
            faults: 0,
        }
    }
}

// The file of this path without bytes, made where there is none, and locked. A file that is locked keeps its bytes.
fn emptied<R: rt::Files<File = File>>(rt: &R, path: &str) -> Option<File> {
    let mut options = OpenOptions::new();
    options.read(true).write(true).create(true);
    let file = options.open(rt, path).ok()?;
    file.try_lock().ok()?;
    file.set_len(0).ok()?;
    Some(file)
}

// Writes all of the piece at its place.
fn write_all_at<W: Write + Seek>(file: &mut W, at: u64, piece: &[u8]) -> bool {
    file.seek(SeekFrom::Start(at)).is_ok() && file.write_all(piece).is_ok()
}

// Fills the buffer with what stands at the place.
fn read_all_at<R: Read + Seek>(file: &mut R, at: u64, buf: &mut [u8]) -> bool {
    file.seek(SeekFrom::Start(at)).is_ok() && file.read_exact(buf).is_ok()
}

impl<R: rt::Files<File = File>> Disk for FileDisk<R> {
    ghost size = { λ d. d.size };

    ghost held = { λ _. None };

    ghost calls = { λ _. None };

    ghost faults = { λ d. d.faults };

    fn faults(&self) -> u64 {
        self.faults
    }

    /// Makes the file of this path, or empties the one that is there. Fails where another disk has it, in this program or another.
    fn start(&mut self, name: &Txt) -> Result<(), DiskFailed> {
        // The file that it has may be the one of this path.
        if let Some(file) = &self.file {
            let _ = file.unlock();
        }
        match emptied(&self.rt, name.as_str()) {
            Some(file) => {
                self.file = Some(file);
                self.size = 0;
                Ok(())
            }
            None => {
                if let Some(file) = &self.file {
                    let _ = file.try_lock();
                }
                count_fault(&mut self.faults);
                Err(DiskFailed)
            }
        }
    }

    fn write_at(&mut self, at: u64, piece: &[u8]) -> Result<(), DiskFailed> {
        if let Some(file) = &mut self.file {
            if piece.len() as u64 <= u64::MAX - at && write_all_at(file, at, piece) {
                self.size = self.size.max(at + piece.len() as u64);
                return Ok(());
            }
        }
        count_fault(&mut self.faults);
        Err(DiskFailed)
    }

    fn read_at(&mut self, at: u64, buf: &mut [u8]) -> Result<usize, DiskFailed> {
        let count = buf.len().min(self.size.saturating_sub(at) as usize);
        if let Some(file) = &mut self.file {
            if read_all_at(file, at, &mut buf[..count]) {
                return Ok(count);
            }
        }
        count_fault(&mut self.faults);
        Err(DiskFailed)
    }

    ghost told_size = { λ _. tt };
}
