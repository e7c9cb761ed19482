//! A file of the system. Each call is one of std's, whose answer is passed on.
ghost use Rattle.std.specs.Prelude.{◌≡◌, true};
ghost use Rattle.std.specs.Fs.{new_options, with_read, with_write};

use crate::{OpenError, RawFailed, RawFile};
use std::fs::{self, File, OpenOptions, TryLockError};
use std::os::unix::fs::FileExt;
use std::rt::Files;

/// At most one open file, with its lock, which is shared where it is to be read alone.
#[derive(Drop)]
pub struct RealFile<R> {
    files: R,
    file: Option<File>,
}

impl<R: Files<File = File>> RealFile<R> {
    pub fn new(files: R) -> RealFile<R> {
        RealFile { files, file: None }
    }
}

impl<R: Files<File = File>> RawFile for RealFile<R> {
    // Nothing is known of what the system answers.
    ghost opens = { λ f name writes answer after. Unit {0} };

    ghost measures = { λ f answer. Unit {0} };

    ghost reads = { λ f place bytes done after. Unit {0} };

    ghost puts = { λ f place bytes done after. Unit {0} };

    ghost syncs = { λ f done after. Unit {0} };

    fn open(&mut self, name: &str, writes: bool) -> Result<u64, OpenError> {
        self.file = None;
        let file = open_file(&self.files, name, writes).ok_or(OpenError::Failed)?;
        let locked = if writes {
            file.try_lock()
        } else {
            file.try_lock_shared()
        };
        match locked {
            Ok(()) => {}
            Err(TryLockError::WouldBlock) => return Err(OpenError::Held),
            Err(TryLockError::Error(_)) => return Err(OpenError::Failed),
        }
        let bytes = length_of(&file).ok_or(OpenError::Failed)?;
        self.file = Some(file);
        Ok(bytes)
    }

    fn length(&self) -> Option<u64> {
        length_of(self.file.as_ref()?)
    }

    fn read_at(&mut self, place: u64, into: &mut [u8]) -> Result<(), RawFailed> {
        let file = self.file.as_ref().ok_or(RawFailed)?;
        file.read_exact_at(into, place).or(Err(RawFailed))
    }

    fn write_at(&mut self, place: u64, from: &[u8]) -> Result<(), RawFailed> {
        let file = self.file.as_ref().ok_or(RawFailed)?;
        file.write_all_at(from, place).or(Err(RawFailed))
    }

    fn sync(&mut self) -> Result<(), RawFailed> {
        let file = self.file.as_ref().ok_or(RawFailed)?;
        file.sync_all().or(Err(RawFailed))
    }
}

// Opens a file. What is none isn't opened, since the opening of a named pipe waits for a writer.
fn open_file<R: Files<File = File>>(files: &R, name: &str, writes: bool) -> Option<File> {
    if !fs::metadata(files, name).ok()?.is_file() {
        return None;
    }
    options(writes).open(files, name).ok()
}

// How a file is opened: none is made, and none cut off.
fn options(writes: bool) -> OpenOptions
    ensures { result ≡ with_write (with_read new_options true) writes }
{
    let mut options = OpenOptions::new();
    options.read(true).write(writes);
    options
}

// The length of a regular file.
fn length_of(file: &File) -> Option<u64> {
    let about = file.metadata().ok()?;
    if about.is_file() {
        Some(about.len())
    } else {
        None
    }
}
