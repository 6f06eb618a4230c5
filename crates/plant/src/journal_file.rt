//! The real file of a journal: opened under an exclusive lock, and watched while it is in use.

use crate::size_limit::size_limit;
use std::alloc::Global;
use std::fs::{File, Files, OpenFile, OpenOptions, TryLockError};
use std::io;
use std::os::unix::fs::{FileExt, MetadataExt};

/// Why the journal's file can't be opened or used.
#[derive(Clone, Copy, Debug)]
pub enum FileFault {
    /// The error that the system gives.
    System(io::Error),
    /// It is no regular file.
    NotRegular,
    /// Another process holds the lock.
    Locked,
    /// No name leads to the file any more.
    Unlinked,
    /// The file has `length` bytes and had `known` before.
    Cut { length: u64, known: u64 },
    /// A write would go beyond the greatest length, in bytes, that this process may give a file.
    TooLong { limit: u64 },
}

impl From<io::Error> for FileFault {
    fn from(error: io::Error) -> FileFault {
        FileFault::System(error)
    }
}

impl From<TryLockError> for FileFault {
    fn from(error: TryLockError) -> FileFault {
        match error {
            TryLockError::WouldBlock => FileFault::Locked,
            TryLockError::Error(error) => FileFault::System(error),
        }
    }
}

/// A regular file that this process has locked (flock, exclusive) until it is dropped.
#[derive(Debug, Drop)]
pub struct JournalFile {
    file: File,
    /// The file had so many bytes at least.
    known: u64,
    limit: u64,
}

impl JournalFile {
    /// Opens the file of a journal that was begun, and locks it before anything is read.
    pub fn open(files: &impl Files<File = File>, path: &str) -> Result<JournalFile, FileFault> {
        let file = open_locked(files, path, false)?;
        watched(files, file)
    }

    /// The same for a journal that is to be begun: the file is created where it is absent, and its folder is synced,
    /// so that its name is durable too.
    pub fn create(
        files: &impl Files<File = File>,
        alloc: Global,
        path: &str,
    ) -> Result<JournalFile, FileFault> {
        let file = open_locked(files, path, true)?;
        sync_folder(files, alloc, path)?;
        watched(files, file)
    }

    pub(crate) fn length(&mut self) -> Result<u64, FileFault> {
        let length = self.file.metadata()?.len();
        self.known = self.known.max(length);
        Ok(length)
    }

    pub(crate) fn read_at(&mut self, at: u64, out: &mut [u8]) -> Result<(), FileFault> {
        self.file.read_exact_at(out, at)?;
        Ok(())
    }

    /// A write beyond the limit is refused here, since the system would end the process by a signal (SIGXFSZ).
    /// After a write that failed, what it left behind the former end is cut off again where the system allows it.
    pub(crate) fn write_at(&mut self, at: u64, piece: &[u8]) -> Result<(), FileFault> {
        let end = at.saturating_add(piece.len() as u64);
        if end > self.limit {
            return Err(FileFault::TooLong { limit: self.limit });
        }
        let length = self.standing_length()?;
        match self.file.write_all_at(piece, at) {
            Ok(()) => {
                self.known = self.known.max(end);
                Ok(())
            }
            Err(error) => {
                let _ = OpenFile::set_len(&self.file, length);
                Err(FileFault::System(error))
            }
        }
    }

    /// What was written counts as durable only where the file still has a name and all of its bytes.
    pub(crate) fn sync(&mut self) -> Result<(), FileFault> {
        self.file.sync_all()?;
        self.standing_length()?;
        Ok(())
    }

    /// The file's length, where it has a name and is no shorter than it was.
    fn standing_length(&self) -> Result<u64, FileFault> {
        let found = self.file.metadata()?;
        if found.nlink() == 0 {
            return Err(FileFault::Unlinked);
        }
        if found.len() < self.known {
            return Err(FileFault::Cut {
                length: found.len(),
                known: self.known,
            });
        }
        Ok(found.len())
    }
}

fn open_locked(
    files: &impl Files<File = File>,
    path: &str,
    creates: bool,
) -> Result<File, FileFault> {
    let mut options = OpenOptions::new();
    let file = options
        .read(true)
        .write(true)
        .create(creates)
        .open(files, path)?;
    if !file.metadata()?.is_file() {
        return Err(FileFault::NotRegular);
    }
    file.try_lock()?;
    Ok(file)
}

fn watched(files: &impl Files<File = File>, file: File) -> Result<JournalFile, FileFault> {
    let known = file.metadata()?.len();
    let limit = size_limit(files).unwrap_or(u64::MAX);
    Ok(JournalFile { file, known, limit })
}

/// Syncs the folder in which the file lies, where its path leads through symbolic links too.
fn sync_folder(files: &impl Files<File = File>, alloc: Global, path: &str) -> io::Result<()> {
    let mut folder = files.canonicalize(alloc, path)?;
    folder.pop();
    File::open(files, folder.as_str())?.sync_all()
}
