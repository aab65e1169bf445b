//! The files of the system, by their paths. Trusted, as `file_disk` says.

ghost use Rattle.std.specs.Prelude.{◌≡◌, None, refl, ⊤};
ghost use Rattle.cat_io.specs.Standard.{faults_of_folder};

use crate::disks::Disks;
use crate::fault::{Failed, Faults};
use crate::file_disk::FileDisk;
use std::alloc::Global;
use std::fs::{File, Files, OpenOptions, TryLockError};
use std::io::{self, Error, ErrorKind};
use std::os::fd::{AsRawFd, IntoRawFd};

/// The system's error where a file system has no lock to give.
const NO_LOCKS: i32 = 37;

/// The files of a runtime as disks, each opened at its path as given, for one disk at a time of all
/// processes where the file system has locks. It tells nothing of them.
#[derive(Drop)]
pub struct Folder<R: Files<File = File> + Drop> {
    runtime: R,
    alloc: Global,
    faults: Faults,
    path: Option<String>,
}

impl<R: Files<File = File> + Drop> Folder<R> {
    /// With no faults yet.
    pub fn new(runtime: R, alloc: Global) -> Folder<R>
        ensures { faults_of_folder result ≡ 0 }
    {
        Folder {
            runtime,
            alloc,
            faults: Faults::none(),
            path: None,
        }
    }

    /// What the system said of the first call that failed, and the path of its file; nothing where
    /// none did, or where no memory was left for the path.
    pub fn first_error(&self) -> Option<(&str, Error)> {
        match (&self.path, self.faults.first) {
            (Some(path), Some(error)) => Some((path.as_str(), error)),
            _ => None,
        }
    }
}

impl<R: Files<File = File> + Drop> Disks for Folder<R> {
    type D = FileDisk;

    ghost at_path = { λ _ _. None };

    ghost handed = { λ d. d };

    ghost refuses = { λ _ _. ⊤ };

    ghost faults = { faults_of_folder };

    ghost handed_tells = { λ d. refl };

    ghost handed_leaves = { λ d c. (λ left. left, λ left. left) };

    ghost handed_moment = { λ d. refl };

    ghost handed_since = { λ d t c. (λ left. left, λ left. left) };

    fn open(&mut self, path: &str) -> Result<FileDisk, Failed> {
        match open_alone(&self.runtime, path) {
            Ok(file) => Ok(FileDisk::new(file)),
            Err(error) => {
                keep_path(&mut self.path, self.alloc, path);
                Err(self.faults.count_said(error))
            }
        }
    }

    fn back(&mut self, path: &str, disk: FileDisk) {
        if let Some(error) = disk.faults.first {
            keep_path(&mut self.path, self.alloc, path);
            self.faults.keep(error);
        }
        self.faults.count_more(disk.faults.count);
    }
}

fn keep_path(kept: &mut Option<String>, alloc: Global, path: &str) {
    if kept.is_none() {
        *kept = String::from_str(alloc, path).ok();
    }
}

// Opens a file, or makes it, with an exclusive lock where its file system has locks. Before an
// empty one gets any bytes its folder is synced, so that the file of a journal is there after a
// crash.
fn open_alone<R: Files<File = File>>(runtime: &R, path: &str) -> io::Result<File> {
    let file = OpenOptions::new()
        .read(true)
        .write(true)
        .create(true)
        .open(runtime, path)?;
    if is_standard(&file) {
        return Err(Error::other("a standard stream is closed"));
    }
    match file.try_lock() {
        Ok(()) => {}
        Err(TryLockError::WouldBlock) => return Err(Error::other("another process holds the file")),
        Err(TryLockError::Error(error)) => {
            if !has_no_locks(error) {
                return Err(error);
            }
        }
    }
    if file.metadata()?.len() == 0 {
        File::open(runtime, folder_of(path))?.sync_all()?;
    }
    Ok(file)
}

fn has_no_locks(error: Error) -> bool {
    error.kind() == ErrorKind::Unsupported || error.raw_os_error() == Some(NO_LOCKS)
}

fn folder_of(path: &str) -> &str {
    match path.rsplit_once('/') {
        None => ".",
        Some(("", _)) => "/",
        Some((folder, _)) => folder,
    }
}

// Whether the number is that of standard input, output or error.
fn is_standard(file: &File) -> bool {
    file.as_raw_fd() <= 2
}

/// Opens `/dev/null` for each standard stream that is closed, to the end of the process, so that no
/// other file gets its number. A read of it finds the end, and a write fails.
pub fn hold_standard<R: Files<File = File>>(runtime: &R) {
    for _ in 0..3 {
        match File::open(runtime, "/dev/null") {
            Ok(null) if is_standard(&null) => {
                let _ = null.into_raw_fd();
            }
            _ => return,
        }
    }
}
