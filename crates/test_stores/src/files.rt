//! Two files in memory that stop after so many calls, and a connection to two files.

use sqlite::{Connection, FileStore, Files, Options};
use sqlite_disk::{Disk, Fuse, Memory as FileInMemory};
use std::alloc::Global;

/// New files that stop after so many calls each.
pub(crate) fn new_files(alloc: Global, calls: u64) -> Files<Fuse<FileInMemory>> {
    Files {
        log: Fuse::new(FileInMemory::new(alloc), calls),
        db: Fuse::new(FileInMemory::new(alloc), calls),
    }
}

/// A connection to the files, or the files where they can't be opened.
pub(crate) fn connect<D: Disk + Drop>(
    alloc: Global,
    files: Files<D>,
) -> Result<Connection<FileStore<D>>, Files<D>> {
    if !files.may_be_used() {
        return Err(files);
    }
    match Connection::open_files(alloc, files, Options::new(7)) {
        Ok(connection) => Ok(connection),
        Err((_, left)) => Err(left.into_files()),
    }
}
