//! The claim of a service on a journal: the lock of its first file, which the system keeps as long as the file is open.

use std::fs::{File, OpenOptions, TryLockError};
use std::rt::Files;

/// Whether a journal is this service's to write.
#[derive(Drop)]
pub enum Claim {
    /// It is, as long as the file stays open.
    Held(File),
    /// Another service has it.
    Taken,
    /// No lock was taken: the file isn't there, the system locks no file here, or none was asked for.
    Unlocked,
}

/// Claims the journal of which this is the first file. It doesn't wait.
pub fn claim_file<R: Files<File = File>>(rt: &R, path: &str) -> Claim {
    let mut how = OpenOptions::new();
    how.read(true).write(true);
    let Ok(file) = how.open(rt, path) else {
        return Claim::Unlocked;
    };
    match file.try_lock() {
        Ok(()) => Claim::Held(file),
        Err(TryLockError::WouldBlock) => Claim::Taken,
        Err(TryLockError::Error(_)) => Claim::Unlocked,
    }
}
