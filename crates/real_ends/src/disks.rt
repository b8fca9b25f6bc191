//! The disks of a list of commits: two files of a folder, or none.

use crate::claim::{Claim, claim_file};
use cfg_base::{NoMemory, Word};
use disk_model::{FileDisk, MemDisk};
use std::alloc::Global;
use std::fs::{File, OpenFile};
use std::rt::Files;
use std::{fs, str};

/// The path of a file of a folder; no path where the folder's name isn't text.
fn path_in(alloc: Global, folder: &Word, file: &str) -> Result<String, NoMemory> {
    let mut path = String::new(alloc);
    if let Ok(name) = str::from_utf8(folder.as_bytes()) {
        path.push_str(name)?;
        path.push_str(file)?;
    }
    Ok(path)
}

/// The files of a journal's disks.
fn paths_in(alloc: Global, folder: &Word) -> Result<(String, String), NoMemory> {
    let a = path_in(alloc, folder, "/journal.a")?;
    let b = path_in(alloc, folder, "/journal.b")?;
    Ok((a, b))
}

/// Claims the journal of a folder for this service.
pub fn claim_journal<R: Files<File = File> + AllocGlobal>(
    rt: &R,
    folder: &Word,
) -> Result<Claim, NoMemory> {
    let (a, _) = paths_in(rt.alloc(), folder)?;
    Ok(claim_file(rt, a.as_str()))
}

/// Makes the entries of new files last, where the system lets a folder be synced.
fn sync_folder<R: Files>(rt: &R, folder: &Word) {
    let Ok(name) = str::from_utf8(folder.as_bytes()) else {
        return;
    };
    if let Ok(opened) = fs::open(rt, name) {
        let _synced = opened.sync_all();
    }
}

/// The files that are there. One that can't be used is a disk whose every call fails.
pub fn open_disks<R: Files<File = File> + AllocGlobal>(
    rt: &R,
    folder: &Word,
) -> Result<(FileDisk, FileDisk), NoMemory> {
    let (a, b) = paths_in(rt.alloc(), folder)?;
    Ok((
        FileDisk::open(rt, a.as_str()),
        FileDisk::open(rt, b.as_str()),
    ))
}

/// The files, made where they are missing. One that can't be used is a disk whose every call fails.
pub fn make_disks<R: Files<File = File> + AllocGlobal>(
    rt: &R,
    folder: &Word,
) -> Result<(FileDisk, FileDisk), NoMemory> {
    let (a, b) = paths_in(rt.alloc(), folder)?;
    let disks = (
        FileDisk::create(rt, a.as_str()),
        FileDisk::create(rt, b.as_str()),
    );
    // The entries have to be on the disk before anybody is told that a journal is there.
    sync_folder(rt, folder);
    Ok(disks)
}

/// Disks that hold nothing and refuse every call.
pub fn no_disks(alloc: Global) -> Result<(MemDisk, MemDisk), NoMemory> {
    let a = MemDisk::new(alloc, 0, 0, Vec::new(alloc), Vec::new(alloc))?;
    let b = MemDisk::new(alloc, 0, 0, Vec::new(alloc), Vec::new(alloc))?;
    Ok((a, b))
}
