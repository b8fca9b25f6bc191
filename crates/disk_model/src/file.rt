ghost use Rattle.std.specs.Prelude.{◌≡◌, ◌≤◌, ◌+◌, ◌^◌, length, false, IfSome};
ghost use Rattle.disk_model.specs.Disk.{HasCause};
ghost use Rattle.disk_model.specs.File.{untold};

use crate::disk::{Disk, DiskDone, DiskLen, DiskRead};
use std::fs::{File, Files, OpenOptions};
use std::io::ErrorKind;
use std::marker::Model;
use std::os::unix::fs::FileExt;

/// The most bytes that a disk holds.
const MAX_LEN: u64 = 1 << 62;

/// A real file as a disk. It counts its faults and tells nothing of what it holds.
#[derive(Drop)]
pub struct FileDisk {
    file: Option<File>,
    faults: u64,
}

impl Model for FileDisk {
    ghost use Rattle.disk_model.specs.File.{FileView};

    ghost Value = { FileView };

    ghost view = { λ d. record { faults = d.faults } };
}

impl FileDisk {
    /// The file that is there, to read and to write. Where it can't be used, every call fails.
    pub fn open<R: Files<File = File>>(rt: &R, path: &str) -> FileDisk
        ensures { result.faults ≡ 0 }
    {
        let mut how = OpenOptions::new();
        how.read(true).write(true);
        FileDisk {
            file: how.open(rt, path).ok(),
            faults: 0,
        }
    }

    /// The file, which is made where it is missing. Where it can't be used, every call fails.
    pub fn create<R: Files<File = File>>(rt: &R, path: &str) -> FileDisk
        ensures { result.faults ≡ 0 }
    {
        let mut how = OpenOptions::new();
        how.read(true).write(true).create(true);
        FileDisk {
            file: how.open(rt, path).ok(),
            faults: 0,
        }
    }

    /// How many of its calls have failed.
    pub fn faults(&self) -> u64
        ensures { result ≡ self.now.faults }
    {
        self.faults
    }

    fn count_fault(&mut self)
        ensures { HasCause self.old.faults self.new.faults (Unit {0}) }
    {
        self.faults = self.faults.saturating_add(1);
    }
}

fn len_of(file: &Option<File>) -> Option<u64>
    ensures { IfSome result (λ n. n ≤ 2 ^ 62) }
{
    let len = file.as_ref()?.metadata().ok()?.len();
    if len > MAX_LEN { None } else { Some(len) }
}

// One read may give fewer bytes than there are, or be interrupted.
fn read_from(file: &File, at: u64, into: &mut [u8]) -> Option<usize>
    ensures { IfSome result (λ n. n ≤ length into.old) }
{
    let mut done = 0;
    for _ in 0..u64::MAX {
        if done >= into.len() {
            break;
        }
        let place = at.checked_add(done as u64)?;
        match file.read_at(&mut into[done..], place) {
            Ok(0) => break,
            Ok(count) => done += count,
            Err(fault) if fault.kind() == ErrorKind::Interrupted => {}
            Err(_) => return None,
        }
    }
    Some(done)
}

fn write_to(file: &Option<File>, at: u64, piece: &[u8]) -> Option<()>
    ensures { IfSome result (λ _. at + length piece.now ≤ 2 ^ 62) }
{
    let end = at.checked_add(piece.len() as u64)?;
    if end > MAX_LEN {
        return None;
    }
    file.as_ref()?.write_all_at(piece, at).ok()
}

fn sync_of(file: &Option<File>) -> Option<()> {
    file.as_ref()?.sync_data().ok()
}

impl Disk for FileDisk {
    ghost view = { λ d. record { tells = false; history = untold; faults = d.faults } };

    fn len(&mut self) -> DiskLen {
        match len_of(&self.file) {
            Some(len) => DiskLen::Len(len),
            None => {
                self.count_fault();
                DiskLen::Failed
            }
        }
    }

    fn read_at(&mut self, at: u64, into: &mut [u8]) -> DiskRead {
        let read = match &self.file {
            Some(file) => read_from(file, at, into),
            None => None,
        };
        match read {
            Some(count) => DiskRead::Read(count),
            None => {
                self.count_fault();
                DiskRead::Failed
            }
        }
    }

    fn write_at(&mut self, at: u64, piece: &[u8]) -> DiskDone {
        match write_to(&self.file, at, piece) {
            Some(()) => DiskDone::Done,
            None => {
                self.count_fault();
                DiskDone::Failed
            }
        }
    }

    fn sync(&mut self) -> DiskDone {
        match sync_of(&self.file) {
            Some(()) => DiskDone::Done,
            None => {
                self.count_fault();
                DiskDone::Failed
            }
        }
    }
}
