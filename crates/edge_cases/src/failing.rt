//! A disk over a file that fails.

ghost use Rattle.disk_model.specs.Disk.{HasCause};
ghost use Rattle.disk_model.specs.File.{untold};
ghost use Rattle.std.specs.Prelude.{◌≡◌, false};

use disk_model::{Disk, DiskDone, DiskLen, DiskRead, FileDisk};

/// A disk over a file, all of whose syncs fail but for the first few.
#[derive(Drop)]
pub(crate) struct Failing {
    disk: FileDisk,
    syncs: u32,
    faults: u64,
}

impl Failing {
    /// A disk over this one that syncs so often.
    pub(crate) fn new(disk: FileDisk, syncs: u32) -> Failing {
        Failing {
            disk,
            syncs,
            faults: 0,
        }
    }

    fn count_fault(&mut self)
        ensures { HasCause self.old.faults self.new.faults (Unit {0}) }
    {
        self.faults = self.faults.saturating_add(1);
    }

    /// Syncs the file, where that is still to succeed.
    fn try_sync(&mut self) -> DiskDone
        ensures { self.new.faults ≡ self.old.faults }
    {
        match self.syncs.checked_sub(1) {
            Some(syncs) => {
                self.syncs = syncs;
                self.disk.sync()
            }
            None => DiskDone::Failed,
        }
    }
}

impl Disk for Failing {
    ghost view = { λ d. record { tells = false; history = untold; faults = d.faults } };

    fn len(&mut self) -> DiskLen {
        match self.disk.len() {
            DiskLen::Len(len) => DiskLen::Len(len),
            DiskLen::Failed => {
                self.count_fault();
                DiskLen::Failed
            }
        }
    }

    fn read_at(&mut self, at: u64, into: &mut [u8]) -> DiskRead {
        match self.disk.read_at(at, into) {
            DiskRead::Read(count) => DiskRead::Read(count),
            DiskRead::Failed => {
                self.count_fault();
                DiskRead::Failed
            }
        }
    }

    fn write_at(&mut self, at: u64, piece: &[u8]) -> DiskDone {
        match self.disk.write_at(at, piece) {
            DiskDone::Done => DiskDone::Done,
            DiskDone::Failed => {
                self.count_fault();
                DiskDone::Failed
            }
        }
    }

    fn sync(&mut self) -> DiskDone {
        match self.try_sync() {
            DiskDone::Done => DiskDone::Done,
            DiskDone::Failed => {
                self.count_fault();
                DiskDone::Failed
            }
        }
    }
}
