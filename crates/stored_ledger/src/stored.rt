use commit_journal::Journal;
use commit_ledger::Ledger;
use disk_model::Disk;

/// A journal on two disks, and the list of commits that its records are.
#[derive(Drop)]
pub struct Stored<D: Disk> {
    pub journal: Journal<D>,
    pub ledger: Ledger,
}
