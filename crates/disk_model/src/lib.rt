//! A disk as a crash sees it: the trait, a disk in memory and an adapter to a real file.
//!
//! Guarantees: what each call does to the contents and to the places that a crash may change; a
//! failure comes only where the count of faults rose. `MemDisk` is proved to be such a disk.
//! Leaves to others: what a real file holds and keeps. `FileDisk` counts its faults and tells
//! nothing of content: that a file behaves as the model is assumed.
#![tactic(auto)]

mod disk;
mod failing;
mod file;
mod kept;
mod laws;
mod made;
mod memory;
mod moves;
mod replay;
mod torn;

pub use disk::{Disk, DiskDone, DiskLen, DiskRead};
pub use failing::{FailAt, FailMode};
pub use file::FileDisk;
pub use laws::a_crash_leaves_what_was_synced;
pub use made::Made;
pub use memory::MemDisk;
pub use torn::Torn;

#[cfg(test)]
mod tests;
