//! A backup engine: a list of commits on two disks of its own, which a master engine keeps up with its own list by messages
//! that may be lost, repeated or late.
//!
//! Guarantees: whatever comes, and whenever the backup stops, its disks hold a front of the master's list; it answers only for
//! what is on its disks; a list that was answered as synchronized stays there.
//! Leaves to others: how two disks hold a list (`stored_ledger`), what an entry keeps to (`commit_ledger`), how a session asks for a
//! commit that is synchronized, and when a backup is started.
#![tactic(auto)]

mod backup;
mod fault;
mod flight;
mod landing;
mod laws;
mod mark;
mod master;
mod message;
mod noting;
mod running;

pub use backup::Backup;
pub use fault::TakeFault;
pub use laws::{
    backups_begin_their_masters, backups_can_take_what_is_sent, backups_stay_their_masters,
    pairs_stay_paired, what_is_synchronized_stays,
};
pub use mark::{Mark, Marks};
pub use master::Master;
pub use message::{Ack, Message};
pub use running::{Run, lines_go_on};
