//! A list of commits that two disks hold, as the records of a journal, and how it grows.
//!
//! Guarantees: `create` makes a journal whose one record is the factory commit; `open` reads the list that two disks
//! spell, and writes nothing. A refusal has its cause in the bytes, in a disk's count of faults, or is want of memory.
//! `add_entry` makes the list with one more entry of it, `replace_list` puts a whole list in its place; a crash at any
//! moment of them leaves the list or the one that they make.
//!
//! Its states, and the calls that move between them:
//! - The list stands (`Stands`): after `create` and `open`, and after each call that is done or answers which list it is.
//!   Each crash leaves it. Only here `add_entry` and `replace_list` may be called.
//! - A change of the list is in flight (`StandsBetween`): after a call at which a disk failed. A crash leaves the list or
//!   the one that the change makes. Only `settle_list` may be called, with that change.
//!
//! Leaves to others: the two files (`commit_journal`), what an entry keeps to (`commit_ledger`), which configurations are
//! accepted (`commit_check`), and which entries come.
#![tactic(auto)]

mod change;
mod creating;
mod growing;
mod laws;
mod opening;
mod ranges;
mod stored;
mod why;

pub use change::Change;
pub use growing::{add_entry, replace_list, settle_list};
pub use laws::{disks_have_one_start, starts_have_one_cause, what_is_held_is_found};
pub use ranges::entry_keeps_ranges;
pub use stored::Stored;
pub use why::{StartFault, StartWhy};
