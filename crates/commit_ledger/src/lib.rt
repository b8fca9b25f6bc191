//! The list of commits as an operator knows it: what is kept of it, rollbacks, and the deadline of a commit confirmed.
//!
//! Guarantees: the last 50 commits are rollbacks 0 to 49; an unconfirmed run of commits goes back to the last commit before
//! it; `prepare` takes all memory, `accept` can't fail and takes none.
//! Leaves to others: which configurations are accepted (`commit_check`), when a commit is made and when time is looked at
//! (`config_core`), and where entries are written (`commit_journal`).
#![tactic(auto)]

mod carry;
mod copying;
mod date;
mod entry;
mod entry_list;
mod fields;
mod form;
mod image;
mod kinds;
mod laws;
mod ledger;
mod limit;
mod listing;
mod opening;
mod payload;
mod reading;
mod ready;
mod renewing;
mod restoring;
mod revert;
mod sharing;
mod synced;
mod text;

pub use date::date_bytes_at;
pub use entry::{Cleared, Commit, Confirm, Entry, Scheduled, Via};
pub use entry_list::EntryList;
pub use laws::{
    checkpoints_are_read, former_lists_are_read, kept_maps_stay_accepted, listings_are_one_text,
    lists_begin_with_one_commit, records_have_one_reading, the_last_fifty_commits_are_kept,
};
pub use ledger::{Ledger, NoRollback, Pending};
pub use limit::{MAX_ENTRIES, limits_are_stated};
pub use opening::LedgerFault;
pub use payload::payload_of;
pub use ready::Ready;
pub use synced::Synced;
