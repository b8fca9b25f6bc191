//! What an entry keeps to by its types, beside what is known of it.

ghost use Rattle.std.specs.Prelude.{◌<◌, ◌≤◌, ◌^◌};
ghost use Rattle.commit_check.specs.Accepts.{Accepts};
ghost use Rattle.commit_ledger.specs.Rules.{IsCleared, IsCommit, IsConfirm, IsEntry, IsScheduled};
ghost use Rattle.stored_ledger.specs.Writable.{IsWritable, IsWritableCommit, IsWritableScheduled};

use commit_check::accepted_configurations_fit;
use commit_ledger::{Cleared, Commit, Confirm, Entry, Scheduled};

/// A number of 64 bits is below 2^64.
fn is_in_64_bits(_number: u64)
    ensures { _number < 2 ^ 64 }
{}

fn commit_keeps_ranges(commit: &Commit)
    requires { IsWritableCommit commit.now }
    ensures { IsCommit Accepts commit.now }
{
    accepted_configurations_fit();
    let _ = commit.user.as_word();
    let _ = commit.moment.seconds();
    is_in_64_bits(commit.number);
}

fn confirm_keeps_ranges(confirm: &Confirm)
    requires { 1 ≤ confirm.now.number }
    ensures { IsConfirm confirm.now }
{
    let _ = confirm.user.as_word();
    let _ = confirm.moment.seconds();
    is_in_64_bits(confirm.number);
}

fn scheduled_keeps_ranges(waiting: &Scheduled)
    requires { IsWritableScheduled waiting.now }
    ensures { IsScheduled Accepts waiting.now }
{
    accepted_configurations_fit();
    let _ = waiting.user.as_word();
    let _ = waiting.moment.seconds();
    let _ = waiting.at.seconds();
    is_in_64_bits(waiting.number);
}

fn cleared_keeps_ranges(cleared: &Cleared)
    requires { 1 ≤ cleared.now.number }
    ensures { IsCleared cleared.now }
{
    let _ = cleared.user.as_word();
    let _ = cleared.moment.seconds();
    is_in_64_bits(cleared.number);
}

/// An entry that may be written keeps to the ranges of its fields: its types keep the others.
pub fn entry_keeps_ranges(entry: &Entry)
    requires { IsWritable entry.now }
    ensures { IsEntry Accepts entry.now }
{
    match entry {
        Entry::Commit(commit) => commit_keeps_ranges(commit),
        Entry::Confirm(confirm) => confirm_keeps_ranges(confirm),
        Entry::Scheduled(waiting) => scheduled_keeps_ranges(waiting),
        Entry::Cleared(cleared) => cleared_keeps_ranges(cleared),
    }
}
