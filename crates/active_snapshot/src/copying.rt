//! Entries that are taken in by a view and by what was there before.

ghost use Rattle.std.specs.Prelude.{◌≡◌, IfOk};

use cfg_base::NoMemory;
use commit_ledger::{Cleared, Confirm, Entry};

fn copy_of_confirm(confirm: &Confirm) -> Result<Confirm, NoMemory>
    ensures { IfOk result (λ copy. copy ≡ confirm.now) }
{
    Ok(Confirm {
        number: confirm.number,
        user: confirm.user.clone()?,
        moment: confirm.moment,
    })
}

fn copy_of_cleared(cleared: &Cleared) -> Result<Cleared, NoMemory>
    ensures { IfOk result (λ copy. copy ≡ cleared.now) }
{
    Ok(Cleared {
        number: cleared.number,
        user: cleared.user.clone()?,
        moment: cleared.moment,
    })
}

/// A copy, whose map shares its pages.
pub(crate) fn copy_of(entry: &Entry) -> Result<Entry, NoMemory>
    ensures { IfOk result (λ copy. copy ≡ entry.now) }
{
    match entry {
        Entry::Commit(commit) => Ok(Entry::Commit(commit.copy()?)),
        Entry::Confirm(confirm) => Ok(Entry::Confirm(copy_of_confirm(confirm)?)),
        Entry::Scheduled(waiting) => Ok(Entry::Scheduled(waiting.copy()?)),
        Entry::Cleared(cleared) => Ok(Entry::Cleared(copy_of_cleared(cleared)?)),
    }
}
