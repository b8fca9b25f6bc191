//! What a database holds of the entries that were added to its list.

use commit_ledger::{Entry, EntryList};
use script_lines::{Text, say_counted};

/// The kind of an entry, and the number of its commit.
fn say_entry(out: &mut Text, entry: &Entry) {
    match entry {
        Entry::Commit(commit) => say_counted(out, "commit", commit.number),
        Entry::Confirm(confirm) => say_counted(out, "confirm", confirm.number),
        Entry::Scheduled(waiting) => say_counted(out, "scheduled", waiting.number),
        Entry::Cleared(cleared) => say_counted(out, "cleared", cleared.number),
    }
}

/// How many entries there are, and each.
pub(crate) fn say_held(out: &mut Text, held: &EntryList) {
    say_counted(out, "held", held.count());
    for place in 0..held.count() {
        if let Some(entry) = held.get(place) {
            say_entry(out, entry);
        }
    }
}
