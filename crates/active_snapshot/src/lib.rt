//! Views of the list of commits, which readers take without waiting while a writer publishes new ones.
//!
//! Guarantees: what a reader sees is the view that a beginning of the kept list leaves, never an earlier one than before, and
//! never one that isn't kept; a missed deadline is reported in place of a view.
//! Leaves to others: when an entry is kept (`commit_journal`), which entries there are (`commit_ledger`), and that a publish
//! reaches readers (`left_right`).
//!
//! An entry becomes visible in these steps:
//! 1. propose: the view after it is made, and nobody sees it.
//! 2. keep: it stands at the end of the list of views, and then readers are shown it. A writer that couldn't show it is late.
//! 3. note: a session is told how far the list goes, and may be handed the last view.
#![tactic(auto)]

mod book;
mod copying;
mod laws;
mod note;
mod opening;
mod reader;
mod slot;
mod view;
mod writer;

pub use book::{Front, Naming, Shelf, open_book};
pub use laws::{fronts_never_fall, views_are_of_entries};
pub use note::SnapNote;
pub use opening::shown;
pub use reader::{Read, SnapReader, SnapReaders};
pub use view::Shown;
pub use writer::SnapWriter;

#[cfg(test)]
mod tests;
