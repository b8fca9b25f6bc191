use commit_ledger::{Ledger, Ready};

/// What a call was to make of a list, of which it isn't known whether it is made.
#[derive(Debug, Drop)]
pub enum Flight {
    /// The list with one more entry.
    Entry(Ready),
    /// Another list.
    Whole(Ledger),
}
