//! What the lock's history is made of: events, and notes among them.

use session_history::Happened;

/// A note of a turn whose command became no event, since the database wasn't ready for it.
#[derive(Drop)]
pub(crate) struct Note {
    /// How many events there were before it.
    pub(crate) before: u64,
    /// Whose turn it was.
    pub(crate) caller: u32,
}

/// An event, or a note, by its caller. No value of it is made.
pub(crate) enum Noted {
    Event(Happened),
    Unready(u32),
}
