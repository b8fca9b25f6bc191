use config_core::{Event, Reply};
use session_history::History;

/// The answer to a command.
#[derive(Debug, Drop)]
pub enum Answered {
    /// The command is the event at that place of the history, counted from 0, with the machine's reply.
    Kept { place: u64, reply: Reply },
    /// It is no event. What was needed before it may have been done.
    NoMemory,
}

/// What resulted from a look at the time.
#[derive(Clone, Copy, Debug, PartialEq, Eq)]
pub enum Ticked {
    /// Nothing was needed.
    Nothing,
    /// The entry in flight was settled, and nothing is due.
    Settled,
    /// A missed deadline was reverted, also after a settling.
    Reverted,
    /// The scheduled commit was made whose time had come, also after a settling.
    Carried,
    /// A disk failed, and an entry is in flight.
    DiskFault,
    /// What was needed is not all done.
    NoMemory,
}

/// What resulted from a settling before a command is asked by that event.
#[derive(Debug, Drop)]
pub(crate) enum Before {
    /// Nothing is in flight, and the event is still to come.
    Settled(Event),
    /// A disk failed, and the command is put off with that reply.
    PutOff(Reply),
}

/// What is left of a database.
#[derive(Drop)]
pub struct ClosedBook<D> {
    pub history: History,
    /// Whether an entry is in flight.
    pub fault: bool,
    pub a: D,
    pub b: D,
}
