use commands::Command;

/// What the machine is told.
#[derive(Clone, Debug, Drop, PartialEq, Eq)]
pub enum Event {
    /// The entry in flight is known to be kept, or not to be.
    Settle(bool),
    /// The deadline of an unconfirmed run was missed: its target's map is committed again.
    Revert,
    /// The time of a scheduled commit has come: it is made.
    Carry,
    /// A command of a caller.
    Command(Command),
}

/// Whether the entry that an event makes is known to be kept.
#[derive(Clone, Copy, Debug, PartialEq, Eq)]
pub enum Outcome {
    Done,
    Fault,
}

/// What comes before the next command.
#[derive(Clone, Copy, Debug, PartialEq, Eq)]
pub enum Need {
    /// An entry is in flight.
    Settle,
    /// None is, and the deadline of an unconfirmed run has come.
    Revert,
    /// Neither of these, and the time of a scheduled commit has come.
    Carry,
    Nothing,
}
