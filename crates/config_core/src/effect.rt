use crate::position::Position;
use candidate::Candidate;
use commands::Mode;
use commit_ledger::Ready;

/// The candidate of a commit, without edits, twice.
#[derive(Debug, Drop)]
pub struct Fresh {
    /// For the sessions that share theirs.
    pub shared: Candidate,
    /// For the session that commits.
    pub own: Candidate,
}

/// What makes an entry.
#[derive(Clone, Copy, Debug, PartialEq, Eq)]
pub enum Maker {
    /// A caller's command.
    Command(u32),
    /// A missed deadline.
    Deadline,
    /// A scheduled commit whose time has come. `same`: the shared candidate has its map, and is its candidate from then on.
    Schedule { same: bool },
}

/// An entry that is ready for the list, with all that its settling may need.
#[derive(Debug, Drop)]
pub struct Appending {
    pub ready: Ready,
    /// The candidate of a commit.
    pub fresh: Option<Fresh>,
    pub maker: Maker,
    /// Whether the caller leaves the mode, where the entry is known to be kept at once.
    pub quit: bool,
}

/// What a step does to the state beside the moment.
#[derive(Debug, Drop)]
pub enum Effect {
    Stay,
    /// The caller is in operational mode, and the shared candidate becomes this one, where what the caller changed is
    /// discarded.
    Leave(Option<Candidate>),
    /// The caller edits so, at the top; in private mode this candidate of its own.
    Enter { mode: Mode, own: Option<Candidate> },
    /// The caller stands there.
    Move(Position),
    /// The candidate that the caller edits becomes this one.
    Edit(Candidate),
    /// The entry in flight is appended, or dropped.
    Settle(bool),
    /// The list gets this entry, or it is in flight.
    Append(Appending),
}
