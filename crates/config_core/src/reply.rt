use cfg_base::{Bytes, Moment, Path, UserName};
use commands::Mode;
use curly_grammar::TextFault;
use edit_ops::EditFault;

/// Why a command was refused; nothing changed but the moment.
#[derive(Debug, Drop)]
pub enum Refusal {
    /// The command belongs to the other mode.
    WrongMode,
    /// A session of this user is in exclusive mode.
    Locked(UserName),
    /// A commit is scheduled for this moment.
    Waiting(Moment),
    /// The last commit isn't confirmed; by this moment it must be.
    Unconfirmed(u64),
    /// The time for which a commit is to be scheduled isn't after now.
    NotLater { at: Moment, moment: Moment },
    /// No commit is scheduled.
    NothingWaits,
    /// The shared candidate has changes that aren't committed.
    Modified,
    /// No row of the profile takes the last word.
    Unknown(Path),
    /// A name or a value isn't of its kind.
    BadValue(Path),
    /// A name or a value is missing.
    Incomplete(Path),
    /// Words follow the end of a statement.
    Extra(Path),
    /// The statement has no other name like the one that is asked.
    NotNamed(Path),
    /// The statement isn't one of a list that keeps the user's order.
    NotOrdered(Path),
    /// The statement, or a word of it, isn't there.
    NotThere(Path),
    /// A statement is at the new name already.
    AlreadyThere(Path),
    /// The statement is no level.
    NotALevel(Path),
    /// This statement is protected, and the change would change it or what stands below it.
    Protected(Path),
    /// There would be more than 16384 statements.
    TooMany,
    /// The session and others changed this statement in two ways since the session's candidate began, or it would stand
    /// without its parent; and no statement before it.
    Conflict(Path),
    /// The expansion that is to be shown has more than 65536 paths.
    TooWide,
    /// No commit of that number is kept; so many are.
    NoRollback { n: u32, kept: u32 },
    /// The curly text isn't read.
    Text(TextFault),
    /// A line of the text, counted from 1, is no change; the byte in it that doesn't fit.
    Line { line: u32, place: u32 },
    /// The change of a line of the text, counted from 1, is refused.
    LineEdit { line: u32, fault: EditFault },
    /// What is committed breaks the rule of this number first at this path, and no rule of a lower number.
    Check { number: u8, path: Path },
    /// The list of entries is full.
    Exhausted,
    /// The entry could not be written, or what was written before isn't known to be kept.
    DiskFault,
}

/// The answer to an event.
#[derive(Debug, Drop)]
pub enum Reply {
    Done,
    LoggedOut,
    Text(Bytes),
    Entered(Mode),
    Left,
    /// The text, or the commit's map, is in the candidate.
    Loaded,
    /// What would be committed is accepted.
    Checked,
    /// The candidate, or what it merges, is committed; with minutes it is rolled back unless it is confirmed within them.
    Committed { minutes: u32, quit: bool },
    /// The candidate, or what it merges, is committed at this moment.
    Scheduled(Moment),
    /// The scheduled commit is called off.
    ClearedCommit,
    Refused(Refusal),
}
