//! What a session asks. Each command and each of its parts stands here from the stage on that serves it.

use crate::when::When;
use cfg_base::{Bytes, Word, Words};

/// How a session edits.
#[derive(Clone, Copy, Debug, PartialEq, Eq)]
pub enum Mode {
    /// The candidate that sessions share, together with the others.
    Shared,
    /// A candidate of its own, of which a commit merges what it changed into the active configuration. What isn't
    /// committed is gone when the session leaves the mode.
    Private,
    /// The shared candidate, alone: no other session changes or commits it, and what isn't committed is discarded when the
    /// session leaves the mode.
    Exclusive,
}

/// How statements are printed.
#[derive(Clone, Copy, Debug, PartialEq, Eq)]
pub enum Form {
    /// As curly text, a level in braces.
    Curly,
    /// As the `set` lines that make them.
    SetLines,
    /// As curly text of the configuration that is in force, with the groups that its statements were inherited from.
    Inherited,
}

/// What a load makes of the statements that are there and of a text.
#[derive(Clone, Copy, Debug, PartialEq, Eq)]
pub enum LoadWay {
    /// The curly text's statements are joined to those that are there.
    Merge,
    /// The curly text's statements take the place of all that are there.
    Override,
    /// What the curly text tags `replace:` goes, with all below it; then its statements are joined to what is left.
    Replace,
    /// The text's lines are changes, made from the top one after another.
    SetLines,
}

/// A change of the candidate. The words name a statement from the level on, and then the words of its value; those of a
/// second statement are read from the parent of the first.
#[derive(Clone, Debug, Drop, PartialEq, Eq)]
pub enum Op {
    /// Puts the statement and the levels above it, with these words.
    Set(Words),
    /// Takes the statement and all below away, or these words of it.
    Delete(Words),
    /// Clears the inactive mark.
    Activate(Words),
    /// Sets the inactive mark.
    Deactivate(Words),
    /// Sets the protected mark.
    Protect(Words),
    /// Clears the protected mark.
    Unprotect(Words),
    /// Gives the statement, with all below it, another name of its row; it keeps its place in the user's order.
    Rename {
        from: Words,
        to: Words,
    },
    /// Copies the statement, with all below it and all marks, to another name of its row, which goes last in the
    /// user's order.
    Copy {
        from: Words,
        to: Words,
    },
    /// Moves the statement before or after another one of its row in the user's order.
    Insert {
        moved: Words,
        before: bool,
        anchor: Words,
    },
}

/// One command of a session.
#[derive(Clone, Debug, Drop, PartialEq, Eq)]
pub enum Command {
    /// Enters configuration mode.
    Configure(Mode),
    /// Prints the active configuration below what the words name; without words all of it.
    ShowActive {
        words: Words,
        form: Form,
    },
    /// Lists the commits that are kept, the last one first.
    ShowCommits,
    /// Calls off the commit that waits for its time.
    ClearCommit,
    /// Ends the session.
    Logout,
    /// Moves to the level that the words name from the level on, and remembers the one it leaves.
    Edit(Words),
    /// Moves so many levels up, at most to the top.
    Up(u32),
    /// Moves to the top.
    Top,
    /// Goes back to the remembered level, or to the top; at the top it leaves configuration mode.
    Exit,
    /// Leaves configuration mode from any level.
    ExitAll,
    /// Prints the candidate below what the words name from the level on; without words below the level.
    Show {
        words: Words,
        form: Form,
    },
    /// Changes the candidate.
    Change(Op),
    /// Loads a text into the candidate.
    Load {
        way: LoadWay,
        text: Bytes,
    },
    /// Makes the map of that many commits before the last one the candidate.
    Rollback(u32),
    /// Asks whether the candidate keeps the rules that a commit asks of it; where it does, a pending commit is confirmed.
    CheckOnly,
    /// Makes the candidate the active configuration. With minutes the commit is rolled back unless it is confirmed within
    /// them; an empty comment is none; `quit` leaves configuration mode after the commit.
    Commit {
        minutes: u32,
        comment: Word,
        quit: bool,
    },
    /// Sets a commit of the candidate, as it is now, for a later time; an empty comment is none. Until it is made or called
    /// off no other commit is made.
    CommitAt {
        when: When,
        comment: Word,
    },
    /// Merges what others committed since into the session's own candidate, which is then based on the last commit.
    Update,
    /// Lists the sessions that are in configuration mode.
    Status,
}
