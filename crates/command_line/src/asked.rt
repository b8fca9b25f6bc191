use cfg_base::{Limits, Users, Word, Words};

/// What the program is to do.
#[derive(Clone, Copy, Debug, PartialEq, Eq)]
pub enum RunMode {
    /// Makes an empty journal at the place.
    Init,
    /// Serves sessions over the journal at the place.
    Serve,
    /// Reports what the journal at the place holds.
    Check,
    /// Makes a configuration of so many interfaces as the place says, and commits it.
    Gen,
}

/// What the words of a command line ask.
#[derive(Debug, Drop)]
pub struct Asked {
    pub mode: RunMode,
    /// A directory, and in mode `Gen` a number.
    pub place: Word,
    /// One for each session, in order; the user of `--user` alone where no session is named.
    pub users: Users,
    /// The files of the sessions, in order; none where no session is named.
    pub files: Words,
    pub limits: Limits,
    /// Whether each command is to be allowed by its user's rights: in mode `Serve` alone.
    pub access: bool,
}
