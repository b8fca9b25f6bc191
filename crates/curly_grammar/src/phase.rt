use crate::level::Level;
use cfg_base::{Word, Words};

/// Which marks stand before a statement.
#[derive(Clone, Copy, Debug, PartialEq, Eq)]
pub(crate) struct Marks {
    pub(crate) inactive: bool,
    pub(crate) protected: bool,
    pub(crate) replace: bool,
}

/// What a reader has in mind between two tokens of a level's text.
#[derive(Debug, Drop)]
pub(crate) enum Phase {
    /// A statement may begin, or the text of the level end.
    Between,
    /// Marks stand before a statement.
    Marked(Marks),
    /// A head stands at a level, and its name has to come.
    Naming {
        marks: Marks,
        at: Level,
        head: Word,
    },
    /// A statement with values has begun, and one of them or a list of them has to come.
    Valuing {
        marks: Marks,
        level: Level,
    },
    /// A list of values has begun.
    Listing {
        marks: Marks,
        level: Level,
        words: Words,
    },
    /// A step is whole, and a further one may follow, or the end of the statement.
    After(Level),
}
