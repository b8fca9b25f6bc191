//! The words of the commands, each in its one place.

ghost use Rattle.std.specs.Prelude.{◌≡◌};
ghost use Rattle.shell_words.specs.Keyword.{spelled};

use cfg_lex::Mark;
use commands::{Mover, Verb};

/// A word that a command is written with.
#[derive(Clone, Copy, Debug, PartialEq, Eq)]
pub(crate) enum Keyword {
    /// The keyword of a kind of change.
    Change(Verb),
    /// The keyword of a kind of change of two statements.
    Move(Mover),
    /// The word between the two statements of such a change.
    Mark(Mover),
    Edit,
    Up,
    Top,
    Exit,
    Quit,
    ConfigurationMode,
    Show,
    Commit,
    Configure,
    Configuration,
    Display,
    Inheritance,
    Json,
    Private,
    Exclusive,
    System,
    Load,
    Merge,
    Override,
    Replace,
    Terminal,
    Rollback,
    Update,
    Status,
    Check,
    Confirmed,
    Comment,
    AndQuit,
    At,
    Synchronize,
    Clear,
    Pipe,
}

impl Keyword {
    /// The bytes of the word.
    pub(crate) fn bytes(self) -> &'static [u8]
        ensures { result.now ≡ spelled self }
    {
        match self {
            Keyword::Change(verb) => verb.keyword(),
            Keyword::Move(mover) => mover.keyword(),
            Keyword::Mark(mover) => mover.mark(),
            Keyword::Edit => b"edit",
            Keyword::Up => b"up",
            Keyword::Top => b"top",
            Keyword::Exit => b"exit",
            Keyword::Quit => b"quit",
            Keyword::ConfigurationMode => b"configuration-mode",
            Keyword::Show => b"show",
            Keyword::Commit => b"commit",
            Keyword::Configure => b"configure",
            Keyword::Configuration => b"configuration",
            Keyword::Display => b"display",
            Keyword::Inheritance => b"inheritance",
            Keyword::Json => b"json",
            Keyword::Private => b"private",
            Keyword::Exclusive => b"exclusive",
            Keyword::System => b"system",
            Keyword::Load => b"load",
            Keyword::Merge => b"merge",
            Keyword::Override => b"override",
            Keyword::Replace => b"replace",
            Keyword::Terminal => b"terminal",
            Keyword::Rollback => b"rollback",
            Keyword::Update => b"update",
            Keyword::Status => b"status",
            Keyword::Check => b"check",
            Keyword::Confirmed => b"confirmed",
            Keyword::Comment => b"comment",
            Keyword::AndQuit => b"and-quit",
            Keyword::At => b"at",
            Keyword::Synchronize => b"synchronize",
            Keyword::Clear => b"clear",
            Keyword::Pipe => Mark::Pipe.word(),
        }
    }
}
