ghost use Rattle.std.specs.Prelude.{◌≡◌};
ghost use Rattle.cfg_lex.specs.Mark.{mark_word};

/// A word that means something else where it stands bare: what marks a statement, and the pipe after a command.
#[derive(Clone, Copy, Debug, PartialEq, Eq)]
pub enum Mark {
    Inactive,
    Protect,
    Replace,
    Pipe,
}

impl Mark {
    /// The bytes of the word.
    pub fn word(self) -> &'static [u8]
        ensures { result.now ≡ mark_word self }
    {
        match self {
            Mark::Inactive => b"inactive:",
            Mark::Protect => b"protect:",
            Mark::Replace => b"replace:",
            Mark::Pipe => b"|",
        }
    }
}
