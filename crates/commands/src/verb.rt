//! The kinds of changes that are written as a keyword with words after it.

ghost use Rattle.std.specs.Prelude.{◌≡◌};
ghost use Rattle.commands.specs.Verb.{keyword, op_of};

use crate::command::Op;
use cfg_base::Words;

/// A kind of change. Junos OS CLI User Guide, on set, delete, activate, deactivate, protect and unprotect.
#[derive(Clone, Copy, Debug, PartialEq, Eq)]
pub enum Verb {
    Set,
    Delete,
    Activate,
    Deactivate,
    Protect,
    Unprotect,
}

impl Verb {
    /// The word that a line of this kind begins with.
    pub fn keyword(self) -> &'static [u8]
        ensures { result.now ≡ keyword self }
    {
        match self {
            Verb::Set => b"set",
            Verb::Delete => b"delete",
            Verb::Activate => b"activate",
            Verb::Deactivate => b"deactivate",
            Verb::Protect => b"protect",
            Verb::Unprotect => b"unprotect",
        }
    }

    /// The change of this kind with these words after its keyword.
    pub fn op_of(self, words: Words) -> Op
        ensures { result ≡ op_of self words }
    {
        match self {
            Verb::Set => Op::Set(words),
            Verb::Delete => Op::Delete(words),
            Verb::Activate => Op::Activate(words),
            Verb::Deactivate => Op::Deactivate(words),
            Verb::Protect => Op::Protect(words),
            Verb::Unprotect => Op::Unprotect(words),
        }
    }
}
