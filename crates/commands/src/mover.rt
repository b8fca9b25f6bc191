//! The kinds of changes that are written as a keyword, words, a mark and words.

ghost use Rattle.std.specs.Prelude.{◌≡◌};
ghost use Rattle.commands.specs.Mover.{keyword, mark, op_of};

use crate::command::Op;
use cfg_base::Words;

/// A kind of change of two statements. Junos OS CLI User Guide, on rename, copy and insert.
#[derive(Clone, Copy, Debug, PartialEq, Eq)]
pub enum Mover {
    Rename,
    Copy,
    InsertBefore,
    InsertAfter,
}

impl Mover {
    /// The word that a line of this kind begins with.
    pub fn keyword(self) -> &'static [u8]
        ensures { result.now ≡ keyword self }
    {
        match self {
            Mover::Rename => b"rename",
            Mover::Copy => b"copy",
            Mover::InsertBefore | Mover::InsertAfter => b"insert",
        }
    }

    /// The word that stands between the words of the one statement and those of the other.
    pub fn mark(self) -> &'static [u8]
        ensures { result.now ≡ mark self }
    {
        match self {
            Mover::Rename | Mover::Copy => b"to",
            Mover::InsertBefore => b"before",
            Mover::InsertAfter => b"after",
        }
    }

    /// The change of this kind with these words before its mark and after it.
    pub fn op_of(self, front: Words, behind: Words) -> Op
        ensures { result ≡ op_of self front behind }
    {
        match self {
            Mover::Rename => Op::Rename {
                from: front,
                to: behind,
            },
            Mover::Copy => Op::Copy {
                from: front,
                to: behind,
            },
            Mover::InsertBefore => Op::Insert {
                moved: front,
                before: true,
                anchor: behind,
            },
            Mover::InsertAfter => Op::Insert {
                moved: front,
                before: false,
                anchor: behind,
            },
        }
    }
}
