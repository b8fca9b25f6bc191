ghost use Rattle.std.specs.Prelude.{◌≡◌};
ghost use Rattle.curly_grammar.specs.declared.fault.TextFault.TheVariants.{NoMemory};

use std::alloc::{AllocError, AllocFailed};
use thiserror::Error;

/// Why a text isn't read: its leftmost fault, at that byte. A place past 2^32 - 1 is reported as 2^32 - 1.
#[derive(Clone, Copy, Debug, PartialEq, Eq, Error)]
pub enum TextFault {
    #[error("bad byte at byte {0}")]
    BadByte(u32),
    #[error("comment not closed at byte {0}")]
    OpenComment(u32),
    #[error("quote not closed at byte {0}")]
    OpenQuote(u32),
    #[error("word too long at byte {0}")]
    LongWord(u32),
    /// No text of the grammar goes on so.
    #[error("unexpected at byte {0}")]
    Unexpected(u32),
    /// No row takes the word.
    #[error("unknown statement at byte {0}")]
    Unknown(u32),
    /// A name or a value isn't of its kind.
    #[error("bad value at byte {0}")]
    BadValue(u32),
    #[error("more than 16384 statements")]
    TooMany,
    #[error("out of memory")]
    NoMemory,
}

impl From<AllocError> for TextFault {
    ghost from_gives = { λ _ fault. fault ≡ NoMemory };

    fn from(_: AllocError) -> TextFault {
        TextFault::NoMemory
    }
}

impl<T: Drop> From<AllocFailed<T>> for TextFault {
    ghost from_gives = { λ _ fault. fault ≡ NoMemory };

    fn from(_: AllocFailed<T>) -> TextFault {
        TextFault::NoMemory
    }
}

/// Why a token doesn't go on with a text.
#[derive(Clone, Copy, Debug, PartialEq, Eq)]
pub(crate) enum Why {
    Unexpected,
    Unknown,
    BadValue,
}
