//! Why a JSON text isn't read.

ghost use Rattle.std.specs.Prelude.{◌≡◌};
ghost use Rattle.json_text.specs.declared.fault.ReadFault.TheVariants as why;

use cfg_base::{NoMemory, Path};
use std::alloc::{AllocError, AllocFailed};
use thiserror::Error;

/// The first fault of a JSON text. A path is that of the statement in question, or the level's where no statement is named.
#[derive(Clone, Debug, Drop, PartialEq, Eq, Error)]
pub enum JsonFault {
    /// The bytes are no JSON.
    #[error("not json")]
    NotJson,
    /// A member's key is none of the level's.
    #[error("unknown statement")]
    Unknown(Path),
    /// A name or a word isn't of its kind.
    #[error("bad value")]
    BadValue(Path),
    /// Anything else that the layout doesn't have.
    #[error("wrong form")]
    Form(Path),
    #[error("more than 16384 statements")]
    TooMany,
}

/// Why a JSON text isn't read: its fault, or want of memory.
#[derive(Debug, Drop, PartialEq, Eq, Error)]
pub enum ReadFault {
    #[error("the text has a fault")]
    Json(JsonFault),
    #[error("out of memory")]
    NoMemory,
}

impl From<NoMemory> for ReadFault {
    ghost from_gives = { λ _ fault. fault ≡ why.NoMemory };

    fn from(_: NoMemory) -> ReadFault {
        ReadFault::NoMemory
    }
}

impl From<AllocError> for ReadFault {
    ghost from_gives = { λ _ fault. fault ≡ why.NoMemory };

    fn from(_: AllocError) -> ReadFault {
        ReadFault::NoMemory
    }
}

impl<T: Drop> From<AllocFailed<T>> for ReadFault {
    ghost from_gives = { λ _ fault. fault ≡ why.NoMemory };

    fn from(_: AllocFailed<T>) -> ReadFault {
        ReadFault::NoMemory
    }
}
