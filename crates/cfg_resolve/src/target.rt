ghost use Rattle.std.specs.Prelude.{◌≡◌};
ghost use Rattle.cfg_resolve.specs.declared.target.WordsFault.TheVariants.{NoMemory};

use cfg_base::{NoMemory, Path, PathFault, Words};
use std::alloc::{AllocError, AllocFailed};
use thiserror::Error;

/// The statement that words name, and the words of its value, in canonical spellings.
#[derive(Debug, Drop, PartialEq, Eq)]
pub struct Target {
    pub path: Path,
    pub words: Words,
}

/// Why words name no statement. The path has what was read, and the word in question last.
#[derive(Debug, Drop, PartialEq, Eq, Error)]
pub enum WordsFault {
    #[error("no row of the profile takes the last word")]
    Unknown(Path),
    #[error("a name or a value isn't of its kind")]
    BadValue(Path),
    #[error("a name is missing, or there are no words")]
    Incomplete(Path),
    #[error("words follow the end of a statement")]
    Extra(Path),
    #[error("out of memory")]
    NoMemory,
}

impl From<NoMemory> for WordsFault {
    ghost from_gives = { λ _ fault. fault ≡ NoMemory };

    fn from(_: NoMemory) -> WordsFault {
        WordsFault::NoMemory
    }
}

impl From<AllocError> for WordsFault {
    ghost from_gives = { λ _ fault. fault ≡ NoMemory };

    fn from(_: AllocError) -> WordsFault {
        WordsFault::NoMemory
    }
}

impl<T: Drop> From<AllocFailed<T>> for WordsFault {
    ghost from_gives = { λ _ fault. fault ≡ NoMemory };

    fn from(_: AllocFailed<T>) -> WordsFault {
        WordsFault::NoMemory
    }
}
