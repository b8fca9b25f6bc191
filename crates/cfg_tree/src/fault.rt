ghost use Rattle.std.specs.Prelude.{◌≡◌};
ghost use Rattle.cfg_tree.specs.declared.fault.TreeFault.TheVariants.{NoMemory};

use cfg_base::{NoMemory, Path};
use std::alloc::{AllocError, AllocFailed};
use thiserror::Error;

/// Why a statement isn't put.
#[derive(Debug, Drop, PartialEq, Eq, Error)]
pub enum TreeFault {
    #[error("no row of the profile has this path")]
    Unknown(Path),
    #[error("a name or a word of this path isn't of its kind")]
    BadValue(Path),
    #[error("more than 16384 statements")]
    TooMany,
    #[error("out of memory")]
    NoMemory,
}

impl From<NoMemory> for TreeFault {
    ghost from_gives = { λ _ fault. fault ≡ NoMemory };

    fn from(_: NoMemory) -> TreeFault {
        TreeFault::NoMemory
    }
}

impl From<AllocError> for TreeFault {
    ghost from_gives = { λ _ fault. fault ≡ NoMemory };

    fn from(_: AllocError) -> TreeFault {
        TreeFault::NoMemory
    }
}

impl<T: Drop> From<AllocFailed<T>> for TreeFault {
    ghost from_gives = { λ _ fault. fault ≡ NoMemory };

    fn from(_: AllocFailed<T>) -> TreeFault {
        TreeFault::NoMemory
    }
}
