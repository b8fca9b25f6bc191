ghost use Rattle.std.specs.Prelude.{◌≡◌};
ghost use Rattle.private_merge.specs.declared.fault.MergeFault.TheVariants.{NoMemory};

use cfg_base::{NoMemory, Path};
use std::alloc::{AllocError, AllocFailed};
use thiserror::Error;

/// Why three configurations aren't merged.
#[derive(Debug, Drop, PartialEq, Eq, Error)]
pub enum MergeFault {
    /// The least path that conflicts.
    #[error("both sides changed the statement in two ways, or it would stand without its parent")]
    Conflict(Path),
    #[error("more than 16384 statements")]
    TooMany,
    #[error("out of memory")]
    NoMemory,
}

impl From<NoMemory> for MergeFault {
    ghost from_gives = { λ _ fault. fault ≡ NoMemory };

    fn from(_: NoMemory) -> MergeFault {
        MergeFault::NoMemory
    }
}

impl From<AllocError> for MergeFault {
    ghost from_gives = { λ _ fault. fault ≡ NoMemory };

    fn from(_: AllocError) -> MergeFault {
        MergeFault::NoMemory
    }
}

impl<T: Drop> From<AllocFailed<T>> for MergeFault {
    ghost from_gives = { λ _ fault. fault ≡ NoMemory };

    fn from(_: AllocFailed<T>) -> MergeFault {
        MergeFault::NoMemory
    }
}
