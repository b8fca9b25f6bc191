//! Why there is no expansion.

ghost use Rattle.std.specs.Prelude.{◌≡◌};
ghost use Rattle.group_expand.specs.declared.fault.ExpandFault.TheVariants.{NoMemory};

use std::alloc::{AllocError, AllocFailed};
use thiserror::Error;

/// Why there is no expansion.
#[derive(Clone, Copy, Debug, PartialEq, Eq, Error)]
pub enum ExpandFault {
    #[error("an expansion has at most 65536 statements")]
    TooWide,
    #[error("out of memory")]
    NoMemory,
}

impl From<AllocError> for ExpandFault {
    ghost from_gives = { λ _ fault. fault ≡ NoMemory };

    fn from(_: AllocError) -> ExpandFault {
        ExpandFault::NoMemory
    }
}

impl<T: Drop> From<AllocFailed<T>> for ExpandFault {
    ghost from_gives = { λ _ fault. fault ≡ NoMemory };

    fn from(_: AllocFailed<T>) -> ExpandFault {
        ExpandFault::NoMemory
    }
}

impl From<cfg_base::NoMemory> for ExpandFault {
    ghost from_gives = { λ _ fault. fault ≡ NoMemory };

    fn from(_: cfg_base::NoMemory) -> ExpandFault {
        ExpandFault::NoMemory
    }
}
