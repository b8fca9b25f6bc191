//! Why a command isn't allowed.

ghost use Rattle.std.specs.Prelude.{◌≡◌};
ghost use Rattle.access_rules.specs.declared.fault.AccessFault.TheVariants as fault;

use crate::right::Right;
use cfg_base::NoMemory;
use thiserror::Error;

/// Why a command isn't allowed.
#[derive(Clone, Copy, Debug, Error, PartialEq, Eq)]
pub enum AccessFault {
    /// The first right that the command needs and the user lacks.
    #[error("permission denied")]
    Denied(Right),
    #[error("out of memory")]
    NoMemory,
}

impl From<NoMemory> for AccessFault {
    ghost from_gives = { λ _ e. e ≡ fault.NoMemory };

    fn from(_: NoMemory) -> AccessFault {
        AccessFault::NoMemory
    }
}
